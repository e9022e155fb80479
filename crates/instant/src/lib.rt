// The date and time that a payload means (02, item 1): its fields, whole days carried into the date, UTC moved into local time.
#![tactic(auto)]

ghost use Rattle.std.specs.Prelude.{◌≡◌, true, ◌+◌, ◌*◌, ◌%◌, ◌≤◌, ◌<◌, length};
ghost use Rattle.rules.specs.Rules.{time_bytes, lawful};
ghost use Rattle.calendar.specs.Calendar.{last_day};
ghost use Rattle.instant.specs.Instant.{precision_in, ticks_in, day_in, zone_in, is_west, minutes_of, per_day, since_first, dated, local_of, moment_of};
ghost use Rattle.instant.specs.Forms.{form_shape};

use moment::Moment;

// The values that have a text, as 004 names their types.
#[derive(Clone, Copy)]
pub enum Form {
    // 7F: a date
    Date2,
    // 7E: date and time
    DateTime2,
    // 7D: a time
    Time2,
    // 7B: date and time in UTC, and a zone
    DateTimeOffset,
    // 81: a time in milliseconds, times four
    Milliseconds,
}

// A day and the time of that day.
#[derive(Clone, Copy)]
pub struct Local {
    pub day: u32,
    pub ticks: u64,
}

// Precision, time and date as they are stored; the time may have any number of whole days.
#[derive(Clone, Copy)]
struct Stored {
    precision: usize,
    ticks: u64,
    day: u64,
}

// A zone: so many minutes, west of UTC or not. Not one signed number: the sign and the minutes are written apart.
#[derive(Clone, Copy)]
struct Zone {
    minus: bool,
    minutes: u64,
}

const DATE_BYTES: usize = 3;

const ZONE_BYTES: usize = 2;

const SECONDS_OF_DAY: u64 = 86400;

const MILLISECONDS_OF_DAY: u64 = 86400000;

// A zone is a signed number of two bytes: from here on it is below zero.
const ZONE_HALF: u64 = 32768;

const ZONE_END: u64 = 65536;

// ---- fields

// The fields of a value with a time.
fn fields_of(p: &[u8]) -> Stored
    requires { (precision_in p.now ≤ 7) × (4 + time_bytes (precision_in p.now) ≤ length p.now) }
    ensures { (result.precision ≡ precision_in p.now) × (result.ticks ≡ ticks_in p.now) × (result.day ≡ day_in p.now)
        × (result.ticks < 1099511627776) }
{
    let precision = p[0];
    let date = 1 + rules::time_bytes(precision);
    let ticks = chunks::little_at(p, 1, date);
    let day = chunks::little_at(p, date, date + DATE_BYTES);
    Stored {
        precision: precision as usize,
        ticks,
        day,
    }
}

// The zone at the end of a value.
fn zone_of(p: &[u8]) -> Zone
    requires { 2 ≤ length p.now }
    ensures { (result.minus ≡ is_west (zone_in p.now)) × (result.minutes ≡ minutes_of (zone_in p.now)) }
{
    let zone = chunks::little_at(p, p.len() - ZONE_BYTES, p.len());
    if zone < ZONE_HALF {
        return Zone {
            minus: false,
            minutes: zone,
        };
    }
    Zone {
        minus: true,
        minutes: ZONE_END - zone,
    }
}

// ---- instants

// The ticks of a day.
fn per_day(precision: usize) -> u64
    requires { precision ≤ 7 }
    ensures { (result ≡ per_day precision) × (1 ≤ result) × (result ≤ 864000000000) }
{
    SECONDS_OF_DAY * moment::ten_to(precision)
}

// The ticks from the first day's start on.
fn since_first(precision: usize, day: u64, ticks: u64) -> u64
    requires { (precision ≤ 7) × (day ≤ last_day) × (ticks < 1099511627776) }
    ensures { (result ≡ since_first precision day ticks) × (result < 4000000000000000000) }
{
    day * per_day(precision) + ticks
}

// Date and time of day after so many ticks, or none where the calendar has no such date.
fn date_at(precision: usize, n: u64) -> Option<Local>
    requires { precision ≤ 7 }
    ensures { result ≡ dated precision n }
{
    let whole = per_day(precision);
    let day = n / whole;
    if u64::from(calendar::LAST_DAY) < day {
        return None;
    }
    Some(Local {
        day: day as u32,
        ticks: n % whole,
    })
}

// The same in the local time of a zone.
fn local_at(precision: usize, n: u64, minus: bool, minutes: u64) -> Option<Local>
    requires { (precision ≤ 7) × (n < 4000000000000000000) × (minutes ≤ 840) }
    ensures { result ≡ local_of precision n minus minutes }
{
    let zone = minutes * 60 * moment::ten_to(precision);
    if minus {
        if n < zone {
            return None;
        }
        return date_at(precision, n - zone);
    }
    date_at(precision, n + zone)
}

// ---- what each kind of payload means

fn date(p: &[u8]) -> Option<Moment>
    requires { lawful (form_shape Form.Date2) p.now ≡ true }
    ensures { result ≡ moment_of Form.Date2 p.now }
{
    let day = chunks::little_at(p, 0, DATE_BYTES);
    Some(Moment::Day(day as u32))
}

fn date_time(p: &[u8]) -> Option<Moment>
    requires { lawful (form_shape Form.DateTime2) p.now ≡ true }
    ensures { result ≡ moment_of Form.DateTime2 p.now }
{
    let s = fields_of(p);
    let local = date_at(s.precision, since_first(s.precision, s.day, s.ticks))?;
    Some(Moment::DayTime {
        day: local.day,
        precision: s.precision,
        ticks: local.ticks,
    })
}

fn time(p: &[u8]) -> Option<Moment>
    requires { lawful (form_shape Form.Time2) p.now ≡ true }
    ensures { result ≡ moment_of Form.Time2 p.now }
{
    let s = fields_of(p);
    Some(Moment::Time {
        precision: s.precision,
        ticks: s.ticks % per_day(s.precision),
    })
}

fn date_time_offset(p: &[u8]) -> Option<Moment>
    requires { lawful (form_shape Form.DateTimeOffset) p.now ≡ true }
    ensures { result ≡ moment_of Form.DateTimeOffset p.now }
{
    let s = fields_of(p);
    let zone = zone_of(p);
    let utc = since_first(s.precision, s.day, s.ticks);
    let local = local_at(s.precision, utc, zone.minus, zone.minutes)?;
    Some(Moment::Zoned {
        day: local.day,
        precision: s.precision,
        ticks: local.ticks,
        minus: zone.minus,
        minutes: zone.minutes,
    })
}

fn milliseconds(p: &[u8]) -> Option<Moment>
    requires { lawful (form_shape Form.Milliseconds) p.now ≡ true }
    ensures { result ≡ moment_of Form.Milliseconds p.now }
{
    let ticks = chunks::word_of(p) / 4;
    if MILLISECONDS_OF_DAY <= ticks {
        return None;
    }
    Some(Moment::Time {
        precision: 3,
        ticks,
    })
}

// The date and time of a payload that obeys the rule of its token.
pub fn moment_of(form: Form, p: &[u8]) -> Option<Moment>
    requires { lawful (form_shape form) p.now ≡ true }
    ensures { result ≡ moment_of form p.now }
{
    match form {
        Form::Date2 => date(p),
        Form::DateTime2 => date_time(p),
        Form::Time2 => time(p),
        Form::DateTimeOffset => date_time_offset(p),
        Form::Milliseconds => milliseconds(p),
    }
}
