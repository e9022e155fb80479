// Dates and times, and their text at the end of the small buffer that numbers are written in (02, item 1).
#![tactic(auto)]

ghost use Rattle.std.specs.Prelude.{◌≡◌, cond, [], ◌∷◌, ◌++◌, ◌+◌, ◌*◌, ◌^◌, ◌≤◌, length};
ghost use Rattle.sequences.specs.Lists.{bytes_of};
ghost use Rattle.numeral.specs.Numeral.{last_digits};
ghost use Rattle.numeral.specs.Puts.{small_bytes};
ghost use Rattle.calendar.specs.Calendar.{last_day};
ghost use Rattle.calendar.specs.Dates.{date_of};
ghost use Rattle.moment.specs.Moment.{date_text, clock_text, zone_text, day_time_text, moment_text};
ghost use Rattle.moment.specs.Written.{Writable};

use numeral::Small;

// A day is a day number; a time has a precision of 0 to 7, and `ticks` of 10^-precision seconds.
#[derive(Clone, Copy)]
pub enum Moment {
    Day(u32),
    Time {
        precision: usize,
        ticks: u64,
    },
    DayTime {
        day: u32,
        precision: usize,
        ticks: u64,
    },
    // the local time of a zone so many minutes from UTC
    Zoned {
        day: u32,
        precision: usize,
        ticks: u64,
        minus: bool,
        minutes: u64,
    },
}

// ---- parts of a text: each is put before the text that stands in small

// The last k digits of n, and a letter after them.
fn put_field(n: u64, k: usize, letter: u8, small: &mut Small)
    requires { length small.old + 2 * (k + 1) ≤ small_bytes }
    ensures { small.new ≡ bytes_of (last_digits k n ++ (letter ∷ [])) ++ small.old }
{
    small.put(letter);
    numeral::put_last(n, k, small);
}

// yyyy-mm-dd
fn put_date(day: u32, small: &mut Small)
    requires { (day ≤ last_day) × (length small.old + 20 ≤ small_bytes) }
    ensures { small.new ≡ bytes_of (date_text (date_of day)) ++ small.old }
{
    let date = calendar::date_of(day);
    numeral::put_last(u64::from(date.day), 2, small);
    put_field(u64::from(date.month), 2, b'-', small);
    put_field(u64::from(date.year), 4, b'-', small);
}

// The ticks of a second: eight powers, so that none is multiplied out.
pub fn ten_to(precision: usize) -> u64
    requires { precision ≤ 7 }
    ensures { (result ≡ 10 ^ precision) × (1 ≤ result) × (result ≤ 10000000) }
{
    match precision {
        1 => 10,
        2 => 100,
        3 => 1000,
        4 => 10000,
        5 => 100000,
        6 => 1000000,
        7 => 10000000,
        _ => 1,
    }
}

// hh:mm:ss and the digits after the point
fn put_clock(ticks: u64, precision: usize, small: &mut Small)
    requires { (precision ≤ 7) × (length small.old + 32 ≤ small_bytes) }
    ensures { small.new ≡ bytes_of (clock_text precision ticks) ++ small.old }
{
    let seconds = ticks / ten_to(precision);
    numeral::put_fraction(ticks, precision, small);
    numeral::put_last(seconds % 60, 2, small);
    put_field(seconds / 60 % 60, 2, b':', small);
    put_field(seconds / 3600, 2, b':', small);
}

// Date, T and time.
fn put_day_time(day: u32, ticks: u64, precision: usize, small: &mut Small)
    requires { (day ≤ last_day) × (precision ≤ 7) × (length small.old + 54 ≤ small_bytes) }
    ensures { small.new ≡ bytes_of (day_time_text day precision ticks) ++ small.old }
{
    put_clock(ticks, precision, small);
    small.put(b'T');
    put_date(day, small);
}

fn sign_of(minus: bool) -> u8
    ensures { result ≡ cond minus 45 43 }
{
    if minus { b'-' } else { b'+' }
}

// +hh:mm or -hh:mm
fn put_zone(minus: bool, minutes: u64, small: &mut Small)
    requires { length small.old + 12 ≤ small_bytes }
    ensures { small.new ≡ bytes_of (zone_text minus minutes) ++ small.old }
{
    numeral::put_last(minutes % 60, 2, small);
    put_field(minutes / 60, 2, b':', small);
    small.put(sign_of(minus));
}

// ---- a text

// Makes the text of a date, a time or both in small.
pub fn render(moment: Moment, small: &mut Small)
    requires { Writable moment }
    ensures { small.new ≡ bytes_of (moment_text moment) }
{
    small.clear();
    match moment {
        Moment::Day(day) => put_date(day, small),
        Moment::Time { precision, ticks } => put_clock(ticks, precision, small),
        Moment::DayTime {
            day,
            precision,
            ticks,
        } => put_day_time(day, ticks, precision, small),
        Moment::Zoned {
            day,
            precision,
            ticks,
            minus,
            minutes,
        } => {
            put_zone(minus, minutes, small);
            put_day_time(day, ticks, precision, small);
        }
    }
}
