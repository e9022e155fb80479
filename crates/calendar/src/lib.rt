// The date of a day number (004, section 2.4.1), in the proleptic Gregorian calendar (004, section 2; 02, item 1). Divisions by
// constants find it: there is no loop over years or months.
#![tactic(auto)]

ghost use Rattle.std.specs.Prelude.{◌≡◌, ◌+◌, ◌≤◌, ◌<◌};
ghost use Rattle.calendar.specs.Calendar.{leap, last_day};
ghost use Rattle.calendar.specs.Dates.{evened, date_in, date_of};

// Year 1 to 9999, month 1 to 12, day of the month from 1 on.
#[derive(Clone, Copy)]
pub struct Date {
    pub year: u32,
    pub month: u32,
    pub day: u32,
}

// The day number of 9999-12-31; that of 0001-01-01 is 0.
pub const LAST_DAY: u32 = 3652058;

// The days of 400 years, and of 4 years of which one is a leap year.
const DAYS_OF_400_YEARS: u32 = 146097;

const DAYS_OF_4_YEARS: u32 = 1461;

// The days of a year in which February had 30.
const EVENED_DAYS: u32 = 367;

#[tactic(auto, unfolding(crate::specs::Calendar::leap))]
fn is_leap(year: u32) -> bool
    ensures { result ≡ leap year }
{
    year % 4 == 0 && (year % 100 != 0 || year % 400 == 0)
}

// The day of the year, from 0 on, as if February had 30 days.
#[tactic(auto, using(sequences::proofs::Tests::tests))]
fn even_out(is_leap: bool, day: u32) -> u32
    requires { day < 366 }
    ensures { (result ≡ evened is_leap day) × (result ≤ day + 2) }
{
    if is_leap {
        return if day < 60 { day } else { day + 1 };
    }
    if day < 59 { day } else { day + 2 }
}

// The date of a day of the year that is evened out.
fn date_in(year: u32, evened: u32) -> Date
    requires { evened < 368 }
    ensures { result ≡ date_in year «evened» }
{
    let month = (12 * evened + 6) / EVENED_DAYS;
    let day = evened - (EVENED_DAYS * month + 5) / 12;
    Date {
        year,
        month: month + 1,
        day: day + 1,
    }
}

// The date of day number n.
#[tactic(auto, unfolding(crate::specs::Dates::date_of))]
pub fn date_of(n: u32) -> Date
    requires { n ≤ last_day }
    ensures { result ≡ date_of n }
{
    let x = 4 * n + 3;
    let century = x / DAYS_OF_400_YEARS;
    let y = 4 * (x % DAYS_OF_400_YEARS / 4) + 3;
    let year = 100 * century + y / DAYS_OF_4_YEARS + 1;
    date_in(year, even_out(is_leap(year), y % DAYS_OF_4_YEARS / 4))
}
