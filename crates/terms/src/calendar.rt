ghost use Rattle.std.specs.Prelude.{◌≡◌, ◌+◌, ◌%◌, ◌<◌, ◌≤◌, not, [], ◌∷◌};
ghost use Rattle.terms.specs.declared.refusal.Refusal.TheVariants.{NoSuchDay};
ghost use Rattle.terms.specs.Refusals.{first, answered};
ghost use Rattle.terms.specs.Calendar.{leap_day, month_start, month_end, is_date, day_number, DateNumbered, DateOfDay, weekday_number, is_weekend};

use crate::range::DAYS;
use crate::refusal::Refusal;

// Days of a plain year before each month.
const DAYS_BEFORE_MONTH: [u32; 12] = [0, 31, 59, 90, 120, 151, 181, 212, 243, 273, 304, 334];

const FIRST_YEAR: u16 = 2017;

const LAST_YEAR: u16 = 2099;

#[derive(Clone, Copy, PartialEq, Eq, Debug)]
pub struct Date {
    pub year: u16,
    pub month: u8,
    pub day: u8,
}

// Between 2017 and 2099 every fourth year is a leap year.
fn leap_day(year: u16) -> u32
    ensures { result ≡ leap_day year }
{
    u32::from(year % 4 == 0)
}

// Days of the year before the month, counted from 0.
fn month_start(year: u16, month: usize) -> u32
    requires { month < 12 }
    ensures { result ≡ month_start (leap_day year) month }
{
    if month < 2 {
        DAYS_BEFORE_MONTH[month]
    } else {
        DAYS_BEFORE_MONTH[month] + leap_day(year)
    }
}

// Days of the year up to the month's end.
fn month_end(year: u16, month: usize) -> u32
    requires { month < 12 }
    ensures { result ≡ month_end (leap_day year) month }
{
    if month < 11 {
        month_start(year, month + 1)
    } else {
        365 + leap_day(year)
    }
}

// The month, counted from 0, in which a day of the year falls, itself counted from 0.
fn month_of(year: u16, within: u32) -> usize
    requires { within < 365 + leap_day year }
    ensures { (result < 12) × ((month_start (leap_day year) result ≤ within) × (within < month_end (leap_day year) result)) }
{
    (0..11)
        .find(|month| within < month_end(year, *month))
        .unwrap_or(11)
}

impl Date {
    // The number of this date's day, from 0 for 1 January 2017.
    pub fn day_number(self) -> Result<u32, Refusal>
        ensures { result ≡ answered (first ((NoSuchDay, not (is_date self)) ∷ [])) (day_number self) }
    {
        if self.year < FIRST_YEAR || self.year > LAST_YEAR {
            return Err(Refusal::NoSuchDay);
        }
        if self.month < 1 || self.month > 12 || self.day < 1 {
            return Err(Refusal::NoSuchDay);
        }
        let month = usize::from(self.month - 1);
        let within = month_start(self.year, month) + u32::from(self.day);
        if within > month_end(self.year, month) {
            return Err(Refusal::NoSuchDay);
        }
        let years = u32::from(self.year - FIRST_YEAR);
        Ok(365 * years + years / 4 + within - 1)
    }
}

// The date within its four years, of which the last is a leap year.
fn date_in_range(day: u32) -> Date
    requires { day ≤ 30314 }
    ensures { DateNumbered day result }
{
    let rest = day % 1461;
    let year = if rest < 1095 { rest / 365 } else { 3 };
    let years = 4 * (day / 1461) + year;
    let within = rest - 365 * year;
    let year = FIRST_YEAR + years as u16;
    let month = month_of(year, within);
    let day = within - month_start(year, month) + 1;
    Date {
        year,
        month: month as u8 + 1,
        day: day as u8,
    }
}

impl Date {
    // The date of a day number.
    pub fn of_day(day: i64) -> Result<Date, Refusal>
        ensures { DateOfDay day result }
    {
        if !DAYS.has(day) {
            return Err(Refusal::NoSuchDay);
        }
        Ok(date_in_range(day as u32))
    }
}

#[derive(Clone, Copy, PartialEq, Eq, Debug)]
pub enum Weekday {
    Sunday,
    Monday,
    Tuesday,
    Wednesday,
    Thursday,
    Friday,
    Saturday,
}

impl Weekday {
    // Day 0 is a Sunday.
    pub fn of_day(day: u32) -> Weekday
        ensures { weekday_number result ≡ day % 7 }
    {
        match day % 7 {
            0 => Weekday::Sunday,
            1 => Weekday::Monday,
            2 => Weekday::Tuesday,
            3 => Weekday::Wednesday,
            4 => Weekday::Thursday,
            5 => Weekday::Friday,
            _ => Weekday::Saturday,
        }
    }

    pub fn is_weekend(self) -> bool
        ensures { result ≡ is_weekend self }
    {
        matches!(self, Weekday::Sunday | Weekday::Saturday)
    }
}
