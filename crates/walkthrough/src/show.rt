// How dates and amounts are printed for a person.
use std::fmt;
use terms::calendar::{Date, Weekday};

// A day by its weekday and date, or by its number where the calendar does not have it.
#[derive(Clone, Copy)]
pub struct Day(pub u32);

impl fmt::Display for Day {
    fn fmt<W: fmt::Write>(&self, f: &mut fmt::Formatter<W>) -> fmt::Result {
        let number = self.0;
        let weekday = Weekday::of_day(number);
        match Date::of_day(i64::from(number)) {
            Ok(Date { year, month, day }) => write!(f, "{weekday:?} {year}-{month:02}-{day:02}"),
            Err(_) => write!(f, "day {number}"),
        }
    }
}

// Whole numbers in groups of three digits.
#[derive(Clone, Copy)]
pub struct Grouped(pub u64);

impl fmt::Display for Grouped {
    fn fmt<W: fmt::Write>(&self, f: &mut fmt::Formatter<W>) -> fmt::Result {
        let millions = self.0 / 1_000_000;
        let thousands = self.0 / 1_000 % 1_000;
        let ones = self.0 % 1_000;
        if millions > 0 {
            write!(f, "{millions},{thousands:03},{ones:03}")
        } else if thousands > 0 {
            write!(f, "{thousands},{ones:03}")
        } else {
            write!(f, "{ones}")
        }
    }
}

fn sign(number: i64) -> &'static str {
    if number < 0 { "-" } else { "" }
}

// Ten-thousandths of a peso per dollar, as pesos.
#[derive(Clone, Copy)]
pub struct Rate(pub i32);

impl fmt::Display for Rate {
    fn fmt<W: fmt::Write>(&self, f: &mut fmt::Formatter<W>) -> fmt::Result {
        let size = self.0.unsigned_abs();
        let sign = sign(i64::from(self.0));
        write!(f, "{sign}{}.{:04}", size / 10_000, size % 10_000)
    }
}

// Centavos, as pesos.
#[derive(Clone, Copy)]
pub struct Pesos(pub i64);

impl fmt::Display for Pesos {
    fn fmt<W: fmt::Write>(&self, f: &mut fmt::Formatter<W>) -> fmt::Result {
        let size = self.0.unsigned_abs();
        let pesos = Grouped(size / 100);
        write!(f, "{}{pesos}.{:02}", sign(self.0), size % 100)
    }
}
