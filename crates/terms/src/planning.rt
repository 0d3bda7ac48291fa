ghost use Rattle.std.specs.Prelude.{◌≡◌, ◌≤◌, not, [], ◌∷◌, length, take, negsuc, unsigned_abs};
ghost use Rattle.terms.specs.declared.refusal.Refusal.TheVariants.{AmountOutOfRange};
ghost use Rattle.terms.specs.Refusals.{first, answered};
ghost use Rattle.terms.specs.Ranges.{is_percent};
ghost use Rattle.terms.specs.Plans.{ascend, is_workday, is_business_day, percent_answer, PlanAnswer, holidays_of};

use crate::calendar::Weekday;
use crate::percent::Percent;
use crate::plan::Plan;
use crate::range::{DAYS, PERCENTS};
use crate::refusal::Refusal;

const MOST_HOLIDAYS: usize = 64;

impl TryFrom<i64> for Percent {
    type Error = Refusal;

    ghost try_from_gives = { λ percent answer. percent_answer answer ≡ answered (first ((AmountOutOfRange, not (is_percent percent)) ∷ [])) (unsigned_abs percent) };

    fn try_from(percent: i64) -> Result<Percent, Refusal> {
        if !PERCENTS.has(percent) {
            return Err(Refusal::AmountOutOfRange);
        }
        Ok(Percent {
            value: percent as u8,
        })
    }
}

impl Percent {
    pub fn value(self) -> u8
        ensures { result ≡ self.value }
    {
        self.value
    }
}

// Whether the holidays are days of the calendar, each after the one before.
fn ascending(holidays: &[i64]) -> bool
    ensures { result ≡ ascend (negsuc 0) holidays.now }
{
    holidays.first().is_none_or(|day| DAYS.has(*day))
        && holidays.is_sorted_by(|a, b| a < b && DAYS.has(*b))
}

// A day of the calendar that is no Saturday and no Sunday.
fn is_workday(day: i64) -> bool
    ensures { result ≡ is_workday day }
{
    DAYS.has(day) && !Weekday::of_day(day as u32).is_weekend()
}

// The same, where it is no holiday either.
fn is_business_day(holidays: &[i64], day: i64) -> bool
    ensures { result ≡ is_business_day holidays.now day }
{
    is_workday(day) && !holidays.contains(&day)
}

fn listed(holidays: &[i64]) -> [i64; 64]
    requires { length holidays.now ≤ 64 }
    ensures { (length result ≡ 64) × (take (length holidays.now) result ≡ holidays.now) }
{
    let mut list = [0; MOST_HOLIDAYS];
    list[..holidays.len()].copy_from_slice(holidays);
    list
}

impl Plan {
    pub fn check(start: i64, percent: i64, holidays: &[i64]) -> Result<Plan, Refusal>
        ensures { PlanAnswer start percent holidays.now result }
    {
        let part = Percent::try_from(percent)?;
        if !ascending(holidays) || !is_business_day(holidays, start) {
            return Err(Refusal::NoSuchDay);
        }
        if holidays.len() > MOST_HOLIDAYS {
            return Err(Refusal::WrongLength);
        }
        Ok(Plan {
            start: start as u32,
            part,
            holidays: listed(holidays),
            count: holidays.len(),
        })
    }

    pub fn start(&self) -> u32
        ensures { result ≡ self.now.start }
    {
        self.start
    }

    pub fn part(&self) -> Percent
        ensures { result ≡ self.now.part }
    {
        self.part
    }

    pub fn is_business_day(&self, day: i64) -> bool
        ensures { result ≡ is_business_day (holidays_of self.now) day }
    {
        is_business_day(&self.holidays[0..self.count], day)
    }
}
