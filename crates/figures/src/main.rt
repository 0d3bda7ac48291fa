// Figures of the rules: some are proved of the definitions, the others are reckoned by the code and compared.
#![tactic(auto)]

ghost use Rattle.std.specs.Prelude.{◌≡◌, length};
ghost use Rattle.figures.specs.Figures.{table, FiguresAsStated};

use std::io;
use terms::calendar::{Date, Weekday};
use terms::plan::Plan;
use terms::price::rate_by_units;
use terms::refusal::Refusal;
use terms::rounding::{hundredth, payment, requirement};
use tie_rules::by_receipt::ByReceipt;
use tie_rules::pro_rata::ProRata;
use tie_rules::rule::TieRule;

// How many figures are proved: the table's length, each row as stated.
fn proved_figures() -> usize
    ensures count { result ≡ length table }
    ensures stated { FiguresAsStated }
{
    9
}

// A figure as the code reckons it, beside what it has to be.
#[derive(Drop)]
struct Figure {
    what: &'static str,
    reckoned: i64,
    stated: i64,
}

fn row(what: &'static str, reckoned: i64, stated: i64) -> Figure {
    Figure {
        what,
        reckoned,
        stated,
    }
}

// A refusal counts as its number below nought.
fn told<T: Into<i64>>(answer: Result<T, Refusal>) -> i64 {
    answer.map_or_else(|why| -i64::from(why.number()), |value| value.into())
}

fn day(year: u16, month: u8, day: u8) -> i64 {
    told(Date { year, month, day }.day_number())
}

// The weekday of a day, 0 for Sunday.
fn weekday(day: u32) -> i64 {
    Weekday::of_day(day) as i64
}

// A plan of this start and part, with 1 May 2017 (day 120) a holiday: its starting day.
fn plan(start: i64, percent: i64) -> i64 {
    told(Plan::check(start, percent, &[120]).map(|plan| plan.start()))
}

fn required(value: i64, percent: i64) -> i64 {
    let part = Plan::check(64, percent, &[]).map(|plan| plan.part());
    told(part.map(|part| i64::try_from(requirement(value, part)).unwrap_or(i64::MAX)))
}

// The share of one of the tied amounts of 1, 2 and 4 million dollars, of 5 million left.
fn share<T: TieRule>(rule: &T, place: usize) -> i64 {
    let mut shares = [0; 3];
    let answer = rule.share(&[1_000_000, 2_000_000, 4_000_000], 5_000_000, &mut shares);
    told(answer.map(|()| shares.get(place).copied().unwrap_or(0)))
}

fn compare(rt: &HostRuntime, figures: &[Figure]) -> io::Result<()> {
    for figure in figures {
        let what = figure.what;
        let reckoned = figure.reckoned;
        if reckoned == figure.stated {
            println!(rt; "{what}: {reckoned}")?;
        } else {
            println!(rt; "{what}: {reckoned}, and not {}", figure.stated)?;
        }
    }
    Ok(())
}

fn days(rt: &HostRuntime) -> io::Result<()> {
    compare(
        rt,
        &[
            row("day of 1 January 2017", day(2017, 1, 1), 0),
            row("its weekday, from Sunday", weekday(0), 0),
            row("day of 24 February 2017", day(2017, 2, 24), 54),
            row("its weekday", weekday(54), 5),
            row("day of 29 February 2020", day(2020, 2, 29), 1154),
            row("day of 29 February 2019", day(2019, 2, 29), -5),
            row("day of 31 December 2099", day(2099, 12, 31), 30_314),
            row("day of 1 January 2100", day(2100, 1, 1), -5),
            row("plan from Monday, day 64", plan(64, 100), 64),
            row("plan from Sunday, day 63", plan(63, 100), -5),
            row("plan from a holiday", plan(120, 100), -5),
            row("plan with a part of 101 percent", plan(63, 101), -2),
        ],
    )
}

fn amounts(rt: &HostRuntime) -> io::Result<()> {
    compare(
        rt,
        &[
            row(
                "714,286 dollars at a rise of 75",
                payment(714_286, 75),
                535_715,
            ),
            row("at a fall of 75", payment(714_286, -75), -535_715),
            row("at a rise of 25", payment(714_286, 25), 178_572),
            row("penalty for a shortfall of 49", hundredth(49), 0),
            row("penalty for a shortfall of 50", hundredth(50), 1),
            row(
                "requirement for a loss of 1 at 1 percent",
                required(-1, 1),
                1,
            ),
            row(
                "requirement for a loss of 1,000,001 at 40 percent",
                required(-1_000_001, 40),
                4_001,
            ),
            row("requirement for a gain", required(1_000_001, 40), 0),
            row("units -1 at rate 2", told(rate_by_units(-1, 2)), 1),
            row("units -1 at rate 1", told(rate_by_units(-1, 1)), -4),
            row("pro rata share of 1 million", share(&ProRata, 0), 714_286),
            row("pro rata share of 2 million", share(&ProRata, 1), 1_428_572),
            row("pro rata share of 4 million", share(&ProRata, 2), 2_857_142),
            row(
                "share by receipt of 4 million",
                share(&ByReceipt, 2),
                2_000_000,
            ),
        ],
    )
}

fn main(rt: HostRuntime) -> io::Result<()> {
    println!(rt; "proved of the definitions: {} figures", proved_figures())?;
    println!(rt; "reckoned by the code (a refusal is its number below nought):")?;
    days(&rt)?;
    amounts(&rt)
}
