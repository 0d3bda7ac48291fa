ghost use Rattle.std.specs.Prelude.{◌≡◌, ℕ, ◌≤◌, ◌<◌, true, ◌++◌, map, length, take, drop, if◌then◌else◌, Some, None, filter, OnOk};
ghost use Rattle.std.specs.List.{AllByRecursion};
ghost use Rattle.rules.specs.Settlement.{line_of, open_ones, pays};
ghost use Rattle.portfolio.specs.Settling.{counted, laid_over, paid_lines, room_tests, all_settled_at, settled_one, with_line};
ghost use Rattle.terms.specs.Refusals.{answered, first, unless_refused};
ghost use Rattle.portfolio.specs.View.{placed_of};
ghost use Rattle.portfolio.specs.Fitting.{is_fit, is_sound, Payable};

use crate::fit::FitHedge;
use crate::fixing::Fixing;
use crate::portfolio::{MOST_HEDGES, Portfolio};
use conventions::Convention;
use rules::hedge::{Hedge, Line};
use terms::rate::Rate;
use terms::refusal::Refusal;

// Settles and closes an open hedge as the day asks, and answers its line if it is paid.
fn settle_one<C: Convention>(hedge: &mut Hedge, convention: &C, fixing: Fixing) -> Option<Line>
    requires { is_fit hedge.old ≡ true }
    ensures hedge { hedge.new ≡ settled_one (C.Convention.meaning convention.now) fixing.day fixing.rate.units hedge.old }
    ensures line { result ≡ (if pays (C.Convention.meaning convention.now) fixing.day fixing.rate.units hedge.old then Some (line_of fixing.rate.units hedge.old) else None) }
{
    let fit = FitHedge { hedge: *hedge };
    let paid = fit.is_paid(convention, fixing);
    let shut = hedge.deal.maturity == fixing.day;
    fixing.turn(hedge, paid, shut);
    paid.then(|| fit.line(fixing.rate))
}

// Moves the open hedges to the first places, in order, and answers how many they are.
fn keep_open(hedges: &mut [Hedge]) -> usize
    ensures hedges { take result hedges.new ≡ open_ones hedges.old }
    ensures few { result ≤ length hedges.old }
{
    let mut count = 0;
    for i in 0..hedges.len() {
        let hedge = hedges[i];
        if hedge.live {
            hedges[count] = hedge;
            count += 1;
        }
    }
    count
}

// Writes a line behind those written, if there is one, and answers how many are written then.
fn write_line(lines: &mut [Line], written: usize, line: Option<Line>) -> usize
    requires { written < length lines.old }
    ensures lines { lines.new ≡ with_line line written lines.old }
    ensures count { result ≡ counted line written }
{
    match line {
        None => written,
        Some(line) => {
            lines[written] = line;
            written + 1
        }
    }
}

// Settles hedges by number, and answers how many lines it wrote.
fn settle_all<C: Convention>(
    hedges: &mut [Hedge],
    convention: &C,
    fixing: Fixing,
    lines: &mut [Line],
) -> usize
    requires room { length hedges.old ≤ length lines.old }
    requires sound { (highest : ℕ) × (is_sound 0 highest hedges.old ≡ true) }
    ensures count { result ≡ length (filter (pays (C.Convention.meaning convention.now) fixing.day fixing.rate.units) hedges.old) }
    ensures hedges { hedges.new ≡ map (settled_one (C.Convention.meaning convention.now) fixing.day fixing.rate.units) hedges.old }
    ensures lines { lines.new ≡ map (line_of fixing.rate.units) (filter (pays (C.Convention.meaning convention.now) fixing.day fixing.rate.units) hedges.old) ++ drop result lines.old }
{
    let mut written = 0;
    for hedge in hedges.iter_mut() {
        let line = settle_one(hedge, convention, fixing);
        written = write_line(lines, written, line);
    }
    written
}

// Frees the places of closed hedges among the first ones and settles those that are open; answers how many
// stay, and how many lines it wrote.
fn settle_open<C: Convention>(
    hedges: &mut [Hedge],
    placed: usize,
    convention: &C,
    fixing: Fixing,
    lines: &mut [Line],
) -> (usize, usize)
    requires room { (placed ≤ length hedges.old) × (placed ≤ length lines.old) }
    requires sound { (highest : ℕ) × (is_sound 0 highest (take placed hedges.old) ≡ true) }
    ensures few { result.0 ≤ placed }
    ensures hedges { take result.0 hedges.new ≡ all_settled_at (C.Convention.meaning convention.now) fixing.day fixing.rate.units (take placed hedges.old) }
    ensures count { result.1 ≡ length (paid_lines (C.Convention.meaning convention.now) fixing.day fixing.rate.units (take placed hedges.old)) }
    ensures lines { lines.new ≡ laid_over (paid_lines (C.Convention.meaning convention.now) fixing.day fixing.rate.units (take placed hedges.old)) lines.old }
{
    let open = keep_open(&mut hedges[..placed]);
    let written = settle_all(&mut hedges[..open], convention, fixing, lines);
    (open, written)
}

impl Portfolio {
    // Frees the places of closed hedges, then settles each open one where the convention says so and
    // closes it on its maturity day. The lines stand at the front, by number.
    pub fn settle<C: Convention>(
        &mut self,
        convention: &C,
        day: u32,
        rate: Rate,
        lines: &mut [Line],
    ) -> Result<usize, Refusal>
        ensures count { result ≡ answered (first (room_tests (length lines.old))) (length (paid_lines (C.Convention.meaning convention.now) day rate.units (placed_of self.old))) }
        ensures hedges { placed_of self.new ≡ unless_refused (first (room_tests (length lines.old))) (all_settled_at (C.Convention.meaning convention.now) day rate.units (placed_of self.old)) (placed_of self.old) }
        ensures lines { lines.new ≡ unless_refused (first (room_tests (length lines.old))) (laid_over (paid_lines (C.Convention.meaning convention.now) day rate.units (placed_of self.old)) lines.old) lines.old }
        ensures payable { OnOk result (AllByRecursion Payable (paid_lines (C.Convention.meaning convention.now) day rate.units (placed_of self.old))) }
        ensures numbered { self.new.numbered ≡ self.old.numbered }
    {
        if lines.len() < MOST_HEDGES {
            return Err(Refusal::WrongLength);
        }
        let fixing = Fixing { day, rate };
        let (placed, written) = settle_open(
            &mut self.hedges,
            self.placed,
            convention,
            fixing,
            lines,
        );
        self.placed = placed;
        Ok(written)
    }
}
