ghost use Rattle.std.specs.Prelude.{◌≡◌, suc, ◌<◌, ◌≤◌, true, [], ◌∷◌, ◌++◌, OnOk};
ghost use Rattle.terms.specs.Refusals.{first, answered, unless_refused};
ghost use Rattle.rules.specs.Settlement.{fresh};
ghost use Rattle.portfolio.specs.Issuing.{issue_tests, next_deal};
ghost use Rattle.portfolio.specs.View.{placed_of};

use crate::portfolio::{MOST_HEDGES, MOST_NUMBERS, Portfolio};
use rules::hedge::{Deal, Hedge};
use terms::range::{DOLLARS, INSTITUTIONS};
use terms::rate::Rate;
use terms::refusal::Refusal;

impl Portfolio {
    // Tests an issue, in the order of its refusals.
    fn test_issue(&self, institution: u32, dollars: u32) -> Result<(), Refusal>
        ensures answer { result ≡ answered (first (issue_tests institution dollars self.now)) tt }
        ensures passed { OnOk result ((1 ≤ institution) × (institution ≤ 16) × (dollars ≤ 2000000000) × (self.now.placed < 128) × (self.now.numbered < 100000)) }
    {
        if !INSTITUTIONS.has(i64::from(institution)) {
            return Err(Refusal::UnknownParty);
        }
        if !DOLLARS.has(i64::from(dollars)) {
            return Err(Refusal::AmountOutOfRange);
        }
        if self.placed >= MOST_HEDGES {
            return Err(Refusal::HedgePlacesFull);
        }
        if self.numbered >= MOST_NUMBERS {
            return Err(Refusal::NumbersUsedUp);
        }
        Ok(())
    }

    // Puts a hedge with the next number on the first free place.
    fn place(&mut self, day: u32, deal: Deal)
        requires room { (self.old.placed < 128) × (self.old.numbered < 100000) }
        requires next { deal.number ≡ suc self.old.numbered }
        requires fit { (1 ≤ deal.institution) × (deal.institution ≤ 16) × (deal.dollars ≤ 2000000000) × (deal.assigned ≤ 999999) }
        ensures hedges { placed_of self.new ≡ placed_of self.old ++ (fresh day deal ∷ []) }
        ensures numbered { self.new.numbered ≡ deal.number }
    {
        let placed = self.placed;
        self.hedges[placed] = Hedge {
            deal,
            settled: deal.assigned,
            since: day,
            live: true,
        };
        self.placed = placed + 1;
        self.numbered = deal.number;
    }

    // Gives a hedge the next number and a place, and answers the number.
    pub fn issue(
        &mut self,
        day: u32,
        institution: u32,
        dollars: u32,
        assigned: Rate,
        maturity: u32,
    ) -> Result<u32, Refusal>
        ensures number { result ≡ answered (first (issue_tests institution dollars self.old)) (suc self.old.numbered) }
        ensures hedges { placed_of self.new ≡ unless_refused (first (issue_tests institution dollars self.old)) (placed_of self.old ++ (fresh day (next_deal institution dollars assigned.units maturity self.old) ∷ [])) (placed_of self.old) }
        ensures numbered { self.new.numbered ≡ unless_refused (first (issue_tests institution dollars self.old)) (suc self.old.numbered) self.old.numbered }
    {
        self.test_issue(institution, dollars)?;
        let number = self.numbered + 1;
        self.place(
            day,
            Deal {
                number,
                institution,
                dollars,
                assigned: assigned.units(),
                maturity,
            },
        );
        Ok(number)
    }
}
