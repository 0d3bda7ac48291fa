ghost use Rattle.std.specs.Prelude.{◌≡◌, ◌-◌, ◌≤◌, min, length, set};
ghost use Rattle.terms.specs.Refusals.{answered, unless_refused};
ghost use Rattle.accounts.specs.Postings.{moved, noughts};
ghost use Rattle.accounts.specs.Journals.{balance_by, journal_balances, free_places, journal_refused, most_journal, limited_journal, parties-journal};

use crate::Accounts;
use crate::posting::Posting;
use terms::range::PARTIES;
use terms::refusal::Refusal;

// Accounts that record each posting in a list lent by the caller. The first `used` records count.
// No ghost field states that they are sound: a struct with a `&mut` and a ghost field cannot be held by value in another.
#[derive(Drop)]
pub struct Journal<'a> {
    pub(crate) list: &'a mut [Posting],
    pub(crate) used: usize,
}

impl<'a> Journal<'a> {
    // `lends` tells a caller that what the journal writes stands in the caller's own list.
    pub fn new(list: &'a mut [Posting]) -> Journal<'a>
        ensures list { result.list.now ≡ list.old }
        ensures lends { result.list.ghost_name ≡ list.entry.ghost_name }
        ensures used { result.used ≡ 0 }
        ensures balances { journal_balances result.list.now result.used ≡ noughts }
        ensures free { free_places result.list.now result.used ≡ min (length list.old) 50000 }
    {
        Journal { list, used: 0 }
    }
}

// The balance of one party, from the records.
fn sum_records(records: &[Posting], party: i64) -> i64
    requires { length records.now ≤ 50000 }
    ensures { result ≡ balance_by records.now party }
{
    let mut sum = 0;
    for posting in records {
        sum += posting.moved_into(party);
    }
    sum
}

impl<'a> Accounts for Journal<'a> {
    const MOST_POSTINGS: usize = 50_000;

    ghost most = { 50000 };

    ghost balances = { λ s. journal_balances s.list.now s.used };

    ghost free = { λ s. free_places s.list.now s.used };

    ghost capped = { most_journal };

    ghost limited = { λ s. limited_journal s.list.now s.used };

    ghost parties = { λ s. parties-journal s.list.now s.used };

    // The trait's clause again: an impl with a lifetime parameter does not take it over.
    fn capacity() -> usize
        ensures { result ≡ 50000 }
    {
        Self::MOST_POSTINGS
    }

    fn free_postings(&self) -> usize {
        self.list
            .len()
            .min(Self::MOST_POSTINGS)
            .saturating_sub(self.used)
    }

    fn balance(&self, party: i64) -> Result<i64, Refusal> {
        if !PARTIES.has(party) {
            return Err(Refusal::UnknownParty);
        }
        let written = self.used.min(Self::MOST_POSTINGS).min(self.list.len());
        Ok(sum_records(&self.list[0..written], party))
    }

    // The trait's clauses again, and what the list then holds: the record at the first free place, the rest as it was.
    fn post(&mut self, payer: i64, payee: i64, centavos: i64) -> Result<(), Refusal>
        ensures answer { result ≡ answered (journal_refused payer payee centavos self.old.list.now self.old.used) tt }
        ensures moves { journal_balances self.new.list.now self.new.used ≡ unless_refused (journal_refused payer payee centavos self.old.list.now self.old.used) (moved payer payee centavos (journal_balances self.old.list.now self.old.used)) (journal_balances self.old.list.now self.old.used) }
        ensures uses { free_places self.new.list.now self.new.used ≡ unless_refused (journal_refused payer payee centavos self.old.list.now self.old.used) (free_places self.old.list.now self.old.used - 1) (free_places self.old.list.now self.old.used) }
        ensures writes { self.new.list.now ≡ unless_refused (journal_refused payer payee centavos self.old.list.now self.old.used) (set self.old.list.now self.old.used (record { payer = payer; payee = payee; centavos = centavos })) self.old.list.now }
        ensures lends { self.new.list.ghost_name ≡ self.old.list.ghost_name }
    {
        let posting = Posting {
            payer,
            payee,
            centavos,
        };
        posting.test(self.free_postings())?;
        self.list[self.used] = posting;
        self.used += 1;
        Ok(())
    }
}
