// Accounts of the central bank and the institutions: a table of balances, or a journal of postings.
#![tactic(auto)]

ghost use Rattle.std.specs.Prelude.{◌≡◌, ℕ, ◌-◌, ◌≤◌, List, length, ℤ};
ghost use Rattle.terms.specs.Refusals.{first, answered, unless_refused};
ghost use Rattle.accounts.specs.Postings.{posting_refused, question_tests, balance_of, moved};

use terms::refusal::Refusal;

pub mod journal;
pub mod payment;
pub mod posting;
pub mod table;
pub mod table_accounts;

// Seventeen balances in centavos, by party, and a number of postings that may still be made.
pub trait Accounts {
    // The greatest number of postings of this kind of accounts.
    const MOST_POSTINGS: usize;

    ghost most: { ℕ };

    ghost balances: { Self → List ℤ };

    ghost free: { Self → ℕ };

    ghost capped: { most ≤ 100000 };

    ghost limited: { (s : Self) → free s ≤ most };

    ghost parties: { (s : Self) → length (balances s) ≡ 17 };

    fn capacity() -> usize
        ensures { result ≡ most };

    fn free_postings(&self) -> usize
        ensures { result ≡ free self.now };

    fn balance(&self, party: i64) -> Result<i64, Refusal>
        ensures { result ≡ answered (first (question_tests party)) (balance_of party (balances self.now)) };

    fn post(&mut self, payer: i64, payee: i64, centavos: i64) -> Result<(), Refusal>
        ensures answer { result ≡ answered (posting_refused payer payee centavos (free self.old)) tt }
        ensures moves { balances self.new ≡ unless_refused (posting_refused payer payee centavos (free self.old)) (moved payer payee centavos (balances self.old)) (balances self.old) }
        ensures uses { free self.new ≡ unless_refused (posting_refused payer payee centavos (free self.old)) (free self.old - 1) (free self.old) };
}

#[cfg(test)]
mod tests {
    use super::*;
    use crate::journal::Journal;
    use crate::payment::pay;
    use crate::posting::Posting;
    use crate::table::Table;
    use std::process::Abort;

    const CENTAVOS: i64 = 30_000_000_000_000;

    fn posts<A: Accounts>(rt: &impl Abort, accounts: &mut A) {
        let cases = [
            (0, 17, CENTAVOS + 1, Err(Refusal::UnknownParty)),
            (3, 3, 5, Err(Refusal::UnknownParty)),
            (0, 16, CENTAVOS + 1, Err(Refusal::AmountOutOfRange)),
            (0, 16, CENTAVOS, Ok(())),
            (16, 2, 7, Ok(())),
        ];
        for (payer, payee, centavos, answer) in cases {
            assert_eq!(rt; accounts.post(payer, payee, centavos), answer);
        }
        let lines = [
            (2, -7, Ok(())),
            (2, i64::MIN, Err(Refusal::AmountOutOfRange)),
        ];
        for (institution, centavos, answer) in lines {
            assert_eq!(rt; pay(accounts, institution, centavos), answer);
        }
        let balances = [
            (0, Ok(7 - CENTAVOS)),
            (2, Ok(0)),
            (16, Ok(CENTAVOS - 7)),
            (-1, Err(Refusal::UnknownParty)),
        ];
        for (party, balance) in balances {
            assert_eq!(rt; accounts.balance(party), balance);
        }
    }

    #[test]
    fn table_posts(rt: HostRuntime) {
        let mut table = Table::new();
        posts(&rt, &mut table);
        assert_eq!(rt; table.free_postings(), 99_997);
    }

    #[test]
    fn journal_posts(rt: HostRuntime) {
        let mut list = [Posting {
            payer: 1,
            payee: 2,
            centavos: 3,
        }; 3];
        let mut journal = Journal::new(&mut list);
        posts(&rt, &mut journal);
        assert_eq!(rt; journal.post(1, 2, 3), Err(Refusal::NoFreePosting));
    }
}
