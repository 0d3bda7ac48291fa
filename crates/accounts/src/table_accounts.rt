ghost use Rattle.std.specs.Prelude.{◌≡◌};
ghost use Rattle.accounts.specs.Postings.{noughts};
ghost use Rattle.accounts.specs.Tables.{most_table};

use crate::Accounts;
use crate::posting::Posting;
use crate::table::Table;
use terms::range::{PARTIES, PARTY_COUNT};
use terms::refusal::Refusal;

impl Table {
    pub fn new() -> Table
        ensures balances { result.balances ≡ noughts }
        ensures free { result.free ≡ 100000 }
    {
        Table {
            balances: [0; PARTY_COUNT],
            free: <Table as Accounts>::MOST_POSTINGS,
        }
    }
}

impl Accounts for Table {
    const MOST_POSTINGS: usize = 100_000;

    ghost most = { 100000 };

    ghost balances = { λ s. s.balances };

    ghost free = { λ s. s.free };

    ghost capped = { most_table };

    ghost limited = { λ s. s.limited };

    ghost parties = { λ s. s.parties };

    fn capacity() -> usize {
        Self::MOST_POSTINGS
    }

    fn free_postings(&self) -> usize {
        self.free
    }

    fn balance(&self, party: i64) -> Result<i64, Refusal> {
        if !PARTIES.has(party) {
            return Err(Refusal::UnknownParty);
        }
        Ok(self.balances[party as usize])
    }

    fn post(&mut self, payer: i64, payee: i64, centavos: i64) -> Result<(), Refusal> {
        let posting = Posting {
            payer,
            payee,
            centavos,
        };
        posting.test(self.free)?;
        let (from, to) = (payer as usize, payee as usize);
        let less = self.balances[from] - centavos;
        let more = self.balances[to] + centavos;
        self.balances[from] = less;
        self.balances[to] = more;
        self.free -= 1;
        Ok(())
    }
}
