ghost use Rattle.std.specs.Prelude.{◌≡◌, pos, ◌≤ℤ◌, OnOk};
ghost use Rattle.terms.specs.Refusals.{answered};
ghost use Rattle.accounts.specs.Postings.{posting_refused, Accepted};
ghost use Rattle.accounts.specs.Journals.{moved_into, share};

use terms::range::{PARTIES, POSTINGS};
use terms::refusal::Refusal;

// A record of a posting: who paid whom how much.
#[derive(Clone, Copy, PartialEq, Eq, Debug)]
pub struct Posting {
    pub payer: i64,
    pub payee: i64,
    pub centavos: i64,
}

impl Posting {
    // Tests a posting, in the order of its refusals, with so many still free.
    pub(crate) fn test(self, free: usize) -> Result<(), Refusal>
        ensures answer { result ≡ answered (posting_refused self.payer self.payee self.centavos free) tt }
        ensures accepted { OnOk result (Accepted self.payer self.payee self.centavos free) }
    {
        if !PARTIES.has(self.payer) || !PARTIES.has(self.payee) || self.payer == self.payee {
            return Err(Refusal::UnknownParty);
        }
        if !POSTINGS.has(self.centavos) {
            return Err(Refusal::AmountOutOfRange);
        }
        if free == 0 {
            return Err(Refusal::NoFreePosting);
        }
        Ok(())
    }

    // What the record moves into a party's balance. A caller's list may hold records that no posting makes.
    pub(crate) fn moved_into(self, party: i64) -> i64
        ensures { result ≡ moved_into party self }
    {
        if self.test(1).is_ok() {
            self.share(party)
        } else {
            0
        }
    }

    fn share(self, party: i64) -> i64
        requires { pos 0 ≤ℤ self.centavos }
        ensures { result ≡ share party self }
    {
        if self.payer == party {
            -self.centavos
        } else if self.payee == party {
            self.centavos
        } else {
            0
        }
    }
}
