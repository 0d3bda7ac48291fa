ghost use Rattle.std.specs.Prelude.{◌≡◌, ◌-◌};
ghost use Rattle.terms.specs.Refusals.{answered, unless_refused};
ghost use Rattle.accounts.specs.Postings.{line_refused, line_paid, total};

use crate::Accounts;
use terms::refusal::Refusal;

const BANK: i64 = 0;

// Posts a payment line: the institution receives a positive amount from the bank, and pays a negative one to it.
pub fn pay<A: Accounts>(accounts: &mut A, institution: i64, centavos: i64) -> Result<(), Refusal>
    ensures answer { result ≡ answered (line_refused institution centavos (A.Accounts.free accounts.old)) tt }
    ensures moves { A.Accounts.balances accounts.new ≡ unless_refused (line_refused institution centavos (A.Accounts.free accounts.old)) (line_paid institution centavos (A.Accounts.balances accounts.old)) (A.Accounts.balances accounts.old) }
    ensures uses { A.Accounts.free accounts.new ≡ unless_refused (line_refused institution centavos (A.Accounts.free accounts.old)) (A.Accounts.free accounts.old - 1) (A.Accounts.free accounts.old) }
    ensures keeps { total (A.Accounts.balances accounts.new) ≡ total (A.Accounts.balances accounts.old) }
{
    // The least i64 has no opposite: what it saturates to is out of range as well.
    let amount = centavos.saturating_abs();
    if centavos < 0 {
        accounts.post(institution, BANK, amount)
    } else {
        accounts.post(BANK, institution, amount)
    }
}
