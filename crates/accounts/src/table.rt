ghost use Rattle.std.specs.Prelude.{◌≡◌, ◌≤◌, length};
ghost use Rattle.accounts.specs.Tables.{Bounded};

use terms::range::PARTY_COUNT;

// Accounts that keep each party's balance.
#[derive(Drop)]
pub struct Table {
    pub(crate) balances: [i64; PARTY_COUNT],
    pub(crate) free: usize,
    ghost parties: { length balances ≡ 17 },
    ghost limited: { free ≤ 100000 },
    ghost bounded: { Bounded balances free },
}
