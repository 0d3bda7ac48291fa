use accounts::Accounts;
use book::book::Book;
use conventions::Convention;
use tie_rules::rule::TieRule;

// Put together of accounts, a tie rule and a convention, beside the tables.
#[derive(Drop)]
pub struct House<A: Accounts, T: TieRule, C: Convention> {
    pub(crate) accounts: A,
    pub(crate) tie_rule: T,
    pub(crate) convention: C,
    pub(crate) book: Book,
}
