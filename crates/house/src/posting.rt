ghost use Rattle.std.specs.Prelude.{◌<◌, ◌≤◌, [], ◌∷◌, length};
ghost use Rattle.std.specs.List.{AllByRecursion};
ghost use Rattle.portfolio.specs.Fitting.{Payable};
ghost use Rattle.house.specs.Posting.{Posts};

use accounts::Accounts;
use accounts::payment::pay;
use rules::hedge::Line;

pub(crate) fn post_line<A: Accounts>(accounts: &mut A, line: Line)
    requires payable { Payable line }
    requires some { 0 < A.Accounts.free accounts.old }
    ensures { Posts (line ∷ []) (A.Accounts.balances accounts.old) (A.Accounts.free accounts.old) (A.Accounts.balances accounts.new) (A.Accounts.free accounts.new) }
{
    let _ = pay(accounts, i64::from(line.institution), line.centavos);
}

// Posts each line between the bank and its institution.
pub(crate) fn post_lines<A: Accounts>(accounts: &mut A, lines: &[Line])
    requires payable { AllByRecursion Payable lines.now }
    requires enough { length lines.now ≤ A.Accounts.free accounts.old }
    ensures { Posts lines.now (A.Accounts.balances accounts.old) (A.Accounts.free accounts.old) (A.Accounts.balances accounts.new) (A.Accounts.free accounts.new) }
{
    for line in lines {
        post_line(accounts, *line);
    }
}
