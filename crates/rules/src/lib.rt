// The rules of the house as definitions, over the types that its calls speak of, and the law that every run keeps.
#![tactic(auto)]

ghost use Rattle.std.specs.Prelude.{◌≡◌, length};
ghost use Rattle.rules.specs.Law.{Law, OrderKept, PenaltiesOnePercent, PostingsFit};
ghost use Rattle.rules.specs.Worked.{worked, WorkedAsStated};

pub mod auction;
pub mod call;
pub mod hedge;

// How many worked runs the definitions give as stated. Over every run, of these and of any other calls, the law stands.
pub fn worked_runs() -> usize
    ensures count { result ≡ length worked }
    ensures stated { WorkedAsStated }
    ensures law { Law }
    ensures order { OrderKept }
    ensures penalties { PenaltiesOnePercent }
    ensures postings { PostingsFit }
{
    6
}
