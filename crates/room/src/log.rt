ghost use Rattle.std.specs.Prelude.{◌≡◌, [], ◌∷◌, ◌++◌, OnOk};

use rules::call::{Answer, Call};
use rules::hedge::Line;
use std::alloc::{AllocError, Global};

// The calls that were made, the answer to each, and every line told, in order.
#[derive(Drop)]
pub struct Log {
    pub calls: Vec<Call>,
    pub answers: Vec<Answer>,
    pub lines: Vec<Line>,
}

impl Log {
    pub(crate) fn new(heap: Global) -> Log
        ensures calls { result.calls.items ≡ [] }
        ensures answers { result.answers.items ≡ [] }
        ensures lines { result.lines.items ≡ [] }
    {
        Log {
            calls: Vec::new(heap),
            answers: Vec::new(heap),
            lines: Vec::new(heap),
        }
    }

    // One call more, or want of memory.
    pub(crate) fn note(
        &mut self,
        call: Call,
        answer: Answer,
        lines: &[Line],
    ) -> Result<(), AllocError>
        ensures calls { OnOk result (self.new.calls.items ≡ self.old.calls.items ++ call ∷ []) }
        ensures answers { OnOk result (self.new.answers.items ≡ self.old.answers.items ++ answer ∷ []) }
        ensures lines { OnOk result (self.new.lines.items ≡ self.old.lines.items ++ lines.now) }
    {
        self.calls.push(call)?;
        self.answers.push(answer)?;
        self.lines.extend_from_slice(lines)
    }
}
