ghost use Rattle.std.specs.Prelude.{◌≡◌, unsigned_abs};
ghost use Rattle.terms.specs.Institutions.{institution_tests, institution_answer};
ghost use Rattle.terms.specs.Refusals.{first, answered};

use crate::institution::Institution;
use crate::range::INSTITUTIONS;
use crate::refusal::Refusal;

impl TryFrom<i64> for Institution {
    type Error = Refusal;

    ghost try_from_gives = { λ number answer. institution_answer answer ≡ answered (first (institution_tests number)) (unsigned_abs number) };

    fn try_from(number: i64) -> Result<Institution, Refusal> {
        if !INSTITUTIONS.has(number) {
            return Err(Refusal::UnknownParty);
        }
        Ok(Institution {
            number: number as u8,
        })
    }
}
