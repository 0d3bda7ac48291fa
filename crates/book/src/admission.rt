ghost use Rattle.std.specs.Prelude.{◌+◌, ◌≤◌, OnOk, slice_index_or, unsigned_abs};
ghost use Rattle.rules.specs.declared.call.Call.TheVariants.{Admit, Lodge, Release};
ghost use Rattle.rules.specs.Rules.{quietly};
ghost use Rattle.book.specs.View.{Does, Tested, done_or};
ghost use Rattle.book.specs.Soundness.{no_desk};

use crate::book::Book;
use rules::hedge::Desk;
use terms::institution::Institution;
use terms::range::LODGEMENTS;
use terms::refusal::Refusal;

const MOST_COLLATERAL: u64 = 10_000_000_000_000_000;

impl Book {
    fn test_admit(&self, institution: i64) -> Result<Institution, Refusal>
        ensures { Tested self.now (Admit institution) institution result }
    {
        let institution = Institution::try_from(institution)?;
        if self.desks[institution.place()].admitted {
            return Err(Refusal::AlreadyAdmitted);
        }
        Ok(institution)
    }

    fn test_lodge(&self, institution: i64, centavos: i64) -> Result<Institution, Refusal>
        ensures answer { Tested self.now (Lodge institution centavos) institution result }
        ensures passed { OnOk result ((slice_index_or self.now.desks (unsigned_abs institution) no_desk).collateral + unsigned_abs centavos ≤ 10000000000000000) }
    {
        let institution = Institution::try_from(institution)?;
        if !LODGEMENTS.has(centavos) {
            return Err(Refusal::AmountOutOfRange);
        }
        let desk = self.desks[institution.place()];
        if !desk.admitted {
            return Err(Refusal::NotAdmitted);
        }
        if desk.collateral > MOST_COLLATERAL - centavos.unsigned_abs() {
            return Err(Refusal::CollateralOutOfBounds);
        }
        Ok(institution)
    }

    fn test_release(&self, institution: i64, centavos: i64) -> Result<Institution, Refusal>
        ensures answer { Tested self.now (Release institution centavos) institution result }
        ensures passed { OnOk result (unsigned_abs centavos ≤ (slice_index_or self.now.desks (unsigned_abs institution) no_desk).collateral) }
    {
        let institution = Institution::try_from(institution)?;
        if !LODGEMENTS.has(centavos) {
            return Err(Refusal::AmountOutOfRange);
        }
        let desk = self.desks[institution.place()];
        if !desk.admitted {
            return Err(Refusal::NotAdmitted);
        }
        if desk.collateral < centavos.unsigned_abs()
            || desk.collateral - centavos.unsigned_abs() < desk.requirement
        {
            return Err(Refusal::CollateralOutOfBounds);
        }
        Ok(institution)
    }

    // Enters an institution.
    pub fn admit(&mut self, institution: i64) -> Result<(), Refusal>
        ensures { Does self.old (Admit institution) (quietly (done_or result)) self.new }
    {
        self.enter_institution(institution)
    }

    fn enter_institution(&mut self, institution: i64) -> Result<(), Refusal>
        ensures { Does self.old (Admit institution) (quietly (done_or result)) self.new }
    {
        let institution = self.test_admit(institution)?;
        self.desks[institution.place()] = Desk {
            admitted: true,
            ..Desk::default()
        };
        Ok(())
    }

    // Raises an institution's collateral.
    pub fn lodge(&mut self, institution: i64, centavos: i64) -> Result<(), Refusal>
        ensures { Does self.old (Lodge institution centavos) (quietly (done_or result)) self.new }
    {
        self.raise_collateral(institution, centavos)
    }

    fn raise_collateral(&mut self, institution: i64, centavos: i64) -> Result<(), Refusal>
        ensures { Does self.old (Lodge institution centavos) (quietly (done_or result)) self.new }
    {
        let institution = self.test_lodge(institution, centavos)?;
        self.desks[institution.place()].collateral += centavos.unsigned_abs();
        Ok(())
    }

    // Lowers an institution's collateral.
    pub fn release(&mut self, institution: i64, centavos: i64) -> Result<(), Refusal>
        ensures { Does self.old (Release institution centavos) (quietly (done_or result)) self.new }
    {
        self.lower_collateral(institution, centavos)
    }

    fn lower_collateral(&mut self, institution: i64, centavos: i64) -> Result<(), Refusal>
        ensures { Does self.old (Release institution centavos) (quietly (done_or result)) self.new }
    {
        let institution = self.test_release(institution, centavos)?;
        self.desks[institution.place()].collateral -= centavos.unsigned_abs();
        Ok(())
    }
}
