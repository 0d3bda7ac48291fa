ghost use Rattle.std.specs.Prelude.{◌≤◌};

// A guarantee part: 0 to 100 percent.
#[derive(Clone, Copy)]
pub struct Percent {
    pub(crate) value: u8,
    ghost whole: { value ≤ 100 },
}
