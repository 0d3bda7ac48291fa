ghost use Rattle.std.specs.Prelude.{◌≤◌};

// Ten-thousandths of a peso per dollar: 1 to 999,999.
#[derive(Clone, Copy)]
pub struct Rate {
    pub(crate) units: u32,
    ghost ok: { (1 ≤ units) × (units ≤ 999999) },
}
