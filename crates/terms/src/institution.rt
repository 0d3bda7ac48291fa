ghost use Rattle.std.specs.Prelude.{◌≡◌, ◌≤◌};

// An institution by its number: 1 to 16.
#[derive(Clone, Copy, PartialEq, Eq, Debug)]
pub struct Institution {
    pub(crate) number: u8,
    ghost known: { (1 ≤ number) × (number ≤ 16) },
}

impl Institution {
    // The place of its desk among those of all parties.
    pub fn place(self) -> usize
        ensures { result ≡ self.number }
    {
        usize::from(self.number)
    }
}
