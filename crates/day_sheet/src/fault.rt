ghost use Rattle.std.specs.Prelude.{◌≡◌, ◌+◌, ◌^◌, ◌<◌};
ghost use Rattle.day_sheet.specs.Faults.{fault_of, later, place_in};

use terms::refusal::Refusal;

// Which layer of the reading met the fault.
#[derive(Clone, Copy, PartialEq, Eq, Debug)]
pub enum Layer {
    Groups,
    Record,
}

// Where reading stopped: records count from 1, places from 0.
#[derive(Clone, Copy, PartialEq, Eq, Debug)]
pub struct Fault {
    pub record: usize,
    pub place: usize,
    pub why: Refusal,
    pub layer: Layer,
}

// What is at fault in a record: the record itself, or the number at a place after its letter's.
#[derive(Clone, Copy, PartialEq, Eq, Debug)]
pub enum Stop {
    Record,
    Number(usize),
}

impl Stop {
    // The same fault, counted from so many bytes before.
    pub(crate) fn later(self, by: usize) -> Stop
        requires { by + place_in self < 2 ^ 64 }
        ensures { result ≡ later by self }
    {
        match self {
            Stop::Record => Stop::Record,
            Stop::Number(at) => Stop::Number(by + at),
        }
    }

    // The fault of the record of this number at this place.
    pub(crate) fn fault(self, record: usize, place: usize) -> Fault
        requires { place + place_in self < 2 ^ 64 }
        ensures { result ≡ fault_of «record» place self }
    {
        match self {
            Stop::Record => Fault {
                record,
                place,
                why: Refusal::BadRecord,
                layer: Layer::Record,
            },
            Stop::Number(at) => Fault {
                record,
                place: place + at,
                why: Refusal::BadNumber,
                layer: Layer::Groups,
            },
        }
    }
}
