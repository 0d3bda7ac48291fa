// Reads a day sheet from standard input and prints its records as text, one to a line, and its fault in words.
#![tactic(auto)]

mod text;

use day_sheet::reader::Reader;
use std::io;
use std::io::Read;
use text::{Meaning, Shown};

fn main(rt: HostRuntime) -> io::Result<()> {
    let mut sheet = Vec::new(rt.alloc());
    rt.stdin().read_to_end(&mut sheet)?;
    for read in Reader::new(sheet.as_slice()) {
        match read {
            Ok(placed) => println!(rt;
                "{} @{} {}",
                placed.number,
                placed.place,
                Shown(placed.record)
            )?,
            Err(fault) => println!(rt;
                "fault {} in record {} at byte {}: {}",
                fault.why.number(),
                fault.record,
                fault.place,
                Meaning(fault)
            )?,
        }
    }
    Ok(())
}
