// Records as text: dates as dates, rates and money in pesos.
use day_sheet::fault::{Fault, Layer};
use day_sheet::record::{Numbers, Record};
use std::fmt;
use terms::calendar::Date;

// A day by its date, or by its number where the calendar does not have it.
#[derive(Clone, Copy)]
pub struct Day(pub i64);

impl fmt::Display for Day {
    fn fmt<W: fmt::Write>(&self, f: &mut fmt::Formatter<W>) -> fmt::Result {
        match Date::of_day(self.0) {
            Ok(Date { year, month, day }) => write!(f, "{year}-{month:02}-{day:02}"),
            Err(_) => write!(f, "day-{}", self.0),
        }
    }
}

fn sign(number: i64) -> &'static str {
    if number < 0 { "-" } else { "" }
}

// Centavos, as pesos.
#[derive(Clone, Copy)]
pub struct Pesos(pub i64);

impl fmt::Display for Pesos {
    fn fmt<W: fmt::Write>(&self, f: &mut fmt::Formatter<W>) -> fmt::Result {
        let size = self.0.unsigned_abs();
        write!(f, "{}{}.{:02}", sign(self.0), size / 100, size % 100)
    }
}

// Ten-thousandths of a peso per dollar, as pesos.
#[derive(Clone, Copy)]
pub struct Rate(pub i64);

impl fmt::Display for Rate {
    fn fmt<W: fmt::Write>(&self, f: &mut fmt::Formatter<W>) -> fmt::Result {
        let size = self.0.unsigned_abs();
        write!(f, "{}{}.{:04}", sign(self.0), size / 10_000, size % 10_000)
    }
}

// Bytes in hexadecimal, or `-` for none.
#[derive(Clone, Copy)]
pub struct Hex<'a>(pub &'a [u8]);

impl<'a> fmt::Display for Hex<'a> {
    fn fmt<W: fmt::Write>(&self, f: &mut fmt::Formatter<W>) -> fmt::Result {
        if self.0.is_empty() {
            return write!(f, "-");
        }
        for byte in self.0 {
            write!(f, "{byte:02X}")?;
        }
        Ok(())
    }
}

// A run of days, a space before each.
#[derive(Clone, Copy)]
pub struct Days<'a>(pub Numbers<'a>);

impl<'a> fmt::Display for Days<'a> {
    fn fmt<W: fmt::Write>(&self, f: &mut fmt::Formatter<W>) -> fmt::Result {
        for day in self.0 {
            write!(f, " {}", Day(day))?;
        }
        Ok(())
    }
}

// A record as a line of text.
#[derive(Clone, Copy)]
pub struct Shown<'a>(pub Record<'a>);

impl<'a> fmt::Display for Shown<'a> {
    fn fmt<W: fmt::Write>(&self, f: &mut fmt::Formatter<W>) -> fmt::Result {
        match self.0 {
            Record::Start {
                day,
                percent,
                holidays,
            } => write!(f, "start {} part {percent}{}", Day(day), Days(holidays)),
            Record::Admit { institution } => write!(f, "admit {institution}"),
            Record::Announce {
                kind,
                offer,
                cap,
                maturity,
            } => write!(
                f,
                "announce kind {kind} offer {offer} cap {cap} maturity {}",
                Day(maturity)
            ),
            Record::Bid {
                institution,
                price,
                millions,
                reference,
            } => show_bid(institution, price, millions, reference, f),
            Record::Seal => write!(f, "seal"),
            Record::Publish => write!(f, "publish"),
            Record::Void => write!(f, "void"),
            Record::Fix { day, rate } => write!(f, "fix {} rate {}", Day(day), Rate(rate)),
            Record::Lodge {
                institution,
                centavos,
            } => write!(f, "lodge {institution} pesos {}", Pesos(centavos)),
            Record::Release {
                institution,
                centavos,
            } => write!(f, "release {institution} pesos {}", Pesos(centavos)),
            Record::Terminate { hedge } => write!(f, "terminate {hedge}"),
        }
    }
}

fn show_bid<W: fmt::Write>(
    institution: i64,
    price: i64,
    millions: i64,
    reference: &[u8],
    f: &mut fmt::Formatter<W>,
) -> fmt::Result {
    write!(
        f,
        "bid {institution} price {} millions {millions} reference {}",
        Rate(price),
        Hex(reference)
    )
}

// What a fault means.
#[derive(Clone, Copy)]
pub struct Meaning(pub Fault);

impl fmt::Display for Meaning {
    fn fmt<W: fmt::Write>(&self, f: &mut fmt::Formatter<W>) -> fmt::Result {
        f.write_str(match (self.0.record, self.0.layer) {
            (0, _) => "the sheet has more than 65,536 bytes",
            (_, Layer::Groups) => "a number is broken, or ends too early",
            (_, Layer::Record) =>
                "no such record: its letter, its place, its length or its fields are wrong",
        })
    }
}
