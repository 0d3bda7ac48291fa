// The day sheet: a day's calls as a string of bytes, read and written record by record.
#![tactic(auto)]

pub mod check;
mod entry;
pub mod fault;
mod fields;
pub mod groups;
mod heads;
mod letter;
mod numbers;
mod parts;
pub mod reader;
mod reading;
pub mod record;
pub mod writer;

#[cfg(test)]
mod tests {
    use crate::check::check as check_sheet;
    use crate::fault::{Fault, Layer};
    use crate::record::Record;
    use crate::writer::Sheet;
    use std::test::Fail;
    use terms::refusal::Refusal;

    fn bad_number(record: usize, place: usize) -> Fault {
        Fault {
            record,
            place,
            why: Refusal::BadNumber,
            layer: Layer::Groups,
        }
    }

    fn bad_record(record: usize, place: usize) -> Fault {
        Fault {
            record,
            place,
            why: Refusal::BadRecord,
            layer: Layer::Record,
        }
    }

    #[test]
    fn damaged(rt: HostRuntime) {
        let table: [(&[u8], Fault); 12] = [
            (b"", bad_record(1, 0)),
            (b"I\x01\x05", bad_record(1, 0)),
            // a length that is missing, torn, overlong or past the end
            (b"S", bad_record(1, 0)),
            (b"S\x80", bad_number(1, 1)),
            (b"S\x82\x00\x01\x32", bad_number(1, 1)),
            (b"S\x03\x01\x32", bad_record(1, 0)),
            // a number that is missing or torn, and a torn holiday
            (b"S\x01\x01", bad_record(1, 0)),
            (b"S\x02\x01\x80", bad_number(1, 3)),
            (b"S\x03\x01\x32\xd0", bad_number(1, 4)),
            // after a whole record: bytes left over, a second S, a reference of 25 bytes
            (b"S\x02\x01\x32C\x01\x00", bad_record(2, 4)),
            (b"S\x02\x01\x32S\x02\x01\x32", bad_record(2, 4)),
            (
                b"S\x02\x01\x32B\x1c\x01\x01\x01abcdefghijklmnopqrstuvwxy",
                bad_record(2, 4),
            ),
        ];
        for (sheet, fault) in table {
            assert_eq!(rt; check_sheet(sheet), Err(fault));
        }
        assert_eq!(rt; check_sheet(&[0; 65_537]).is_err(), true);
    }

    #[test]
    fn written(rt: HostRuntime) -> Result<(), Fail> {
        let mut bytes = [0; 16];
        let mut sheet = Sheet {
            bytes: &mut bytes,
            used: 0,
        };
        assert_eq!(rt; sheet.append(Record::Seal), Err(Refusal::BadRecord));
        assert_eq!(rt; sheet.append_start(-1, 50, &[]), Err(Refusal::BadNumber));
        sheet.append_start(1, 50, &[210_000])?;
        sheet.append(Record::Bid {
            institution: 3,
            price: -10_000,
            millions: 7,
            reference: b"ab",
        })?;
        assert_eq!(rt;
            sheet.append(Record::Admit { institution: 1 }),
            Err(Refusal::WrongLength)
        );
        sheet.append(Record::Seal)?;
        assert_eq!(rt; sheet.used, 16);
        assert!(rt; bytes == *b"S\x05\x01\x32\xd0\xe8\x0cB\x05\x03\x00\x07abC\x00");
        assert_eq!(rt; check_sheet(&bytes), Ok(3));
        Ok(())
    }
}
