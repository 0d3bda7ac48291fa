// Rules that share the last dollars of an auction among bids at one price.
#![tactic(auto)]

pub mod by_receipt;
mod check;
pub mod pro_rata;
pub mod rule;

#[cfg(test)]
mod tests {
    use crate::by_receipt::ByReceipt;
    use crate::pro_rata::ProRata;
    use crate::rule::TieRule;
    use std::test::Fail;
    use terms::refusal::Refusal;

    #[test]
    fn shares(rt: HostRuntime) -> Result<(), Fail> {
        // amounts, dollars left, the shares pro rata, the shares by receipt
        let table = [
            ([1, 1, 1], 2, [1, 1, 0], [1, 1, 0]),
            ([5, 3, 4], 6, [3, 1, 2], [5, 1, 0]),
            ([10, 20, 30], 10, [2, 3, 5], [10, 0, 0]),
            (
                [2_000_000_000, 1, 1],
                2_000_000_000,
                [1_999_999_999, 1, 0],
                [2_000_000_000, 0, 0],
            ),
        ];
        for (amounts, left, pro_rata, by_receipt) in table {
            let mut shares = [0, 0, 0];
            ProRata.share(&amounts, left, &mut shares)?;
            assert!(rt; shares == pro_rata);
            ByReceipt.share(&amounts, left, &mut shares)?;
            assert!(rt; shares == by_receipt);
        }
        Ok(())
    }

    #[test]
    fn refusals(rt: HostRuntime) {
        let table: [(&[u32], u32, Refusal); 6] = [
            (&[1; 65], 0, Refusal::WrongLength),
            (&[0, 1, 1], 0, Refusal::WrongLength),
            (&[0, 1], 1, Refusal::AmountOutOfRange),
            (&[2_000_000_001, 1], 1, Refusal::AmountOutOfRange),
            (&[1, 1], 0, Refusal::AmountOutOfRange),
            (&[1, 1], 2, Refusal::AmountOutOfRange),
        ];
        for (amounts, left, refusal) in table {
            let mut shares = [7, 7];
            assert_eq!(rt; ProRata.share(amounts, left, &mut shares), Err(refusal));
            assert_eq!(rt; ByReceipt.share(amounts, left, &mut shares), Err(refusal));
            assert!(rt; shares == [7, 7]);
        }
    }
}
