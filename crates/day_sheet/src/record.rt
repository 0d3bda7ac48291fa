// A run of numbers as a sheet spells them.
#[derive(Clone, Copy)]
pub struct Numbers<'a> {
    pub(crate) bytes: &'a [u8],
}

// A call of the day. What it borrows is a part of the sheet.
#[derive(Clone, Copy)]
pub enum Record<'a> {
    Start {
        day: i64,
        percent: i64,
        holidays: Numbers<'a>,
    },
    Admit {
        institution: i64,
    },
    Announce {
        kind: i64,
        offer: i64,
        cap: i64,
        maturity: i64,
    },
    Bid {
        institution: i64,
        price: i64,
        millions: i64,
        reference: &'a [u8],
    },
    Seal,
    Publish,
    Void,
    Fix {
        day: i64,
        rate: i64,
    },
    Lodge {
        institution: i64,
        centavos: i64,
    },
    Release {
        institution: i64,
        centavos: i64,
    },
    Terminate {
        hedge: i64,
    },
}
