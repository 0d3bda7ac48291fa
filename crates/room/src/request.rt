use rules::call::Call;

// What a caller says: a call with its ticket named, or one with the ticket in hand.
#[derive(Clone, Copy)]
pub enum Request {
    Named(Call),
    Bid {
        institution: i64,
        price: i64,
        millions: i64,
    },
    Seal,
    Publish,
    Void,
}
