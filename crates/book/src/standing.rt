use rules::auction::{Terms, TicketName};

// The standing auction, without its bids.
#[derive(Clone, Copy)]
pub struct Standing {
    pub ticket: TicketName,
    pub terms: Terms,
}
