//! Exchanges that are over.

use crate::fed_items::FedItem;
use repo_session::{Emission, Letter};

/// An exchange that is over: the request, the place of its reply among those to the client, and what had been given out
/// on the exchange before it, and the items that had been taken on that one, the oldest first. (What was given out on the
/// newest one the client still lends, and the seat has the items taken on it.)
#[derive(Drop)]
pub struct Past {
    pub letter: Letter,
    pub reply: usize,
    pub before: Vec<Emission>,
    pub fed: Vec<FedItem>,
}
