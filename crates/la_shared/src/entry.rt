use la_acceptor::Reply;
use la_set::UpdateSet;

/// An entry of an acceptor's history: an offer that was answered. Contracts speak of it; no value
/// of it is made.
pub struct Entry {
    /// The number of the pass that made the offer.
    pub number: u64,
    /// The offered set.
    pub set: UpdateSet,
    /// What the acceptor replied.
    pub reply: Reply,
}
