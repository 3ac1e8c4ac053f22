//! What a node promises with a yes vote.

use records::item_set::ItemSet;

/// What a yes vote promises: to write these items if the minitransaction is committed.
#[derive(Clone, Copy)]
pub struct Promise {
    /// The minitransaction that is voted on.
    pub tid: u16,
    /// The nodes that take part, as bits, node 0 the lowest.
    pub participants: u8,
    /// The items to write if it is committed.
    pub writes: ItemSet,
}
