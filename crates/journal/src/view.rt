//! An entry as a journal shows it.

use model::outcome::Outcome;
use records::items::Items;

/// A yes vote with what it promised. Its items borrow the journal that shows it.
#[derive(Clone, Copy)]
pub struct EntryView<'a> {
    /// The entry's number in its journal.
    pub running: u16,
    /// The minitransaction that was voted on.
    pub tid: u16,
    /// The nodes that take part, as bits, node 0 the lowest.
    pub participants: u8,
    /// Whether it was committed or aborted, if that is known.
    pub outcome: Option<Outcome>,
    /// The items to write if it is committed.
    pub writes: Items<'a>,
}
