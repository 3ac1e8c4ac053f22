//! The minitransactions in doubt at a node, in a table of fixed size.

ghost use Rattle.std.specs.Prelude.{◌≡◌};
ghost use Rattle.model.specs.Lists.{some};
ghost use Rattle.model.specs.Node.{Doubt as PlainDoubt};
ghost use Rattle.model.specs.Ranges.{clashing};
ghost use Rattle.records.specs.Cursor.{items_meaning};
ghost use Rattle.nodes.specs.Tables.{doubts_meaning};

use crate::locks::lists_clash;
use crate::table::{Row, Table};
use journal::search::Numbered;
use records::item_set::{ITEM_SET_BYTES, ItemSet};
use records::items::Items;

/// A minitransaction in doubt: voted yes here, not yet finished here, power not lost since.
// Not a Promise, which keeps the writes alone: this keeps all items.
#[derive(Clone, Copy)]
pub struct Doubt {
    /// The minitransaction.
    pub tid: u16,
    /// The nodes that take part, as bits, node 0 the lowest.
    pub participants: u8,
    /// All items of its prepare: as long as it is in doubt they are locked.
    pub items: ItemSet,
}

/// A minitransaction in doubt is looked up by its tid.
impl Numbered for Doubt {
    ghost numbered = { λ d. d.tid };

    fn number(&self) -> u16 {
        self.tid
    }
}

impl Row for Doubt {
    const VACANT: Doubt = Doubt {
        tid: 0,
        participants: 0,
        items: ItemSet {
            count: 0,
            bytes: [0; ITEM_SET_BYTES],
        },
    };
}

/// Those in doubt, in the order of their votes.
pub type Doubts = Table<Doubt>;

impl Table<Doubt> {
    /// Whether an item clashes with one of those in doubt.
    pub fn lock(&self, items: Items<'_>) -> bool
        ensures { result ≡ some (λ (d : PlainDoubt). clashing d.items (items_meaning items.entry)) (doubts_meaning self.now) }
    {
        self.standing()
            .iter()
            .any(|doubt| lists_clash(doubt.items.items(), items))
    }
}
