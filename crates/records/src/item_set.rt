//! Items kept beside a record, as the bytes that a record has for them.

ghost use Rattle.std.specs.Prelude.{◌≡◌, take};
ghost use Rattle.model.specs.Lists.{only};
ghost use Rattle.model.specs.Numbers.{most_items};
ghost use Rattle.records.specs.Cursor.{items_meaning};
ghost use Rattle.records.specs.ItemSets.{selected, set_items};
ghost use Rattle.records.specs.Meaning.{item_meaning};

use crate::item::Item;
use crate::items::Items;
use crate::writer::put_one;
use model::numbers::MOST_ITEMS;

/// The bytes that the items of one list take at most: eight times five bytes of fields and sixteen of data.
pub const ITEM_SET_BYTES: usize = 168;

/// Which items of a list are kept.
// A value, not a closure: what is kept is then an equation that clauses and proofs can name.
#[derive(Clone, Copy, PartialEq, Eq, Debug)]
pub enum Selection {
    /// Every item.
    All,
    /// Those that put bytes.
    Writes,
    /// Those of one node.
    OfNode(u8),
}

impl Selection {
    /// Whether an item is among them.
    pub fn takes(self, item: &Item<'_>) -> bool
        ensures { result ≡ selected self (item_meaning item.now) }
    {
        match self {
            Selection::All => true,
            Selection::Writes => item.is_write(),
            Selection::OfNode(node) => item.node() == node,
        }
    }
}

/// Up to eight items. It is copied freely, and takes the same room whatever it holds.
// A count beside bytes of fixed size: nothing here may allocate, and the set is copied.
#[derive(Clone, Copy)]
pub struct ItemSet {
    /// How many items it holds.
    pub count: u8,
    /// The items, one behind the other; what stands behind them says nothing.
    pub bytes: [u8; ITEM_SET_BYTES],
}

impl ItemSet {
    /// The selected items of a list, in item order: the first eight of them. (No record holds more.)
    pub fn of(items: Items<'_>, selection: Selection) -> ItemSet
        ensures { set_items result ≡ take most_items (only (selected selection) (items_meaning items.entry)) }
    {
        // The count is a field of the answer, and `end` moves by the size of each item: no index is counted.
        let mut count = 0;
        let mut end = 0;
        let mut bytes = [0; ITEM_SET_BYTES];
        for item in items {
            if !selection.takes(&item) {
                continue;
            }
            if count == MOST_ITEMS {
                break;
            }
            let Some(next) = put_one(&mut bytes, end, &item) else {
                continue;
            };
            end = next;
            count += 1;
        }
        ItemSet { count, bytes }
    }

    /// The items, one after the other; their data are the bytes kept here.
    pub fn items(&self) -> Items<'_>
        ensures { items_meaning result ≡ set_items self.now }
    {
        Items::up_to(self.count as usize, &self.bytes)
    }
}
