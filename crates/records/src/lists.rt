//! Item lists put into a buffer, from whatever yields the items.

ghost use Rattle.std.specs.Prelude.{◌≡◌, List, if◌then◌else◌};
ghost use Rattle.std.specs.Iterator.{AlwaysYields, IsFinite};
ghost use Rattle.model.specs.Bytes.{splice, placed};
ghost use Rattle.model.specs.Items.{Item as PlainItem};
ghost use Rattle.model.specs.ItemFormat.{encode_items, encode_list, is_list, list_size};
ghost use Rattle.records.specs.Meaning.{item_meaning};
ghost use Rattle.records.specs.Cursor.{items_meaning};
ghost use Rattle.records.specs.Extents.{list_extent, ItemsFit};

use crate::item::Item;
use crate::items::Items;
use crate::writer::{item_size, put, put_item};
use model::numbers::MOST_ITEMS;
use model::range::fits;

/// How much an item list takes in a record.
#[derive(Clone, Copy)]
pub(crate) struct Extent {
    /// Its items.
    pub(crate) count: u8,
    /// Its bytes, the count among them.
    pub(crate) size: usize,
}

/// How many bytes the items to come take as a list in a record; none where no record holds them.
pub fn list_size(items: Items<'_>) -> Option<usize>
    ensures { result ≡ list_size (items_meaning items.entry) }
{
    list_extent(items).map(|extent| extent.size)
}

/// Puts the items to come as a list, the count first, into a buffer from a place on;
/// where no record holds them, or they do not fit, the buffer stays as it is.
// A buffer and a place, as in `put`.
pub fn put_list(buffer: &mut [u8], at: usize, items: Items<'_>)
    ensures { buffer.new ≡ (if is_list (items_meaning items.entry) then placed buffer.old at (encode_list (items_meaning items.entry)) else buffer.old) }
{
    let Some(extent) = list_extent(items) else {
        return;
    };
    if fits(buffer.len(), at, extent.size) {
        put(buffer, at, &[extent.count]);
        put_items(buffer, at + 1, items);
    }
}

/// How much items take as a list in a record; none where no record holds them.
pub(crate) fn list_extent<'a, I: Iterator<Item = Item<'a>>>(items: I) -> Option<Extent>
    requires can { I.can_next items }
    requires ends { IsFinite (I.remaining items) }
    ensures { (is : List PlainItem) → AlwaysYields I.next_gives item_meaning items is → result ≡ list_extent is }
{
    // The count is half of the answer: a fold over both would have to name them as a pair.
    let mut count = 0;
    let mut size = 1;
    for item in items {
        if count == MOST_ITEMS {
            return None;
        }
        size += item_size(&item)?;
        count += 1;
    }
    if count == 0 {
        None
    } else {
        Some(Extent { count, size })
    }
}

/// Puts items one behind the other.
// A buffer and a place, as in `put`.
pub(crate) fn put_items<'a, I: Iterator<Item = Item<'a>>>(buffer: &mut [u8], at: usize, items: I)
    requires can { I.can_next items }
    requires ends { IsFinite (I.remaining items) }
    requires in_bounds { ItemsFit I.next_gives items at buffer.old }
    ensures { (is : List PlainItem) → AlwaysYields I.next_gives item_meaning items is → buffer.new ≡ splice buffer.old at (encode_items is) }
{
    let mut end = at;
    for item in items {
        end = put_item(buffer, end, &item);
    }
}
