//! The items of a list, one after the other.

ghost use Rattle.std.specs.Prelude.{◌≡◌, Bool, length, is_some};
ghost use Rattle.std.specs.Option.{ok_or};
ghost use Rattle.model.specs.ItemFormat.{decode_items, decode_list, take_items};
ghost use Rattle.records.specs.Cursor.{items_meaning, ItemStep, list_meaning};
ghost use Rattle.model.specs.declared.refusal.Refusal.TheVariants.{Malformed};
ghost use Rattle.std.specs.Iterator.{item_count};

use crate::item::{Item, split_item};
use model::numbers::MOST_ITEMS;
use model::refusal::Refusal;

/// The items that are still to come of a list; it is copied freely, and never allocates.
#[derive(Clone, Copy)]
pub struct Items<'a> {
    // A count of items beside the bytes: where the items end shows only when they are read.
    pub(crate) left: usize,
    pub(crate) bytes: &'a [u8],
}

impl<'a> Items<'a> {
    /// Reads an item list, a count and that many items: the part of a record behind its header.
    pub fn parse(bytes: &'a [u8]) -> Result<Items<'a>, Refusal>
        ensures { list_meaning result ≡ ok_or (decode_list bytes.now) Malformed }
    {
        let (count, bytes) = bytes.split_first().ok_or(Refusal::Malformed)?;
        let left = *count as usize;
        if (1..=MOST_ITEMS).contains(count) && well_formed(left, bytes) {
            Ok(Items { left, bytes })
        } else {
            Err(Refusal::Malformed)
        }
    }

    /// The items at the start of some bytes, as far as they can be read: so many at most.
    pub fn up_to(count: usize, bytes: &'a [u8]) -> Items<'a>
        ensures { items_meaning result ≡ take_items count bytes.now }
    {
        Items { left: count, bytes }
    }

    /// How many items are still to come.
    pub fn len(self) -> usize
        ensures { result ≡ length (items_meaning self.entry) }
    {
        self.count()
    }

    /// Takes the next item off, where there is one.
    pub fn next_item(&mut self) -> Option<Item<'a>>
        ensures { ItemStep self.old result self.new }
    {
        if self.left == 0 {
            return None;
        }
        let (item, rest) = split_item(self.bytes)?;
        self.left -= 1;
        self.bytes = rest;
        Some(item)
    }
}

/// Whether the bytes are exactly so many items.
fn well_formed(count: usize, bytes: &[u8]) -> bool
    ensures { result ≡ is_some (decode_items count bytes.now) }
{
    let mut rest = bytes;
    // A `for` over the turns: after a walk of a cursor both what it has left and its bytes would have to be tested.
    for _item in 0..count {
        let Some((_, after)) = split_item(rest) else {
            return false;
        };
        rest = after;
    }
    rest.is_empty()
}

impl<'a> Iterator for Items<'a> {
    type Item = Item<'a>;

    // More than `YieldsFirstBy` of the library says: at the end the cursor stays as it is.
    ghost next_gives = { ItemStep };

    ghost remaining = { item_count items_meaning };

    fn next(&mut self) -> Option<Item<'a>> {
        self.next_item()
    }
}
