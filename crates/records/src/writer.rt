//! Items put into a buffer.

ghost use Rattle.std.specs.Prelude.{◌≡◌, ◌+◌, ◌≤◌, true, length, is_some, if◌then◌else◌, Some, None, nat_le};
ghost use Rattle.model.specs.Bytes.{splice, placed};
ghost use Rattle.model.specs.ItemFormat.{be16, encode_item, is_item};
ghost use Rattle.records.specs.Meaning.{item_meaning};
ghost use Rattle.records.specs.Extents.{has_room};

use crate::item::{FIELDS, Item};
use model::numbers::LONGEST_ITEM;
use model::range::fits;

/// Puts bytes into a buffer from a place on; where they do not fit, the buffer stays as it is.
// A buffer and a place: callers may put at any place, which a writer with a place of its own would not promise.
pub fn put(buffer: &mut [u8], at: usize, bytes: &[u8])
    ensures { buffer.new ≡ placed buffer.old at bytes.now }
{
    if fits(buffer.len(), at, bytes.len()) {
        buffer[at..at + bytes.len()].copy_from_slice(bytes);
    }
}

/// The two bytes of a number, the higher first.
// Beside to_be_bytes of the library: its clause says the bytes by the formats' own definition.
pub fn be_bytes(number: u16) -> [u8; 2]
    ensures { result ≡ be16 number }
{
    number.to_be_bytes()
}

/// Puts an item into a buffer from a place on, and gives the place behind it;
/// where no record holds the item, or it does not fit, there is no such place and the buffer stays as it is.
// A buffer and a place, as in `put`.
pub fn put_one(buffer: &mut [u8], at: usize, item: &Item<'_>) -> Option<usize>
    ensures end { result ≡ (if has_room buffer.old at (item_meaning item.now) then Some (at + length (encode_item (item_meaning item.now))) else None) }
    ensures bytes { buffer.new ≡ (if is_some result then splice buffer.old at (encode_item (item_meaning item.now)) else buffer.old) }
{
    let size = item_size(item)?;
    if !fits(buffer.len(), at, size) {
        return None;
    }
    Some(put_item(buffer, at, item))
}

/// How many bytes an item takes in a record; none where no record holds it.
pub(crate) fn item_size(item: &Item<'_>) -> Option<usize>
    ensures { result ≡ (if is_item (item_meaning item.now) then Some (length (encode_item (item_meaning item.now))) else None) }
{
    if (1..=LONGEST_ITEM as usize).contains(&item.span()) {
        Some(FIELDS + item.data().len())
    } else {
        None
    }
}

/// Puts an item, and gives the place behind it.
// A buffer and a place, as in `put`.
pub(crate) fn put_item(buffer: &mut [u8], at: usize, item: &Item<'_>) -> usize
    requires item_value { is_item (item_meaning item.now) ≡ true }
    requires item_in_bounds { at + length (encode_item (item_meaning item.now)) ≤ length buffer.old }
    ensures end { result ≡ at + length (encode_item (item_meaning item.now)) }
    ensures bytes { buffer.new ≡ splice buffer.old at (encode_item (item_meaning item.now)) }
{
    let [high, low] = be_bytes(item.address());
    let fields: [u8; FIELDS] = [
        u8::from(item.kind()),
        item.node(),
        high,
        low,
        item.span() as u8,
    ];
    put(buffer, at, &fields);
    let data = item.data();
    if data.is_empty() {
        return at + FIELDS;
    }
    put(buffer, at + FIELDS, data);
    at + FIELDS + data.len()
}
