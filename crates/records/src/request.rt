//! The request: the record of the item list that opens a minitransaction.

ghost use Rattle.std.specs.Prelude.{◌≡◌, true, map, take, IfOk, Some};
ghost use Rattle.std.specs.Option.{ok_or};
ghost use Rattle.model.specs.ItemFormat.{is_list};
ghost use Rattle.model.specs.Requests.{decode_request, encode_request};
ghost use Rattle.model.specs.Written.{written};
ghost use Rattle.model.specs.declared.refusal.Refusal.TheVariants.{Malformed};
ghost use Rattle.records.specs.Meaning.{item_meaning};
ghost use Rattle.records.specs.Cursor.{items_meaning, list_meaning};

use crate::item::Item;
use crate::items::Items;
use crate::lists::{list_extent, put_items};
use crate::record::{CONTENT, is_record, record_head};
use crate::writer::put;
use model::refusal::Refusal;

/// Reads a request: the items stand in the record itself. Written again, they have the same bytes.
pub fn read_request<'a>(bytes: &'a [u8]) -> Result<Items<'a>, Refusal>
    ensures value { list_meaning result ≡ ok_or (decode_request bytes.now) Malformed }
    ensures again { IfOk result (λ items. (is_list (items_meaning items) ≡ true) × (encode_request (items_meaning items) ≡ bytes.now)) }
{
    if !is_record(bytes) {
        return Err(Refusal::Malformed);
    }
    Items::parse(&bytes[CONTENT..])
}

/// Writes a request at the start of a buffer, and gives its length; a refusal leaves every byte.
/// What was written reads back as the same items.
pub fn write_request(buffer: &mut [u8], items: &[Item<'_>]) -> Result<usize, Refusal>
    ensures value { (result, buffer.new) ≡ written (is_list (map item_meaning items.now)) (encode_request (map item_meaning items.now)) buffer.old }
    ensures back { IfOk result (λ n. decode_request (take n buffer.new) ≡ Some (map item_meaning items.now)) }
{
    let extent = list_extent(items.iter().copied()).ok_or(Refusal::Malformed)?;
    if buffer.len() < CONTENT + extent.size {
        return Err(Refusal::NoRoom);
    }
    put(buffer, 0, &record_head((1 + extent.size) as u16));
    put(buffer, CONTENT, &[extent.count]);
    put_items(buffer, CONTENT + 1, items.iter().copied());
    Ok(CONTENT + extent.size)
}
