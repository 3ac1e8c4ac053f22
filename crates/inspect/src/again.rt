//! What was read, written again and compared.

ghost use Rattle.std.specs.Prelude.{◌≡◌, true, IfOk, Some};
ghost use Rattle.model.specs.ItemFormat.{is_list};
ghost use Rattle.model.specs.Requests.{encode_request};
ghost use Rattle.model.specs.MessageFormat.{encode_message, is_body};
ghost use Rattle.records.specs.Cursor.{items_meaning};
ghost use Rattle.messages.specs.Meaning.{body_meaning, message_meaning};
ghost use Rattle.inspect.specs.Words.{again_text};

use messages::message::Message;
use messages::writer::write_message;
use records::item::Item;
use records::items::Items;
use records::request::write_request;
use std::alloc::{AllocError, Global};
use std::fmt;

/// Room for the longest record that a reader accepts.
const LONGEST: usize = 192;

/// Whether the items of a request, written again, have the bytes that they were read from.
pub(crate) fn request_again(
    heap: Global,
    items: Items<'_>,
    bytes: &[u8],
) -> Result<bool, AllocError>
    requires form { is_list (items_meaning items) ≡ true }
    requires bytes { encode_request (items_meaning items) ≡ bytes.now }
    ensures { IfOk result (λ same. same ≡ true) }
{
    let list: Vec<Item<'_>> = items.collect(heap)?;
    let mut buffer = [0u8; LONGEST];
    // By match: with is_ok_and the proof did not close, by search or by a split of the two cases.
    match write_request(&mut buffer, list.as_slice()) {
        Ok(length) => Ok(&buffer[..length] == bytes),
        Err(_) => Ok(false),
    }
}

/// Whether a message, written again, has the bytes that it was read from.
// Beside `request_again`: a request is written from a slice that has to be collected, a message from itself.
pub(crate) fn message_again(message: &Message<'_>, bytes: &[u8]) -> bool
    requires form { is_body (body_meaning message.now.body) ≡ true }
    requires bytes { encode_message (message_meaning message.now) ≡ bytes.now }
    ensures { result ≡ true }
{
    let mut buffer = [0u8; LONGEST];
    // By match: with is_ok_and the proof did not close, by search or by a split of the two cases.
    match write_message(&mut buffer, message) {
        Ok(length) => &buffer[..length] == bytes,
        Err(_) => false,
    }
}

/// Whether what was written again is what was read, a line.
#[derive(Clone, Copy)]
pub(crate) struct Again(pub(crate) bool);

impl fmt::Display for Again {
    ghost output = { λ same. Some (again_text same.0) };

    fn fmt<W: fmt::Write>(&self, f: &mut fmt::Formatter<W>) -> fmt::Result {
        f.write_str(if self.0 {
            "written again: the same bytes\n"
        } else {
            "written again: other bytes\n"
        })
    }
}
