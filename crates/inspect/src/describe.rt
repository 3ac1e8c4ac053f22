//! What is said of one line.

ghost use Rattle.std.specs.Prelude.{◌≡◌, ◌++◌, is_some, IfOk, string_bytes, OnOk};
ghost use Rattle.model.specs.Requests.{decode_request};
ghost use Rattle.model.specs.MessageFormat.{decode_message};
ghost use Rattle.inspect.specs.Words.{maybe_text, request_text, message_text, record_text, refused_text, line_text};

use crate::again::{Again, message_again, request_again};
use crate::items::ItemLines;
use crate::words::MessageLines;
use messages::reader::read_message;
use model::refusal::Refusal;
use records::request::read_request;
use std::alloc::Global;
use std::fmt;
use text::hex::read_hex;
use text::line::without_last;

/// What is said of a line without its end: a carriage return that it ends with is dropped.
pub(crate) fn describe(heap: Global, line: &[u8]) -> anyhow::Result<String>
    ensures { IfOk result (λ said. string_bytes said ≡ line_text line.now) }
{
    let digits = without_last(line, b'\r');
    let mut out = String::new(heap);
    match read_hex(heap, digits)? {
        Some(bytes) => say_record(heap, &mut out, bytes.as_slice())?,
        None => say_refusal(&mut out)?,
    }
    Ok(out)
}

/// The bytes as a request, as a message, or as both; or that they are neither.
fn say_record(heap: Global, out: &mut String, bytes: &[u8]) -> anyhow::Result<()>
    ensures { OnOk result (string_bytes out.new ≡ string_bytes out.old ++ record_text (decode_request bytes.now) (decode_message bytes.now)) }
{
    let is_request = say_request(heap, out, bytes)?;
    let is_message = say_message(out, bytes)?;
    if !is_request && !is_message {
        say_refusal(out)?;
    }
    Ok(())
}

/// The number of the refusal of what is no record.
fn say_refusal(out: &mut String) -> fmt::Result
    ensures { OnOk result (string_bytes out.new ≡ string_bytes out.old ++ refused_text) }
{
    writeln!(out, "{}", Refusal::Malformed)?;
    Ok(())
}

/// The bytes as a request, and whether they are one.
fn say_request(heap: Global, out: &mut String, bytes: &[u8]) -> anyhow::Result<bool>
    ensures { IfOk result (λ is. (is ≡ is_some (decode_request bytes.now)) × (string_bytes out.new ≡ string_bytes out.old ++ maybe_text request_text (decode_request bytes.now))) }
{
    let Ok(items) = read_request(bytes) else {
        return Ok(false);
    };
    writeln!(out, "request, items: {}", items.len())?;
    // Where memory ends in the text of these lines, `main` ends with the text of `fmt::Error`.
    write!(out, "{}", ItemLines(items)).map_err(fmt::Error::from)?;
    let again = Again(request_again(heap, items, bytes)?);
    write!(out, "{again}").map_err(fmt::Error::from)?;
    Ok(true)
}

/// The bytes as a message, and whether they are one.
fn say_message(out: &mut String, bytes: &[u8]) -> Result<bool, fmt::Error>
    ensures { IfOk result (λ is. (is ≡ is_some (decode_message bytes.now)) × (string_bytes out.new ≡ string_bytes out.old ++ maybe_text message_text (decode_message bytes.now))) }
{
    let Ok(message) = read_message(bytes) else {
        return Ok(false);
    };
    let again = Again(message_again(&message, bytes));
    write!(out, "{}{again}", MessageLines(message))?;
    Ok(true)
}
