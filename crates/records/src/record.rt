//! What every record begins with: a length that counts the bytes after it, and the version.

ghost use Rattle.std.specs.Prelude.{◌≡◌, [], ◌∷◌, ◌++◌};
ghost use Rattle.model.specs.ItemFormat.{be16};
ghost use Rattle.model.specs.Requests.{is_record, version};

use crate::writer::be_bytes;

/// The version byte of every record.
pub const VERSION: u8 = 1;
/// Where the content of a record begins, behind its length and version.
pub const CONTENT: usize = 3;

/// Whether the bytes are one whole record, as far as its length and version say.
pub fn is_record(bytes: &[u8]) -> bool
    ensures { result ≡ is_record bytes.now }
{
    match bytes {
        [high, low, VERSION, ..] => u16::from_be_bytes([*high, *low]) as usize + 2 == bytes.len(),
        _ => false,
    }
}

/// The bytes before a record's content, whose length counts the version and the content.
pub fn record_head(length: u16) -> [u8; CONTENT]
    ensures { result ≡ be16 length ++ (version ∷ []) }
{
    let [high, low] = be_bytes(length);
    [high, low, VERSION]
}
