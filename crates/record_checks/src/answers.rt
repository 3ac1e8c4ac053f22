//! What the tests ask of a reader's answer, and of a record with one byte changed.

use model::refusal::Refusal;

/// 0 where the answer is a value, else the refusal's number.
// A number: in tables of some hundred cases 0 and 1 read better than Ok(()) and Err(Refusal::Malformed).
pub(crate) fn number_of<T: Drop>(answer: Result<T, Refusal>) -> u8 {
    match answer {
        Ok(_) => 0,
        Err(refusal) => u8::from(refusal),
    }
}

/// A record with one byte changed, where it has that byte.
pub(crate) fn changed<const N: usize>(mut record: [u8; N], place: usize, value: u8) -> [u8; N] {
    if let Some(byte) = record.get_mut(place) {
        *byte = value;
    }
    record
}
