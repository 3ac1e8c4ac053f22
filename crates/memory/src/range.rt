//! The answer to a call for a range, and the copies out of a range and into it.

ghost use Rattle.std.specs.Prelude.{◌≡◌, ◌+◌, length, is_ok, if◌then◌else◌, vec_len, nat_le};
ghost use Rattle.model.specs.Memory.{part, splice};
ghost use Rattle.memory.specs.Ranges.{answer_of, answer_within};

pub use model::range::fits;
use model::refusal::Refusal;

/// The answer to a call for `count` elements from `at` on among `len`.
pub fn check_range(len: usize, at: usize, count: usize) -> Result<(), Refusal>
    ensures { result ≡ answer_of (nat_le (at + count) len) }
{
    if fits(len, at, count) {
        Ok(())
    } else {
        Err(Refusal::OutOfRange)
    }
}

/// Copies the bytes from an address on into a buffer, as many as it holds.
pub(crate) fn read_range(content: &[u8], at: usize, out: &mut [u8]) -> Result<(), Refusal>
    ensures answer { result ≡ answer_within content.now at (length out.old) }
    ensures copied { out.new ≡ (if is_ok result then part content.now at (length out.old) else out.old) }
{
    check_range(content.len(), at, out.len())?;
    out.copy_from_slice(&content[at..at + out.len()]);
    Ok(())
}

/// Copies bytes over those that stand from an address on.
pub(crate) fn write_range(content: &mut Vec<u8>, at: usize, from: &[u8]) -> Result<(), Refusal>
    ensures answer { result ≡ answer_within content.old.items at (length from.now) }
    ensures items { content.new.items ≡ (if is_ok result then splice content.old.items at from.now else content.old.items) }
    ensures len { vec_len content.new ≡ vec_len content.old }
{
    check_range(content.len(), at, from.len())?;
    content[at..at + from.len()].copy_from_slice(from);
    Ok(())
}
