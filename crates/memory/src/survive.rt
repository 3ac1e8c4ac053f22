//! What the contract of [`Memory`] is good for, proved once for every memory.

ghost use Rattle.std.specs.Prelude.{◌≡◌, ℕ, true, false, ◌&&◌, length, is_ok, if◌then◌else◌};
ghost use Rattle.model.specs.Memory.{within, part, splice, AllDurable};
ghost use Rattle.memory.specs.Ranges.{answer_of};

use crate::Memory;
use crate::range::check_range;
use model::refusal::Refusal;

/// Writes bytes, flushes, goes through a loss of power and reads back from the same address: the bytes are there.
pub fn write_and_survive<M: Memory>(
    memory: &mut M,
    at: usize,
    from: &[u8],
    out: &mut [u8],
) -> Result<(), Refusal>
    ensures answer { result ≡ answer_of (within (M.bytes memory.old) at (length from.now) && within (M.bytes memory.old) at (length out.old)) }
    ensures bytes { M.bytes memory.new ≡ (if is_ok result then splice (M.bytes memory.old) at from.now else M.bytes memory.old) }
    ensures durable { is_ok result ≡ true → AllDurable (M.durable memory.new) }
    ensures copied { out.new ≡ (if is_ok result then part (M.bytes memory.new) at (length out.old) else out.old) }
    ensures survived { is_ok result ≡ true → length out.old ≡ length from.now → out.new ≡ from.now }
    ensures refused { is_ok result ≡ false → (k : ℕ) → M.durable memory.new k ≡ M.durable memory.old k }
{
    check_range(memory.len(), at, out.len())?;
    memory.write(at, from)?;
    memory.flush();
    memory.restart();
    memory.read(at, out)
}
