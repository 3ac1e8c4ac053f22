//! The line buffer as a memory.

ghost use Rattle.std.specs.Prelude.{◌≡◌, ℕ, ◌≤◌, true, false, [], length, is_ok, IfOk, IfErr, if◌then◌else◌};
ghost use Rattle.model.specs.Memory.{splice, AllDurable, Kept, Survived};
ghost use Rattle.memory.specs.Ranges.{answer_within};
ghost use Rattle.line_buffer.specs.Lines.{most_lines};
ghost use Rattle.line_buffer.specs.Held.{shown, lasting, lines_wanted, WritesBack};

use crate::buffer::LineBuffer;
use crate::lines::HeldLines;
use memory::Memory;
use memory::range::check_range;
use model::refusal::Refusal;
use std::alloc::{AllocFailed, Global};

impl<M: Memory> LineBuffer<M> {
    /// A buffer that holds nothing yet; without memory for its lines the memory below is given back.
    pub fn new(heap: Global, below: M) -> Result<LineBuffer<M>, AllocFailed<M>>
        ensures made { IfOk result (λ b. (b.below ≡ below) × (b.held.lines.items ≡ [])) }
        ensures refused { IfErr result (λ e. e.value ≡ below) }
    {
        // By match: `map` and `map_err` would both take the memory below.
        match HeldLines::new(heap) {
            Ok(held) => Ok(LineBuffer { below, held }),
            Err(_) => Err(AllocFailed { value: below }),
        }
    }

    /// The memory below, as it is without the held lines.
    pub fn below(&self) -> &M
        ensures { result.now ≡ self.now.below }
    {
        &self.below
    }
}

impl<M: Memory> Memory for LineBuffer<M> {
    // The bytes below with the held ones laid over them.
    ghost bytes = { λ m. shown m.held (M.Memory.bytes m.below) };

    // Durable below, and not written and held.
    ghost durable = { λ m. lasting m.held (M.Memory.durable m.below) };

    fn len(&self) -> usize {
        self.below.len()
    }

    fn read(&self, at: usize, out: &mut [u8]) -> Result<(), Refusal> {
        self.below.read(at, out)?;
        self.held.overlay(at, out);
        Ok(())
    }

    /// Holds the bytes; lines go back only where more than eight are wanted.
    fn write(&mut self, at: usize, from: &[u8]) -> Result<(), Refusal>
        ensures answer { result ≡ answer_within (shown self.old.held (M.Memory.bytes self.old.below)) at (length from.now) }
        ensures bytes { shown self.new.held (M.Memory.bytes self.new.below) ≡ (if is_ok result then splice (shown self.old.held (M.Memory.bytes self.old.below)) at from.now else shown self.old.held (M.Memory.bytes self.old.below)) }
        ensures kept { Kept (lasting self.old.held (M.Memory.durable self.old.below)) (lasting self.new.held (M.Memory.durable self.new.below)) at (length from.now) }
        ensures refused { is_ok result ≡ false → (k : ℕ) → (lasting self.new.held (M.Memory.durable self.new.below)) k ≡ (lasting self.old.held (M.Memory.durable self.old.below)) k }
        ensures lazy { is_ok result ≡ true → lines_wanted self.old.held at (length from.now) ≤ most_lines → self.new.below ≡ self.old.below }
        ensures back { is_ok result ≡ true → WritesBack self.old.held (M.Memory.bytes self.old.below) at from.now self.new.held (M.Memory.bytes self.new.below) }
        ensures untouched { is_ok result ≡ false → (self.new.below ≡ self.old.below) × (self.new.held.lines.items ≡ self.old.held.lines.items) }
    {
        check_range(self.len(), at, from.len())?;
        self.put_all(at, from);
        Ok(())
    }

    /// Writes all held lines back and flushes the memory below.
    fn flush(&mut self)
        ensures bytes { shown self.new.held (M.Memory.bytes self.new.below) ≡ shown self.old.held (M.Memory.bytes self.old.below) }
        ensures durable { AllDurable (lasting self.new.held (M.Memory.durable self.new.below)) }
        ensures lines { self.new.held.lines.items ≡ [] }
        ensures below { (M.Memory.bytes self.new.below) ≡ shown self.old.held (M.Memory.bytes self.old.below) }
    {
        self.drain();
        self.below.flush();
    }

    /// Forgets the held lines, which power kept, and restarts the memory below.
    fn restart(&mut self)
        ensures survived { Survived (shown self.old.held (M.Memory.bytes self.old.below)) (lasting self.old.held (M.Memory.durable self.old.below)) (shown self.new.held (M.Memory.bytes self.new.below)) }
        ensures durable { AllDurable (lasting self.new.held (M.Memory.durable self.new.below)) }
        ensures lines { self.new.held.lines.items ≡ [] }
        ensures below { Survived (M.Memory.bytes self.old.below) (M.Memory.durable self.old.below) (M.Memory.bytes self.new.below) }
    {
        self.forget();
        self.below.restart();
    }
}
