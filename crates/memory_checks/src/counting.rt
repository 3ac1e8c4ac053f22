//! A memory of this crate's own, which nothing else knows of: the trait's clauses are all that it proves.

ghost use Rattle.std.specs.Prelude.{◌≡◌};

use memory::Memory;
use model::refusal::Refusal;

/// Another memory, with a count of its flushes.
#[derive(Drop)]
pub struct CountingMemory<M: Memory> {
    below: M,
    flushes: u32,
}

impl<M: Memory> CountingMemory<M> {
    /// A memory that counts the flushes of another.
    pub fn new(below: M) -> CountingMemory<M>
        ensures below { result.below ≡ below }
        ensures flushes { result.flushes ≡ 0 }
    {
        CountingMemory { below, flushes: 0 }
    }

    /// How often the memory was flushed.
    pub fn flushes(&self) -> u32
        ensures { result ≡ self.now.flushes }
    {
        self.flushes
    }
}

impl<M: Memory> Memory for CountingMemory<M> {
    ghost bytes = { λ m. M.Memory.bytes m.below };

    ghost durable = { λ m. M.Memory.durable m.below };

    fn len(&self) -> usize {
        self.below.len()
    }

    fn read(&self, at: usize, out: &mut [u8]) -> Result<(), Refusal> {
        self.below.read(at, out)
    }

    fn write(&mut self, at: usize, from: &[u8]) -> Result<(), Refusal> {
        self.below.write(at, from)
    }

    fn flush(&mut self) {
        self.flushes = self.flushes.wrapping_add(1);
        self.below.flush();
    }

    fn restart(&mut self) {
        self.below.restart();
    }
}
