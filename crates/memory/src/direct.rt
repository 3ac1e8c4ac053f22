//! A memory that is always durable.

ghost use Rattle.std.specs.Prelude.{◌≡◌, ◌≤◌, true, vec_len};
ghost use Rattle.model.specs.Numbers.{most_bytes};
ghost use Rattle.model.specs.Memory.{capped, AllDurable, Survived};

use crate::Memory;
use crate::range::{read_range, write_range};
use model::numbers::MOST_BYTES;
use model::refusal::Refusal;

/// Bytes that are durable as soon as they are written.
// No Model: `into_bytes` gives the very Vec back, which a list of its bytes would not say.
#[derive(Drop)]
pub struct DirectMemory {
    content: Vec<u8>,
    ghost bounded: { vec_len content ≤ most_bytes },
}

impl DirectMemory {
    /// A memory of the given bytes; of more than 4,096 it keeps none.
    pub fn new(mut given: Vec<u8>) -> DirectMemory
        ensures { result.content.items ≡ capped given.items }
    {
        if given.len() > MOST_BYTES {
            given.clear();
        }
        DirectMemory { content: given }
    }

    /// The bytes, given back.
    pub fn into_bytes(self) -> Vec<u8>
        ensures { result ≡ self.content }
    {
        self.content
    }
}

impl Memory for DirectMemory {
    ghost bytes = { λ m. m.content.items };

    ghost durable = { λ _ _. true };

    fn len(&self) -> usize {
        self.content.len()
    }

    fn read(&self, at: usize, out: &mut [u8]) -> Result<(), Refusal> {
        read_range(self.content.as_slice(), at, out)
    }

    fn write(&mut self, at: usize, from: &[u8]) -> Result<(), Refusal> {
        write_range(&mut self.content, at, from)
    }

    /// Does nothing: every byte is durable.
    fn flush(&mut self)
        ensures bytes { self.new.content.items ≡ self.old.content.items }
        ensures durable { AllDurable (λ _. true) }
    {}

    /// Does nothing: every byte survived.
    fn restart(&mut self)
        ensures survived { Survived self.old.content.items (λ _. true) self.new.content.items }
        ensures durable { AllDurable (λ _. true) }
        ensures same { self.new.content.items ≡ self.old.content.items }
    {}
}
