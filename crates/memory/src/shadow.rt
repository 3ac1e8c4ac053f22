//! A memory of two halves: writes go to the working half, and only a flush copies it to the image.

ghost use Rattle.std.specs.Prelude.{◌≡◌, ℕ, ◌≤◌, false, length, is_ok, if◌then◌else◌, vec_len};
ghost use Rattle.model.specs.Numbers.{most_bytes};
ghost use Rattle.model.specs.Memory.{paired, splice, AllDurable, Kept, Survived};
ghost use Rattle.memory.specs.Shadow.{agree};
ghost use Rattle.memory.specs.Ranges.{answer_within};

use crate::Memory;
use crate::range::{read_range, write_range};
use model::numbers::MOST_BYTES;
use model::refusal::Refusal;

/// A working half and its image; a byte is durable exactly where they agree.
// Two halves, not one Vec of pairs, and no Model: each is given as a Vec and given back as that very Vec.
#[derive(Drop)]
pub struct ShadowMemory {
    working: Vec<u8>,
    image: Vec<u8>,
    ghost bounded: { vec_len working ≤ most_bytes },
    ghost equal: { vec_len working ≡ vec_len image },
}

impl ShadowMemory {
    /// A memory of the given halves; of unequal ones, or of more than 4,096 bytes each, it keeps none.
    pub fn new(mut working: Vec<u8>, mut image: Vec<u8>) -> ShadowMemory
        ensures working { result.working.items ≡ paired working.items image.items }
        ensures image { result.image.items ≡ paired image.items working.items }
    {
        if working.len() != image.len() || working.len() > MOST_BYTES {
            working.clear();
            image.clear();
        }
        ShadowMemory { working, image }
    }

    /// The two halves, given back: the working half, then the image.
    pub fn into_halves(self) -> (Vec<u8>, Vec<u8>)
        ensures working { result.0 ≡ self.working }
        ensures image { result.1 ≡ self.image }
    {
        (self.working, self.image)
    }
}

impl Memory for ShadowMemory {
    ghost bytes = { λ m. m.working.items };

    ghost durable = { λ m. agree m.working.items m.image.items };

    fn len(&self) -> usize {
        self.working.len()
    }

    fn read(&self, at: usize, out: &mut [u8]) -> Result<(), Refusal> {
        read_range(self.working.as_slice(), at, out)
    }

    /// Alters the working half alone.
    fn write(&mut self, at: usize, from: &[u8]) -> Result<(), Refusal>
        ensures answer { result ≡ answer_within self.old.working.items at (length from.now) }
        ensures bytes { self.new.working.items ≡ (if is_ok result then splice self.old.working.items at from.now else self.old.working.items) }
        ensures kept { Kept (agree self.old.working.items self.old.image.items) (agree self.new.working.items self.new.image.items) at (length from.now) }
        ensures refused { is_ok result ≡ false → (k : ℕ) → agree self.new.working.items self.new.image.items k ≡ agree self.old.working.items self.old.image.items k }
        ensures image { self.new.image.items ≡ self.old.image.items }
    {
        write_range(&mut self.working, at, from)
    }

    /// Copies the working half to the image.
    fn flush(&mut self)
        ensures bytes { self.new.working.items ≡ self.old.working.items }
        ensures durable { AllDurable (agree self.new.working.items self.new.image.items) }
        ensures image { self.new.image.items ≡ self.old.working.items }
    {
        self.image.copy_from_slice(self.working.as_slice());
    }

    /// Copies the image to the working half.
    fn restart(&mut self)
        ensures survived { Survived self.old.working.items (agree self.old.working.items self.old.image.items) self.new.working.items }
        ensures durable { AllDurable (agree self.new.working.items self.new.image.items) }
        ensures shown { self.new.working.items ≡ self.old.image.items }
        ensures image { self.new.image.items ≡ self.old.image.items }
    {
        self.working.copy_from_slice(self.image.as_slice());
    }
}
