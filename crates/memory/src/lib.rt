//! Memories: stores of bytes that say which of them survive a loss of power.
//! Everything above relies on the contract of [`Memory`] alone.

#![tactic(auto)]

pub mod direct;
pub mod range;
pub mod shadow;
pub mod survive;

ghost use Rattle.std.specs.Prelude.{◌≡◌, ℕ, ◌≤◌, Bool, false, List, length, is_ok, if◌then◌else◌};
ghost use Rattle.model.specs.Numbers.{most_bytes};
ghost use Rattle.model.specs.Memory.{part, splice, AllDurable, Kept, Survived};
ghost use Rattle.memory.specs.Ranges.{answer_within};

use model::refusal::Refusal;

/// A store of up to 4,096 bytes, each of them durable or volatile.
pub trait Memory {
    // The bytes as they read now.
    ghost bytes: { Self → List ℕ };

    // Whether the byte at an address would survive a loss of power.
    ghost durable: { Self → ℕ → Bool };

    /// How many bytes the memory has.
    fn len(&self) -> usize
        ensures value { result ≡ length (bytes self.now) }
        ensures bound { result ≤ most_bytes };

    /// Copies the bytes from an address on into a buffer, as many as it holds.
    fn read(&self, at: usize, out: &mut [u8]) -> Result<(), Refusal>
        ensures answer { result ≡ answer_within (bytes self.now) at (length out.old) }
        ensures copied { out.new ≡ (if is_ok result then part (bytes self.now) at (length out.old) else out.old) };

    /// Gives the bytes from an address on new values; whether these are durable is the memory's choice.
    // An address and bytes, as a file's write_at takes them: a struct of both would be made at each call.
    fn write(&mut self, at: usize, from: &[u8]) -> Result<(), Refusal>
        ensures answer { result ≡ answer_within (bytes self.old) at (length from.now) }
        ensures bytes { bytes self.new ≡ (if is_ok result then splice (bytes self.old) at from.now else bytes self.old) }
        ensures kept { Kept (durable self.old) (durable self.new) at (length from.now) }
        ensures refused { is_ok result ≡ false → (k : ℕ) → durable self.new k ≡ durable self.old k };

    /// Makes every byte durable.
    fn flush(&mut self)
        ensures bytes { bytes self.new ≡ bytes self.old }
        ensures durable { AllDurable (durable self.new) };

    /// Goes on after a loss of power with what survived it.
    fn restart(&mut self)
        ensures survived { Survived (bytes self.old) (durable self.old) (bytes self.new) }
        ensures durable { AllDurable (durable self.new) };
}
