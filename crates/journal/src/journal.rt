//! The redo log of a memory node: what it has promised, and how that ended.

ghost use Rattle.std.specs.Prelude.{◌≡◌, ℕ, not, ◌&&◌, length, is_some, IfSome, is_ok, IfOk, IfErr, if◌then◌else◌, Ok, Err, nat_lt};
ghost use Rattle.std.specs.Option.{option_map};
ghost use Rattle.std.specs.List.{slice_get};
ghost use Rattle.model.specs.declared.refusal.Refusal.TheVariants.{NoRoom, NotReady};
ghost use Rattle.model.specs.Journal.{Journal as Log, is_full, is_forced, is_forced_full, is_as_made, is_empty, has_entry, noted, forced_in, dropped, flushed, pointed};
ghost use Rattle.journal.specs.Entries.{entry_meaning, promised};
ghost use Rattle.journal.specs.Restarts.{Restarted};

use crate::bounds::untouched;
use crate::promise::Promise;
use crate::view::EntryView;
use model::refusal::Refusal;

/// Entries in order with their outcomes, forced aborts, and a checkpoint pointer.
/// A call that is refused alters nothing, and no call alters more than it says.
pub trait Journal {
    /// How many entries a journal of this kind has room for, if what it was made of suffices: 1 to 16.
    const CAPACITY: usize;

    /// Where an entry stands.
    type Place: Copy;

    // What the journal holds.
    ghost log: { Self → Log };

    // Which entry, counted from the oldest, stands at a place.
    ghost position: { Self → Self.Place → ℕ };

    /// How many entries there is room for; none where what the journal was made of does not suffice.
    fn places(&self) -> usize
        ensures { result ≡ (log self.now).capacity };

    /// Whether the journal is as it was made, and of a size that suffices.
    fn as_made(&self) -> bool
        ensures { result ≡ is_as_made (log self.now) }
    {
        untouched(
            self.count(),
            self.forced_count(),
            self.pointer(),
            self.highest(),
            self.places(),
        )
    }

    /// How many entries stand.
    fn count(&self) -> usize
        ensures { result ≡ length (log self.now).entries };

    /// The running number up to which memory and outcomes are durable.
    fn pointer(&self) -> u16
        ensures { result ≡ (log self.now).pointer };

    /// The last running number that was given; 0 where none was.
    fn highest(&self) -> u16
        ensures { result ≡ (log self.now).highest };

    /// How many forced aborts stand.
    fn forced_count(&self) -> usize
        ensures { result ≡ length (log self.now).forced };

    /// Whether the node has promised never to vote yes on a tid.
    fn is_forced(&self, tid: u16) -> bool
        ensures { result ≡ is_forced (log self.now) tid };

    /// The place of an entry, counted from the oldest.
    fn place(&self, index: usize) -> Option<Self::Place>
        ensures stands { is_some result ≡ nat_lt index (length (log self.now).entries) }
        ensures place { IfSome result (λ p. position self.now p ≡ index) };

    /// The entry at a place, if one stands there.
    fn entry(&self, place: Self::Place) -> Option<EntryView<'_>>
        ensures { option_map entry_meaning result ≡ slice_get (log self.now).entries (position self.now place) };

    /// Adds an entry without outcome, with the next running number, and gives its place;
    /// refused where the journal is full.
    fn add(&mut self, promise: &Promise) -> Result<Self::Place, Refusal>
        ensures answer { is_ok result ≡ not (is_full (log self.old)) }
        ensures refusal { IfErr result (λ e. e ≡ NoRoom) }
        ensures place { IfOk result (λ p. position self.new p ≡ length (log self.old).entries) }
        ensures log { log self.new ≡ promised (log self.old) promise.now };

    /// Notes how the minitransaction of an entry ended; the outcome is pending until the next flush.
    fn note(&mut self, tid: u16, commits: bool) -> Result<(), Refusal>
        ensures answer { result ≡ (if has_entry (log self.old) tid then Ok tt else Err NotReady) }
        ensures log { log self.new ≡ noted (log self.old) tid commits };

    /// Promises never to vote yes on a tid; a promise that stands is not made twice.
    fn force(&mut self, tid: u16) -> Result<(), Refusal>
        ensures answer { result ≡ (if not (is_forced (log self.old) tid) && is_forced_full (log self.old) then Err NoRoom else Ok tt) }
        ensures log { log self.new ≡ forced_in (log self.old) tid };

    /// Removes the oldest entry with its outcome.
    fn drop_oldest(&mut self) -> Result<(), Refusal>
        ensures answer { result ≡ (if is_empty (log self.old) then Err NotReady else Ok tt) }
        ensures log { log self.new ≡ dropped (log self.old) };

    /// Sets the checkpoint pointer.
    fn set_pointer(&mut self, running: u16)
        ensures { log self.new ≡ pointed (log self.old) running };

    /// Makes every outcome durable.
    fn flush(&mut self)
        ensures { log self.new ≡ flushed (log self.old) };

    /// Tells the journal that power was gone: any of the pending outcomes may be lost, nothing else.
    fn restart(&mut self)
        ensures { Restarted (log self.old) (log self.new) };
}
