//! A journal in tables of fixed size.

ghost use Rattle.std.specs.Prelude.{◌≡◌, ◌<◌, ◌≤◌, map, vec_capacity};
ghost use Rattle.model.specs.Journal.{Journal as Log, empty_journal, pending, restarted};
ghost use Rattle.model.specs.Numbers.{most_forced};
ghost use Rattle.journal.specs.Entries.{durable_entry};
ghost use Rattle.journal.specs.Tables.{table_log, usable};
ghost use Rattle.journal.specs.Restarts.{Restarted, only_durable};

use crate::bounds::{forced_full, full};
use crate::entry::Entry;
use crate::journal::Journal;
use crate::promise::Promise;
use crate::search::find;
use crate::view::EntryView;
use model::numbers::{MOST_ENTRIES, MOST_FORCED};
use model::outcome::Outcome;
use model::refusal::Refusal;
use std::marker::Model;

/// A journal over two given tables. A place is an index of the first; entries stand there in order, from 0 on.
/// A restart loses every pending outcome.
#[derive(Drop)]
pub struct TableJournal<const N: usize> {
    entries: Vec<Entry>,
    forced: Vec<u16>,
    pointer: u16,
    highest: u16,
    capacity: usize,
}

// Clauses see the journal of the rules; there is a place for each entry and each forced abort.
impl<const N: usize> Model for TableJournal<N> {
    ghost Value = { Log };

    ghost view = { λ t. table_log t.entries.items t.forced.items t.pointer t.highest t.capacity };

    ghost invariant = { λ t. (t.capacity ≤ vec_capacity t.entries) × (0 < t.capacity → most_forced ≤ vec_capacity t.forced) };
}

impl<const N: usize> TableJournal<N> {
    /// An empty journal over tables that have been reserved; what they hold is dropped.
    /// It has room for N entries if N is 1 to 16 and the tables have places for N entries and 64 forced aborts, else for none.
    pub fn new(mut entries: Vec<Entry>, mut forced: Vec<u16>) -> TableJournal<N>
        ensures { result ≡ empty_journal (usable N (vec_capacity entries) (vec_capacity forced)) }
    {
        let capacity = usable_capacity(N, entries.capacity(), forced.capacity());
        entries.clear();
        forced.clear();
        TableJournal {
            entries,
            forced,
            pointer: 0,
            highest: 0,
            capacity,
        }
    }
}

/// The capacity that is asked for, if it is one and the tables have as many places as it takes; else none.
// A number, and no Option: in the rules a journal whose size does not suffice has the capacity 0.
fn usable_capacity(wanted: usize, places: usize, forced_places: usize) -> usize
    ensures { result ≡ usable wanted places forced_places }
{
    let suffices = places >= wanted && forced_places >= MOST_FORCED;
    if (1..=MOST_ENTRIES).contains(&wanted) && suffices {
        wanted
    } else {
        0
    }
}

/// An outcome as it is noted: a loss of power may still take it.
fn pending_outcome(commits: bool) -> Outcome
    ensures { result ≡ pending commits }
{
    Outcome {
        commits,
        durable: false,
    }
}

/// Makes every outcome durable; the pending ones are kept or lost.
fn make_durable(entries: &mut [Entry], keeps_pending: bool)
    ensures { entries.new ≡ map (durable_entry keeps_pending) entries.old }
{
    for entry in entries.iter_mut() {
        entry.make_durable(keeps_pending);
    }
}

impl<const N: usize> Journal for TableJournal<N> {
    const CAPACITY: usize = N;

    type Place = usize;

    ghost log = { λ t. t };

    ghost position = { λ _ place. place };

    fn places(&self) -> usize {
        self.capacity
    }

    fn count(&self) -> usize {
        self.entries.len()
    }

    fn pointer(&self) -> u16 {
        self.pointer
    }

    fn highest(&self) -> u16 {
        self.highest
    }

    fn forced_count(&self) -> usize {
        self.forced.len()
    }

    fn is_forced(&self, tid: u16) -> bool {
        find(self.forced.as_slice(), tid).is_some()
    }

    fn place(&self, index: usize) -> Option<usize> {
        (index < self.entries.len()).then_some(index)
    }

    fn entry(&self, place: usize) -> Option<EntryView<'_>> {
        self.entries.get(place).map(|entry| entry.view())
    }

    fn add(&mut self, promise: &Promise) -> Result<usize, Refusal> {
        let place = self.entries.len();
        if full(self.capacity, place, self.highest) {
            return Err(Refusal::NoRoom);
        }
        let running = self.highest + 1;
        self.entries.push_reserved(Entry {
            running,
            promise: *promise,
            outcome: None,
        });
        self.highest = running;
        Ok(place)
    }

    fn note(&mut self, tid: u16, commits: bool) -> Result<(), Refusal> {
        let place = find(self.entries.as_slice(), tid).ok_or(Refusal::NotReady)?;
        self.entries[place].outcome = Some(pending_outcome(commits));
        Ok(())
    }

    fn force(&mut self, tid: u16) -> Result<(), Refusal> {
        if self.is_forced(tid) {
            return Ok(());
        }
        if forced_full(self.capacity, self.forced.len()) {
            return Err(Refusal::NoRoom);
        }
        self.forced.push_reserved(tid);
        Ok(())
    }

    fn drop_oldest(&mut self) -> Result<(), Refusal> {
        if self.entries.is_empty() {
            return Err(Refusal::NotReady);
        }
        let _ = self.entries.remove(0);
        Ok(())
    }

    fn set_pointer(&mut self, running: u16) {
        self.pointer = running;
    }

    fn flush(&mut self) {
        make_durable(self.entries.as_mut_slice(), true);
    }

    /// Every pending outcome is lost.
    fn restart(&mut self)
        ensures restarted { Restarted self.old self.new }
        ensures log { self.new ≡ restarted self.old (only_durable self.old.entries) }
    {
        make_durable(self.entries.as_mut_slice(), false);
    }
}
