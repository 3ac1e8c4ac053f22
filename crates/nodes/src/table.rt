//! Records by their tids, in a table of fixed size.

ghost use Rattle.std.specs.Prelude.{◌≡◌, ◌≤◌, [], ◌∷◌, ◌++◌, length, take, if◌then◌else◌, nat_le, slice_set};
ghost use Rattle.std.specs.List.{remove};
ghost use Rattle.model.specs.Lists.{place_in};
ghost use Rattle.model.specs.Numbers.{most_entries};
ghost use Rattle.nodes.specs.Standing.{standing, found};

use journal::search::{Numbered, find};
use model::numbers::MOST_ENTRIES;

/// What a table has records of.
pub trait Row: Numbered + Copy {
    /// A record that says nothing.
    const VACANT: Self;
}

/// Records in the order in which they were added: a place for each entry that a journal can have.
// An array with a count: the tables of nodes are of fixed size, without a heap, and copied freely as an ArrayVec is not.
#[derive(Clone, Copy)]
pub struct Table<T: Row> {
    /// How many there are.
    pub count: usize,
    /// Those, then others that say nothing.
    pub records: [T; MOST_ENTRIES],
}

impl<T: Row> Table<T> {
    /// A table in which nothing stands.
    pub fn none() -> Table<T>
        ensures { standing result ≡ [] }
    {
        Table {
            count: 0,
            records: [T::VACANT; MOST_ENTRIES],
        }
    }

    /// How many records stand.
    pub fn len(&self) -> usize
        ensures value { result ≡ length (standing self.now) }
        ensures bound { result ≤ length self.now.records }
        ensures front { take result self.now.records ≡ standing self.now }
    {
        self.count.min(self.records.len())
    }

    /// The records that stand.
    pub fn standing(&self) -> &[T]
        ensures { result.now ≡ standing self.now }
    {
        &self.records[..self.len()]
    }

    /// Adds a record; a full table is left as it is.
    pub fn push(&mut self, more: T)
        ensures { standing self.new ≡ (if nat_le most_entries (length (standing self.old)) then standing self.old else standing self.old ++ more ∷ []) }
    {
        let count = self.len();
        if count < MOST_ENTRIES {
            self.records[count] = more;
            self.count = count + 1;
        }
    }

    /// Puts a record in the place of another.
    pub fn replace(&mut self, place: usize, other: T)
        ensures { standing self.new ≡ slice_set (standing self.old) place other }
    {
        // A test in place of get_mut, as in `model::participants::mark_node`.
        if place < MOST_ENTRIES {
            self.records[place] = other;
        }
    }

    /// Takes a record out; those behind it move up.
    pub fn remove(&mut self, place: usize)
        ensures { standing self.new ≡ remove (standing self.old) place }
    {
        let count = self.len();
        if place < count {
            self.records.copy_within(place + 1..count, place);
            self.count = count - 1;
        }
    }

    /// The place of the first record of a tid, if one stands.
    pub fn find(&self, tid: u16) -> Option<usize>
        ensures { result ≡ place_in T.numbered tid (standing self.now) }
    {
        find(self.standing(), tid)
    }

    /// The first record of a tid with its place, if one stands.
    pub fn get(&self, tid: u16) -> Option<(usize, T)>
        ensures { result ≡ found T.numbered tid (standing self.now) }
    {
        let place = self.find(tid)?;
        Some((place, *self.standing().get(place)?))
    }
}
