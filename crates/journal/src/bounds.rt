//! What is asked of the numbers of a journal, whatever its kind.

ghost use Rattle.std.specs.Prelude.{◌≡◌, ◌&&◌, ◌||◌, ◌==◌, nat_le};
ghost use Rattle.model.specs.Numbers.{most_entries, most_forced, last_number};

use model::numbers::{LAST_NUMBER, MOST_ENTRIES, MOST_FORCED};

/// Whether so many entries leave no room for another, or no running number is left.
pub fn full(capacity: usize, count: usize, highest: u16) -> bool
    ensures { result ≡ (nat_le capacity count || nat_le last_number highest) }
{
    count >= capacity || highest >= LAST_NUMBER
}

/// Whether so many forced aborts leave no room for another.
pub fn forced_full(capacity: usize, count: usize) -> bool
    ensures { result ≡ (nat_le most_forced count || capacity == 0) }
{
    count >= MOST_FORCED || capacity == 0
}

/// Whether a journal with these parts is as it was made.
// Five numbers, as a journal of any kind has them: a struct would be made for this one call.
pub fn untouched(count: usize, forced: usize, pointer: u16, highest: u16, capacity: usize) -> bool
    ensures { result ≡ (count == 0 && forced == 0 && pointer == 0 && highest == 0 && nat_le 1 capacity && nat_le capacity most_entries) }
{
    count == 0
        && forced == 0
        && pointer == 0
        && highest == 0
        && (1..=MOST_ENTRIES).contains(&capacity)
}
