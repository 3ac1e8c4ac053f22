//! Looking up an entry of any journal by its tid.

ghost use Rattle.std.specs.Prelude.{◌≡◌, is_some, IfSome, if◌then◌else◌, Some, None};
ghost use Rattle.std.specs.Option.{option_map};
ghost use Rattle.model.specs.Lists.{place};
ghost use Rattle.model.specs.Journal.{tid_of, has_entry, entry_of};
ghost use Rattle.journal.specs.Entries.{entry_meaning};

use crate::journal::Journal;
use crate::view::EntryView;

/// The place of the first entry of a tid, if there is one. It costs a look at each entry up to it.
pub fn place_of<J: Journal>(journal: &J, tid: u16) -> Option<J::Place>
    ensures stands { is_some result ≡ has_entry (J.log journal.now) tid }
    ensures place { IfSome result (λ p. J.position journal.now p ≡ place tid_of tid (J.log journal.now).entries) }
{
    // By index, as a journal gives its places; `find_map` would go on where a place or its entry is missing.
    for index in 0..journal.count() {
        let place = journal.place(index)?;
        if journal.entry(place)?.tid == tid {
            return Some(place);
        }
    }
    None
}

/// The first entry of a tid, if there is one.
pub fn entry_of<'a, J: Journal>(journal: &'a J, tid: u16) -> Option<EntryView<'a>>
    ensures { option_map entry_meaning result ≡ (if has_entry (J.log journal.now) tid then Some (entry_of (J.log journal.now) tid) else None) }
{
    journal.entry(place_of(journal, tid)?)
}
