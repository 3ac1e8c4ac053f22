//! The way of an entry through a journal.

ghost use Rattle.std.specs.Prelude.{◌≡◌, if◌then◌else◌, Ok, Err};
ghost use Rattle.model.specs.declared.refusal.Refusal.TheVariants.{NoRoom};
ghost use Rattle.model.specs.Journal.{is_full, noted, flushed, dropped};
ghost use Rattle.journal.specs.Entries.{promised};

use crate::journal::Journal;
use crate::promise::Promise;
use model::refusal::Refusal;

/// Adds an entry with its outcome and flushes, goes through a loss of power, and drops the oldest entry.
/// What was flushed is not lost, whatever the journal: so what it then holds is known.
pub fn enter_and_retire<J: Journal>(
    journal: &mut J,
    promise: &Promise,
    commits: bool,
) -> Result<(), Refusal>
    ensures answer { result ≡ (if is_full (J.log journal.old) then Err NoRoom else Ok tt) }
    ensures log { J.log journal.new ≡ (if is_full (J.log journal.old) then J.log journal.old else dropped (flushed (noted (promised (J.log journal.old) promise.now) promise.now.tid commits))) }
{
    journal.add(promise)?;
    journal.note(promise.tid, commits)?;
    journal.flush();
    journal.restart();
    journal.drop_oldest()
}
