//! An entry as a table keeps it.

ghost use Rattle.std.specs.Prelude.{◌≡◌};
ghost use Rattle.journal.specs.Entries.{entry_meaning, stored_entry, durable_entry};

use crate::promise::Promise;
use crate::search::Numbered;
use crate::view::EntryView;
use model::outcome::Outcome;

/// A yes vote with what it promised, of the same size whatever it holds.
#[derive(Clone, Copy)]
pub struct Entry {
    /// The entry's number in its journal.
    pub running: u16,
    /// What was promised.
    pub promise: Promise,
    /// Whether it was committed or aborted, if that is known.
    pub outcome: Option<Outcome>,
}

/// An entry is looked up by its tid.
impl Numbered for Entry {
    ghost numbered = { λ e. e.promise.tid };

    fn number(&self) -> u16 {
        self.promise.tid
    }
}

impl Entry {
    /// The entry as a journal shows it.
    pub fn view(&self) -> EntryView<'_>
        ensures { entry_meaning result ≡ stored_entry self.now }
    {
        EntryView {
            running: self.running,
            tid: self.promise.tid,
            participants: self.promise.participants,
            outcome: self.outcome,
            writes: self.promise.writes.items(),
        }
    }

    /// Makes the outcome durable; a pending one is kept or lost.
    pub(crate) fn make_durable(&mut self, keeps_pending: bool)
        ensures { self.new ≡ durable_entry keeps_pending self.old }
    {
        let _ = self
            .outcome
            .take_if(|outcome| !(keeps_pending || outcome.durable));
        if let Some(outcome) = &mut self.outcome {
            outcome.durable = true;
        }
    }
}
