//! Writes to the journal of a node, each counted by the budget where it is made.

ghost use Rattle.std.specs.Prelude.{ℕ, Bool, List};
ghost use Rattle.model.specs.Writes.{add_entry, force, note};
ghost use Rattle.records.specs.ItemSets.{set_items};
ghost use Rattle.nodes.specs.Budgets.{both, MadeOne};

use crate::budget::Budget;
use journal::journal::Journal;
use journal::promise::Promise;

/// Adds a yes entry, if the budget allows it; a full journal refuses and is not altered.
// The test of the budget stands in each write: a closure over the store would need clauses longer than the step.
pub(crate) fn add_entry<J: Journal>(journal: &mut J, promise: &Promise, budget: &mut Budget)
    ensures { (cells : List ℕ) (durable : ℕ → Bool) → MadeOne budget.old.left (add_entry promise.now.tid promise.now.participants (set_items promise.now.writes)) (both cells (J.log journal.old)) durable budget.new.left (both cells (J.log journal.new)) durable }
{
    if budget.spend() {
        let _ = journal.add(promise);
    }
}

/// Adds a forced abort, if the budget allows it; a journal without room refuses and is not altered.
pub(crate) fn force_abort<J: Journal>(journal: &mut J, tid: u16, budget: &mut Budget)
    ensures { (cells : List ℕ) (durable : ℕ → Bool) → MadeOne budget.old.left (force tid) (both cells (J.log journal.old)) durable budget.new.left (both cells (J.log journal.new)) durable }
{
    if budget.spend() {
        let _ = journal.force(tid);
    }
}

/// Notes an outcome, if the budget allows it; one without an entry is refused and alters nothing.
pub(crate) fn note_outcome<J: Journal>(
    journal: &mut J,
    tid: u16,
    commits: bool,
    budget: &mut Budget,
)
    ensures { (cells : List ℕ) (durable : ℕ → Bool) → MadeOne budget.old.left (note tid commits) (both cells (J.log journal.old)) durable budget.new.left (both cells (J.log journal.new)) durable }
{
    if budget.spend() {
        let _ = journal.note(tid, commits);
    }
}
