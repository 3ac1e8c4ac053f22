//! A memory node: its stores, and what it knows only as long as it has power.

ghost use Rattle.std.specs.Prelude.{◌≡◌};
ghost use Rattle.model.specs.Node.{nothing_but};
ghost use Rattle.nodes.specs.Nodes.{volatile_meaning};

use crate::doubts::Doubts;
use crate::unresolved::UnresolvedTable;
use journal::journal::Journal;
use memory::Memory;
use model::condition::Condition;
use model::numbers::MOST_NODES;

/// What a node knows only as long as it has power.
#[derive(Clone, Copy)]
pub struct Volatile {
    /// What the node is doing.
    pub condition: Condition,
    /// The minitransactions in doubt.
    pub doubts: Doubts,
    /// The entries that a restart found without an outcome.
    pub unresolved: UnresolvedTable,
    /// By node, whether it is known to have the oldest entry durably applied.
    pub acknowledged: [bool; MOST_NODES],
}

impl Volatile {
    /// Nothing in doubt, nothing unresolved and no acknowledgement.
    pub fn nothing_but(condition: Condition) -> Volatile
        ensures { volatile_meaning result ≡ nothing_but condition }
    {
        Volatile {
            condition,
            doubts: Doubts::none(),
            unresolved: UnresolvedTable::none(),
            acknowledged: [false; MOST_NODES],
        }
    }

    /// Forgets all but the condition that the node is now in.
    pub fn forget(&mut self, condition: Condition)
        ensures { volatile_meaning self.new ≡ nothing_but condition }
    {
        // Field by field: a new value in its place would be copied with all its vacant records.
        self.condition = condition;
        self.doubts.count = 0;
        self.unresolved.count = 0;
        self.acknowledged = [false; MOST_NODES];
    }
}

/// A memory and a journal, with what is gone with the power.
// No Model: clauses also say which bytes of the memory are durable, which the node of the rules does not.
#[derive(Drop)]
pub struct Node<M: Memory, J: Journal> {
    pub(crate) memory: M,
    pub(crate) journal: J,
    pub(crate) volatile: Volatile,
}
