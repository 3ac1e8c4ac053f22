//! The entries that a restart found without an outcome, in a table of fixed size.

ghost use Rattle.std.specs.Prelude.{◌≡◌, not, is_some};
ghost use Rattle.model.specs.Lists.{some};
ghost use Rattle.model.specs.Node.{Unresolved as PlainUnresolved};
ghost use Rattle.model.specs.Handling.{agreed_by, heard as hearing};
ghost use Rattle.nodes.specs.Tables.{unresolved_meaning, unresolveds_meaning};

use crate::table::{Row, Table};
use journal::search::Numbered;
use model::numbers::MOST_NODES;
use model::participants::{every_other, mark_node};
use model::party::Party;

/// An entry that a restart found past the pointer without an outcome.
#[derive(Clone, Copy)]
pub struct Unresolved {
    /// The minitransaction.
    pub tid: u16,
    /// The nodes that take part, as bits, node 0 the lowest.
    pub participants: u8,
    /// By node, whether it has replied yes since the restart.
    pub agreed: [bool; MOST_NODES],
    /// What it was resolved as, once it is resolved.
    pub resolution: Option<bool>,
}

/// Such an entry is looked up by its tid.
impl Numbered for Unresolved {
    ghost numbered = { λ u. u.tid };

    fn number(&self) -> u16 {
        self.tid
    }
}

impl Row for Unresolved {
    const VACANT: Unresolved = Unresolved {
        tid: 0,
        participants: 0,
        agreed: [false; MOST_NODES],
        resolution: None,
    };
}

impl Unresolved {
    /// Whether it is not resolved yet.
    pub fn is_open(&self) -> bool
        ensures { result ≡ not (is_some self.now.resolution) }
    {
        self.resolution.is_none()
    }

    /// What is known after node `me` has heard a yes of a node; with the last of the others it is resolved.
    fn agreed_by(self, me: u16, node: u16) -> Unresolved
        ensures { unresolved_meaning result ≡ agreed_by me node (unresolved_meaning self) }
    {
        let mut agreed = self.agreed;
        mark_node(&mut agreed, node);
        let resolution = every_other(self.participants, me, &agreed).then_some(true);
        Unresolved {
            agreed,
            resolution,
            ..self
        }
    }

    /// What is known after node `me` has heard a reply.
    pub(crate) fn heard(self, me: u16, sender: Party, stands: bool) -> Unresolved
        ensures { unresolved_meaning result ≡ hearing me sender stands (unresolved_meaning self) }
    {
        if !stands {
            return Unresolved {
                resolution: Some(false),
                ..self
            };
        }
        match sender {
            Party::Node(node) => self.agreed_by(me, node),
            _ => self,
        }
    }
}

/// The entries found without an outcome, in journal order.
pub type UnresolvedTable = Table<Unresolved>;

impl Table<Unresolved> {
    /// Whether one is not resolved yet.
    pub fn some_open(&self) -> bool
        ensures { result ≡ some (λ (u : PlainUnresolved). not (is_some u.resolution)) (unresolveds_meaning self.now) }
    {
        self.standing().iter().any(|found| found.is_open())
    }
}
