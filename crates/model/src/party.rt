//! Who sends or receives a message.

ghost use Rattle.std.specs.Prelude.{Some};
ghost use Rattle.model.specs.Parties.{party_text};

use std::fmt;

/// The sender or receiver of a message.
#[derive(Clone, Copy, PartialEq, Eq, Debug)]
pub enum Party {
    /// A memory node, by its number in the cluster.
    Node(u16),
    /// The coordinator of the minitransaction that the message is about.
    Coordinator,
    /// A recovery coordinator, by its number.
    Recovery(u16),
}

/// A party is printed by its kind and, but for a coordinator, its number.
impl fmt::Display for Party {
    ghost output = { λ party. Some (party_text party) };

    fn fmt<W: fmt::Write>(&self, f: &mut fmt::Formatter<W>) -> fmt::Result {
        match self {
            Party::Node(number) => write!(f, "node {number}"),
            Party::Coordinator => write!(f, "coordinator"),
            Party::Recovery(number) => write!(f, "recovery {number}"),
        }
    }
}
