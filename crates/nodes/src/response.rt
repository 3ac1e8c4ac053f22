//! What a node answers to a message.

use crate::reads::Reads;
use model::party::Party;
use model::vote::Vote;

/// What an answer says.
#[derive(Clone, Copy)]
pub enum Content {
    /// The vote on a prepare, with the bytes that were read.
    Vote { vote: Vote, reads: Reads },
    /// Whether the yes entry stands.
    Reply { stands: bool },
    /// The node needs the minitransaction's entries elsewhere no more.
    Settled,
}

/// An answer to the sender of a message, to be sent.
#[derive(Clone, Copy)]
pub struct Response {
    /// The minitransaction that it is about.
    pub tid: u16,
    /// The node that answers.
    pub sender: u16,
    /// Who is to get it.
    pub receiver: Party,
    /// What it says.
    pub content: Content,
}

/// What a node makes of a message, before power fails.
// No Option: in an Option<Option<Response>> nothing would say which None is the lost message.
#[derive(Clone, Copy)]
pub enum Reaction {
    /// It takes it, and may have an answer.
    Taken(Option<Response>),
    /// It is in another condition, or has no room for what it would have to promise.
    Lost,
}

/// What became of a message that was brought to a node.
// An enum of its own: a Reaction does not say whether power failed.
#[derive(Clone, Copy)]
pub enum Delivery {
    /// The node took it, and may have an answer.
    Taken(Option<Response>),
    /// It is lost.
    Lost,
    /// The write budget was spent: the node has no power.
    PowerFailed,
}
