//! What a message that is brought to a node is about, and who is to be answered.

ghost use Rattle.std.specs.Prelude.{◌≡◌, Some};
ghost use Rattle.nodes.specs.declared.response.Content.TheVariants.{Reply};
ghost use Rattle.nodes.specs.declared.response.Reaction.TheVariants.{Taken};

use crate::response::{Content, Reaction, Response};
use model::party::Party;

/// The minitransaction of a message with its sender and the node that it is brought to.
#[derive(Clone, Copy)]
pub(crate) struct Envelope {
    /// The node that it is brought to.
    pub(crate) me: u16,
    /// The minitransaction that it is about.
    pub(crate) tid: u16,
    /// Who sent it.
    pub(crate) sender: Party,
}

impl Envelope {
    /// What the node says to the sender.
    pub(crate) fn answer(self, content: Content) -> Response
        ensures { result ≡ record { tid = self.tid; sender = self.me; receiver = self.sender; content = content } }
    {
        Response {
            tid: self.tid,
            sender: self.me,
            receiver: self.sender,
            content,
        }
    }

    /// Takes an inquiry and answers it.
    pub(crate) fn replying(self, stands: bool) -> Reaction
        ensures { result ≡ Taken (Some (record { tid = self.tid; sender = self.me; receiver = self.sender; content = Reply stands })) }
    {
        Reaction::Taken(Some(self.answer(Content::Reply { stands })))
    }
}
