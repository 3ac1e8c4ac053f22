//! Messages in words.

ghost use Rattle.std.specs.Prelude.{◌≡◌, ◌++◌, Some};
ghost use Rattle.messages.specs.Meaning.{body_meaning, message_meaning};
ghost use Rattle.inspect.specs.Words.{yes_text, body_text, header_text};

use crate::items::{Decimals, ItemLines};
use messages::message::{Body, Message};
use std::fmt;

/// Yes or no.
fn yes_or_no(yes: bool) -> &'static str
    ensures { result.now ≡ yes_text yes }
{
    if yes { "yes" } else { "no" }
}

/// What a message says, to the end of its lines.
#[derive(Clone, Copy)]
struct BodyLines<'a>(Body<'a>);

impl fmt::Display for BodyLines<'_> {
    ghost output = { λ lines. Some (body_text (body_meaning lines.0)) };

    fn fmt<W: fmt::Write>(&self, f: &mut fmt::Formatter<W>) -> fmt::Result {
        match self.0 {
            Body::Prepare {
                participants,
                items,
            } => {
                writeln!(f, ", participants {participants}, items: {}", items.len())?;
                write!(f, "{}", ItemLines(items))
            }
            Body::Vote { vote, reads } => writeln!(
                f,
                ", vote {}, reads:{}",
                u8::from(vote),
                Decimals(reads)
            ),
            Body::Finish { committed: yes } | Body::Reply { stands: yes } => writeln!(
                f,
                ", {}",
                yes_or_no(yes)
            ),
            Body::Inquiry | Body::Query | Body::Settled => writeln!(f),
        }
    }
}

/// A message: its kind, tid, sender and receiver, and what it says.
#[derive(Clone, Copy)]
pub(crate) struct MessageLines<'a>(pub(crate) Message<'a>);

impl fmt::Display for MessageLines<'_> {
    ghost output = { λ lines. Some (header_text (message_meaning lines.0) ++ body_text (message_meaning lines.0).body) };

    fn fmt<W: fmt::Write>(&self, f: &mut fmt::Formatter<W>) -> fmt::Result {
        let Message { header, body } = self.0;
        write!(
            f,
            "message {}, tid {}, from {}, to {}{}",
            body.kind(),
            header.tid,
            header.sender,
            header.receiver,
            BodyLines(body)
        )
    }
}
