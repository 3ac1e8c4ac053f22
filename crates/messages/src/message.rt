//! A message as a value; what it carries stands in the record that it was read from.

ghost use Rattle.std.specs.Prelude.{◌≡◌, Some};
ghost use Rattle.std.specs.Option.{ok_or};
ghost use Rattle.model.specs.declared.refusal.Refusal.TheVariants.{Malformed};
ghost use Rattle.model.specs.MessageFormat.{kind_of};
ghost use Rattle.messages.specs.Kinds.{kind_number, kind_numbered, kind_text, body_kind};
ghost use Rattle.messages.specs.Meaning.{body_meaning};

use model::party::Party;
use model::refusal::Refusal;
use model::vote::Vote;
use records::items::Items;
use std::fmt;

/// The kinds of messages.
#[derive(Clone, Copy, PartialEq, Eq, Debug)]
pub enum Kind {
    Prepare = 1,
    Vote = 2,
    Finish = 3,
    Inquiry = 4,
    Reply = 5,
    Query = 6,
    Settled = 7,
}

/// The byte that stands for the kind in a record.
impl From<Kind> for u8 {
    ghost from_gives = { λ kind byte. byte ≡ kind_number kind };

    fn from(kind: Kind) -> u8 {
        kind as u8
    }
}

/// The kind that a byte of a record stands for; a byte that stands for none is malformed.
// As for each enum with numbers, written out: an impl by a macro of our own is refused.
impl TryFrom<u8> for Kind {
    type Error = Refusal;

    ghost try_from_gives = { λ byte kind. kind ≡ ok_or (kind_numbered byte) Malformed };

    fn try_from(byte: u8) -> Result<Kind, Refusal> {
        match byte {
            1 => Ok(Kind::Prepare),
            2 => Ok(Kind::Vote),
            3 => Ok(Kind::Finish),
            4 => Ok(Kind::Inquiry),
            5 => Ok(Kind::Reply),
            6 => Ok(Kind::Query),
            7 => Ok(Kind::Settled),
            _ => Err(Refusal::Malformed),
        }
    }
}

/// A kind is printed by its name.
impl fmt::Display for Kind {
    ghost output = { λ kind. Some (kind_text kind) };

    fn fmt<W: fmt::Write>(&self, f: &mut fmt::Formatter<W>) -> fmt::Result {
        f.write_str(match self {
            Kind::Prepare => "prepare",
            Kind::Vote => "vote",
            Kind::Finish => "finish",
            Kind::Inquiry => "inquiry",
            Kind::Reply => "reply",
            Kind::Query => "query",
            Kind::Settled => "settled",
        })
    }
}

/// What every message says first.
#[derive(Clone, Copy, PartialEq, Eq, Debug)]
pub struct Header {
    /// The minitransaction that the message is about.
    pub tid: u16,
    /// Who sent it.
    pub sender: Party,
    /// Who is to get it.
    pub receiver: Party,
}

/// What a message says, by its kind.
#[derive(Clone, Copy)]
pub enum Body<'a> {
    /// Asks a memory node for its vote; bit q of the participants stands for node q.
    Prepare { participants: u8, items: Items<'a> },
    /// A memory node's vote, with the bytes that it read.
    Vote { vote: Vote, reads: &'a [u8] },
    /// Tells a memory node whether the minitransaction is committed.
    Finish { committed: bool },
    /// Asks a memory node whether its yes entry stands.
    Inquiry,
    /// Whether the yes entry stands.
    Reply { stands: bool },
    /// Asks a memory node whether it still needs the minitransaction's entries elsewhere.
    Query,
    /// The sender needs them no more.
    Settled,
}

/// A whole message.
#[derive(Clone, Copy)]
pub struct Message<'a> {
    pub header: Header,
    pub body: Body<'a>,
}

impl<'a> Body<'a> {
    /// What kind of message it makes.
    pub fn kind(&self) -> Kind
        ensures kind { result ≡ body_kind (body_meaning self.now) }
        ensures number { kind_number result ≡ kind_of (body_meaning self.now) }
    {
        match self {
            Body::Prepare { .. } => Kind::Prepare,
            Body::Vote { .. } => Kind::Vote,
            Body::Finish { .. } => Kind::Finish,
            Body::Inquiry => Kind::Inquiry,
            Body::Reply { .. } => Kind::Reply,
            Body::Query => Kind::Query,
            Body::Settled => Kind::Settled,
        }
    }
}
