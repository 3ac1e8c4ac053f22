//! Why a call was refused. A refused call alters nothing.

ghost use Rattle.std.specs.Prelude.{◌≡◌, Some, decimal};
ghost use Rattle.model.specs.Refusals.{refusal_number};

use std::error::Error;
use std::fmt;

/// The reasons for which a reader, a writer, a store or a call refuses.
#[derive(Clone, Copy, PartialEq, Eq, Debug)]
pub enum Refusal {
    /// The bytes are no record, or the value is one that no record holds.
    Malformed = 1,
    /// What the call names is not there.
    Missing = 2,
    /// The node, or the whole cluster, is not in the condition that the call wants.
    WrongCondition = 3,
    /// A range passes the end of its memory.
    OutOfRange = 4,
    /// There is no room: in a buffer, the network, a table or a journal.
    NoRoom = 5,
    /// Something that the call waits for has not come yet.
    NotReady = 6,
    /// The last number has been given.
    Exhausted = 7,
}

/// The number by which a refusal is reported.
impl From<Refusal> for u8 {
    ghost from_gives = { λ refusal number. number ≡ refusal_number refusal };

    fn from(refusal: Refusal) -> u8 {
        refusal as u8
    }
}

/// A refusal is printed as its number.
impl fmt::Display for Refusal {
    ghost output = { λ refusal. Some (decimal (refusal_number refusal)) };

    fn fmt<W: fmt::Write>(&self, f: &mut fmt::Formatter<W>) -> fmt::Result {
        let number = u8::from(*self);
        write!(f, "{number}")
    }
}

impl Error for Refusal {}
