//! What a memory node says to a prepare.

ghost use Rattle.std.specs.Prelude.{◌≡◌};
ghost use Rattle.std.specs.Option.{ok_or};
ghost use Rattle.model.specs.Votes.{vote_number, vote_of};
ghost use Rattle.model.specs.declared.refusal.Refusal.TheVariants.{Malformed};

use crate::refusal::Refusal;

/// A memory node's answer to a prepare; the cases are tried in the order 1, 2, 3, 4, 0.
#[derive(Clone, Copy, PartialEq, Eq, Debug)]
pub enum Vote {
    /// The yes entry is written: the node commits if every participant does.
    Yes = 0,
    /// An item meets an item of a minitransaction in doubt here.
    Busy = 1,
    /// The node has promised never to vote yes on this tid.
    Forced = 2,
    /// A compare item does not match.
    Mismatch = 3,
    /// The journal has no room for the yes entry.
    Full = 4,
}

/// The byte that stands for the vote in a message.
impl From<Vote> for u8 {
    ghost from_gives = { λ vote byte. byte ≡ vote_number vote };

    fn from(vote: Vote) -> u8 {
        vote as u8
    }
}

/// The vote that a byte of a message stands for; a byte that stands for none is malformed.
// As for each enum with numbers, written out: an impl by a macro of our own is refused.
impl TryFrom<u8> for Vote {
    type Error = Refusal;

    ghost try_from_gives = { λ byte vote. vote ≡ ok_or (vote_of byte) Malformed };

    fn try_from(byte: u8) -> Result<Vote, Refusal> {
        match byte {
            0 => Ok(Vote::Yes),
            1 => Ok(Vote::Busy),
            2 => Ok(Vote::Forced),
            3 => Ok(Vote::Mismatch),
            4 => Ok(Vote::Full),
            _ => Err(Refusal::Malformed),
        }
    }
}
