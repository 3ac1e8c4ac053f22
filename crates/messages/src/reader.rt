//! Messages read from their records.

ghost use Rattle.std.specs.Prelude.{◌≡◌, true, IfOk};
ghost use Rattle.std.specs.Option.{ok_or};
ghost use Rattle.model.specs.MessageFormat.{decode_flag, decode_prepare, decode_voted, decode_empty, decode_body, decode_message, reads_limit, encode_message, is_body};
ghost use Rattle.model.specs.declared.refusal.Refusal.TheVariants.{Malformed};
ghost use Rattle.messages.specs.Meaning.{body_meaning, body_read_meaning, message_meaning, read_meaning};

use crate::layout::{BODY, KIND, read_header};
use crate::message::{Body, Kind, Message};
use model::numbers::MOST_READS;
use model::refusal::Refusal;
use model::vote::Vote;
use records::items::Items;
use records::record::is_record;

/// Reads a message: what it carries stands in the record itself. Written again, it has the same bytes.
pub fn read_message<'a>(bytes: &'a [u8]) -> Result<Message<'a>, Refusal>
    ensures value { read_meaning result ≡ ok_or (decode_message bytes.now) Malformed }
    ensures again { IfOk result (λ m. (is_body (body_meaning m.body) ≡ true) × (encode_message (message_meaning m) ≡ bytes.now)) }
{
    if !is_record(bytes) {
        return Err(Refusal::Malformed);
    }
    let header = read_header(bytes).ok_or(Refusal::Malformed)?;
    let body = read_body(bytes[KIND], &bytes[BODY..])?;
    Ok(Message { header, body })
}

/// The body that a kind and the bytes behind the header stand for.
fn read_body<'a>(kind: u8, bytes: &'a [u8]) -> Result<Body<'a>, Refusal>
    ensures { body_read_meaning result ≡ ok_or (decode_body kind bytes.now) Malformed }
{
    match Kind::try_from(kind)? {
        Kind::Prepare => read_prepare(bytes),
        Kind::Vote => read_vote(bytes),
        Kind::Finish => Ok(Body::Finish {
            committed: read_flag(bytes)?,
        }),
        Kind::Inquiry => read_empty(bytes, Body::Inquiry),
        Kind::Reply => Ok(Body::Reply {
            stands: read_flag(bytes)?,
        }),
        Kind::Query => read_empty(bytes, Body::Query),
        Kind::Settled => read_empty(bytes, Body::Settled),
    }
}

/// The participants, and the items of the receiver.
fn read_prepare<'a>(bytes: &'a [u8]) -> Result<Body<'a>, Refusal>
    ensures { body_read_meaning result ≡ ok_or (decode_prepare bytes.now) Malformed }
{
    let (participants, list) = bytes.split_first().ok_or(Refusal::Malformed)?;
    Ok(Body::Prepare {
        participants: *participants,
        items: Items::parse(list)?,
    })
}

/// The vote and, only behind a yes, the bytes that were read.
fn read_vote<'a>(bytes: &'a [u8]) -> Result<Body<'a>, Refusal>
    ensures { body_read_meaning result ≡ ok_or (decode_voted bytes.now) Malformed }
{
    let (vote, reads) = bytes.split_first().ok_or(Refusal::Malformed)?;
    let vote = Vote::try_from(*vote)?;
    if reads.len() > most_reads(vote) {
        return Err(Refusal::Malformed);
    }
    Ok(Body::Vote { vote, reads })
}

/// How many read bytes may follow a vote.
pub(crate) fn most_reads(vote: Vote) -> usize
    ensures { result ≡ reads_limit vote }
{
    match vote {
        Vote::Yes => MOST_READS,
        _ => 0,
    }
}

/// A body without bytes.
fn read_empty<'a>(bytes: &[u8], body: Body<'a>) -> Result<Body<'a>, Refusal>
    ensures { body_read_meaning result ≡ ok_or (decode_empty (body_meaning body.entry) bytes.now) Malformed }
{
    if bytes.is_empty() {
        Ok(body)
    } else {
        Err(Refusal::Malformed)
    }
}

/// One byte, 1 for yes and 0 for no.
// Not a TryFrom: bool and slices of bytes are types of the library, and take no impl of ours.
fn read_flag(bytes: &[u8]) -> Result<bool, Refusal>
    ensures { result ≡ ok_or (decode_flag bytes.now) Malformed }
{
    match bytes {
        [0] => Ok(false),
        [1] => Ok(true),
        _ => Err(Refusal::Malformed),
    }
}
