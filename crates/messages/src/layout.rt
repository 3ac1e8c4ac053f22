//! Where the fields of a message stand in its record, and the header read and written there.

ghost use Rattle.std.specs.Prelude.{◌≡◌, ◌+◌, ◌<◌, ◌∷◌, ◌++◌, length, slice_index};
ghost use Rattle.std.specs.Option.{ok_or};
ghost use Rattle.model.specs.ItemFormat.{be16};
ghost use Rattle.model.specs.Requests.{version};
ghost use Rattle.model.specs.MessageFormat.{decode_party, encode_party, number_at};
ghost use Rattle.model.specs.declared.refusal.Refusal.TheVariants.{Malformed};
ghost use Rattle.messages.specs.Headers.{header_of};
ghost use Rattle.messages.specs.PartyKinds.{party_kind_number, party_kind_numbered};

use crate::message::Header;
use model::party::Party;
use model::refusal::Refusal;
use records::record::VERSION;
use records::writer::be_bytes;

/// The kind.
pub const KIND: usize = 3;
/// The tid, two bytes.
const TID: usize = 4;
/// The sender, a byte for its kind and a number of two bytes.
const SENDER: usize = 6;
/// The receiver, likewise.
const RECEIVER: usize = 9;
/// The body, to the record's end.
pub const BODY: usize = 12;

/// The kinds of parties.
#[derive(Clone, Copy, PartialEq, Eq, Debug)]
enum PartyKind {
    Node = 0,
    Coordinator = 1,
    Recovery = 2,
}

/// The byte that stands for the kind of a party in a record.
impl From<PartyKind> for u8 {
    ghost from_gives = { λ kind byte. byte ≡ party_kind_number kind };

    fn from(kind: PartyKind) -> u8 {
        kind as u8
    }
}

/// The kind of party that a byte of a record stands for; a byte that stands for none is malformed.
// As for each enum with numbers, written out: an impl by a macro of our own is refused.
impl TryFrom<u8> for PartyKind {
    type Error = Refusal;

    ghost try_from_gives = { λ byte kind. kind ≡ ok_or (party_kind_numbered byte) Malformed };

    fn try_from(byte: u8) -> Result<PartyKind, Refusal> {
        match byte {
            0 => Ok(PartyKind::Node),
            1 => Ok(PartyKind::Coordinator),
            2 => Ok(PartyKind::Recovery),
            _ => Err(Refusal::Malformed),
        }
    }
}

/// The number of two bytes at a place.
fn number_at(bytes: &[u8], at: usize) -> u16
    requires { at + 1 < length bytes.now }
    ensures { result ≡ number_at bytes.now at }
{
    u16::from_be_bytes([bytes[at], bytes[at + 1]])
}

/// The party at a place, if there is one; a coordinator's number is the tid.
fn party_at(bytes: &[u8], at: usize, tid: u16) -> Option<Party>
    requires { at + 2 < length bytes.now }
    ensures { result ≡ decode_party tid (slice_index bytes.now at) (number_at bytes.now (at + 1)) }
{
    let number = number_at(bytes, at + 1);
    match PartyKind::try_from(bytes[at]).ok()? {
        PartyKind::Node => Some(Party::Node(number)),
        PartyKind::Coordinator => (number == tid).then_some(Party::Coordinator),
        PartyKind::Recovery => Some(Party::Recovery(number)),
    }
}

/// The header of a record that is long enough for one; none where a party is none.
pub fn read_header(bytes: &[u8]) -> Option<Header>
    ensures { result ≡ header_of bytes.now }
{
    if bytes.len() < BODY {
        return None;
    }
    let tid = number_at(bytes, TID);
    Some(Header {
        tid,
        sender: party_at(bytes, SENDER, tid)?,
        receiver: party_at(bytes, RECEIVER, tid)?,
    })
}

/// The bytes of a party.
// Not a From: a coordinator's number is the tid, which a party does not hold.
fn party_bytes(party: Party, tid: u16) -> [u8; 3]
    ensures { result ≡ encode_party tid party }
{
    let (kind, number) = match party {
        Party::Node(number) => (PartyKind::Node, number),
        Party::Coordinator => (PartyKind::Coordinator, tid),
        Party::Recovery(number) => (PartyKind::Recovery, number),
    };
    let [high, low] = be_bytes(number);
    [u8::from(kind), high, low]
}

/// The bytes before a message's body.
// The kind is any byte: a parameter of type `Kind` would ask more of callers.
pub fn header_bytes(length: u16, kind: u8, header: Header) -> [u8; BODY]
    ensures { result ≡ be16 length ++ (version ∷ kind ∷ ((be16 header.tid ++ encode_party header.tid header.sender) ++ encode_party header.tid header.receiver)) }
{
    let [length_high, length_low] = be_bytes(length);
    let [tid_high, tid_low] = be_bytes(header.tid);
    let [sender_kind, sender_high, sender_low] = party_bytes(header.sender, header.tid);
    let [receiver_kind, receiver_high, receiver_low] = party_bytes(header.receiver, header.tid);
    [
        length_high,
        length_low,
        VERSION,
        kind,
        tid_high,
        tid_low,
        sender_kind,
        sender_high,
        sender_low,
        receiver_kind,
        receiver_high,
        receiver_low,
    ]
}
