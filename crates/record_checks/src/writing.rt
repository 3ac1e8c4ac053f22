//! Requests and messages written: what fits, what does not, and what no record holds.

use crate::message_reading::VOTE;
use crate::request_reading::SAMPLE;
use messages::message::{Body, Header, Message};
use messages::reader::read_message;
use messages::writer::write_message;
use model::party::Party;
use model::refusal::Refusal;
use model::vote::Vote;
use records::item::Item;
use records::request::{read_request, write_request};
use std::process::Abort;
use std::test::Fail;

/// What stands in a buffer before anything is written.
const BEFORE: u8 = 0xee;

/// The items are refused in a buffer of this size, and it keeps every byte.
fn check_refused(rt: &impl Abort, items: &[Item<'_>], room: usize, why: Refusal) {
    let mut buffer = [BEFORE; 64];
    assert!(rt; room <= buffer.len());
    assert_eq!(rt;
        write_request(&mut buffer[..room], items),
        Err(why),
        "{}",
        room
    );
    assert_eq!(rt; buffer, [BEFORE; 64]);
}

#[test]
fn a_short_buffer_keeps_every_byte(rt: HostRuntime) {
    let items = [Item::Write {
        node: 0,
        address: 5,
        data: &[0x18],
    }];
    for room in 0..10 {
        check_refused(&rt, &items, room, Refusal::NoRoom);
    }
}

#[test]
fn a_request_fits_exactly(rt: HostRuntime) {
    let items = [Item::Write {
        node: 0,
        address: 5,
        data: &[0x18],
    }];
    let mut exact = [BEFORE; 10];
    assert_eq!(rt; write_request(&mut exact, &items), Ok(10));
    assert_eq!(rt; exact, SAMPLE);
    let mut longer = [BEFORE; 12];
    assert_eq!(rt; write_request(&mut longer, &items), Ok(10));
    assert_eq!(rt; longer, [0, 8, 1, 1, 3, 0, 0, 5, 1, 0x18, BEFORE, BEFORE]);
}

#[test]
fn a_request_without_form_is_malformed_before_there_is_no_room(rt: HostRuntime) {
    let nine = [Item::Write {
        node: 0,
        address: 5,
        data: &[0x18],
    }; 9];
    for room in [0, 3, 64] {
        check_refused(&rt, &nine[..0], room, Refusal::Malformed);
        check_refused(&rt, &nine, room, Refusal::Malformed);
    }
    check_refused(&rt, &nine[..8], 51, Refusal::NoRoom);
}

/// No compare and no write of these data has a form.
fn check_data(rt: &impl Abort, data: &[u8], room: usize) {
    let compare = Item::Compare {
        node: 0,
        address: 0,
        data,
    };
    check_refused(rt, &[compare], room, Refusal::Malformed);
    let write = Item::Write {
        node: 0,
        address: 0,
        data,
    };
    check_refused(rt, &[write], room, Refusal::Malformed);
}

/// No read of this length has a form, behind a compare that has one.
fn check_read(rt: &impl Abort, length: u8, room: usize) {
    let items = [
        Item::Compare {
            node: 0,
            address: 0,
            data: &[0x18],
        },
        Item::Read {
            node: 0,
            address: 0,
            length,
        },
    ];
    check_refused(rt, &items, room, Refusal::Malformed);
}

#[test]
fn an_item_without_form_is_malformed_before_there_is_no_room(rt: HostRuntime) {
    for room in [0, 3, 64] {
        check_data(&rt, &[], room);
        check_data(&rt, &[0; 17], room);
        check_read(&rt, 0, room);
        check_read(&rt, 17, room);
    }
}

/// A message about tid 258, from node 1 to the coordinator.
fn message<'a>(body: Body<'a>) -> Message<'a> {
    Message {
        header: Header {
            tid: 258,
            sender: Party::Node(1),
            receiver: Party::Coordinator,
        },
        body,
    }
}

/// The message is refused in a buffer of this size, and it keeps every byte.
fn check_unsent(rt: &impl Abort, body: Body<'_>, room: usize, why: Refusal) {
    let mut buffer = [BEFORE; 160];
    assert!(rt; room <= buffer.len());
    let answer = write_message(&mut buffer[..room], &message(body));
    assert_eq!(rt; answer, Err(why), "{}", room);
    assert_eq!(rt; buffer, [BEFORE; 160]);
}

#[test]
fn a_message_fits_exactly_or_not_at_all(rt: HostRuntime) {
    let body = Body::Vote {
        vote: Vote::Yes,
        reads: &[0x18, 0x07],
    };
    for room in 0..15 {
        check_unsent(&rt, body, room, Refusal::NoRoom);
    }
    let mut exact = [BEFORE; 15];
    assert_eq!(rt; write_message(&mut exact, &message(body)), Ok(15));
    assert_eq!(rt; exact, VOTE);
    let mut longer = [BEFORE; 16];
    assert_eq!(rt; write_message(&mut longer, &message(body)), Ok(15));
    assert_eq!(rt; longer[15], BEFORE);
}

#[test]
fn a_vote_without_form_is_malformed_before_there_is_no_room(rt: HostRuntime) {
    let reads = [0; 129];
    for room in [0, 12, 160] {
        let vote = Vote::Yes;
        check_unsent(
            &rt,
            Body::Vote {
                vote,
                reads: &reads,
            },
            room,
            Refusal::Malformed,
        );
        for vote in [Vote::Busy, Vote::Forced, Vote::Mismatch, Vote::Full] {
            let reads = &reads[..1];
            check_unsent(&rt, Body::Vote { vote, reads }, room, Refusal::Malformed);
        }
    }
    let vote = Vote::Yes;
    let reads = &reads[..128];
    check_unsent(&rt, Body::Vote { vote, reads }, 140, Refusal::NoRoom);
    let mut buffer = [BEFORE; 141];
    let written = write_message(&mut buffer, &message(Body::Vote { vote, reads }));
    assert_eq!(rt; written, Ok(141));
}

#[test]
fn a_prepare_carries_the_items_to_come(rt: HostRuntime) -> Result<(), Fail> {
    let mut items = read_request(&SAMPLE)?;
    let participants = 1;
    let body = Body::Prepare {
        participants,
        items,
    };
    check_unsent(&rt, body, 19, Refusal::NoRoom);
    let mut buffer = [BEFORE; 20];
    assert_eq!(rt; write_message(&mut buffer, &message(body)), Ok(20));
    assert_eq!(rt; &buffer[13..], &SAMPLE[3..]);
    assert!(rt; read_message(&buffer).is_ok());
    assert!(rt; items.next_item().is_some());
    let body = Body::Prepare {
        participants,
        items,
    };
    check_unsent(&rt, body, 0, Refusal::Malformed);
    check_unsent(&rt, body, 160, Refusal::Malformed);
    Ok(())
}
