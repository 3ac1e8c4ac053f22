//! Messages, whole and damaged.

use crate::answers::{changed, number_of};
use messages::message::Body;
use messages::reader::read_message;
use model::party::Party;
use model::vote::Vote;
use records::request::read_request;
use records::writer::put;
use std::process::Abort;
use std::test::Fail;

/// tid 513, from its coordinator to node 1: participants 0 and 1, compare 0x18 at address 5.
const PREPARE: [u8; 20] = [
    0x00, 0x12, 0x01, 0x01, 0x02, 0x01, 0x01, 0x02, 0x01, 0x00, 0x00, 0x01, 0x03, 0x01, 0x01, 0x01,
    0x00, 0x05, 0x01, 0x18,
];
/// tid 258, from node 1 to its coordinator: yes, two bytes were read.
pub(crate) const VOTE: [u8; 15] = [
    0x00, 0x0d, 0x01, 0x02, 0x01, 0x02, 0x00, 0x00, 0x01, 0x01, 0x01, 0x02, 0x00, 0x18, 0x07,
];
/// tid 7, from its coordinator to node 0: yes.
const FINISH: [u8; 13] = [
    0x00, 0x0b, 0x01, 0x03, 0x00, 0x07, 0x01, 0x00, 0x07, 0x00, 0x00, 0x00, 0x01,
];
/// tid 65535, from recovery 2 to node 3.
const INQUIRY: [u8; 12] = [
    0x00, 0x0a, 0x01, 0x04, 0xff, 0xff, 0x02, 0x00, 0x02, 0x00, 0x00, 0x03,
];
/// tid 300, from node 2 to recovery 4660: no.
const REPLY: [u8; 13] = [
    0x00, 0x0b, 0x01, 0x05, 0x01, 0x2c, 0x00, 0x00, 0x02, 0x02, 0x12, 0x34, 0x00,
];
/// tid 1, from node 0 to node 1.
const QUERY: [u8; 12] = [
    0x00, 0x0a, 0x01, 0x06, 0x00, 0x01, 0x00, 0x00, 0x00, 0x00, 0x00, 0x01,
];
/// tid 1, from node 1 to node 0.
const SETTLED: [u8; 12] = [
    0x00, 0x0a, 0x01, 0x07, 0x00, 0x01, 0x00, 0x00, 0x01, 0x00, 0x00, 0x00,
];

/// 0 where the bytes are a message, else the refusal's number.
fn answer(bytes: &[u8]) -> u8 {
    number_of(read_message(bytes))
}

/// The kind of a message; 0 where it is none.
// A number, as the answers of the tables.
fn kind(bytes: &[u8]) -> u8 {
    match read_message(bytes) {
        Ok(message) => u8::from(message.body.kind()),
        Err(_) => 0,
    }
}

#[test]
fn each_kind_reads(rt: HostRuntime) {
    assert_eq!(rt; kind(&PREPARE), 1);
    assert_eq!(rt; kind(&VOTE), 2);
    assert_eq!(rt; kind(&FINISH), 3);
    assert_eq!(rt; kind(&INQUIRY), 4);
    assert_eq!(rt; kind(&REPLY), 5);
    assert_eq!(rt; kind(&QUERY), 6);
    assert_eq!(rt; kind(&SETTLED), 7);
}

#[test]
fn a_header_names_its_parties(rt: HostRuntime) -> Result<(), Fail> {
    let finish = read_message(&FINISH)?.header;
    assert_eq!(rt; finish.tid, 7);
    assert_eq!(rt; finish.sender, Party::Coordinator);
    assert_eq!(rt; finish.receiver, Party::Node(0));
    let reply = read_message(&REPLY)?.header;
    assert_eq!(rt; reply.tid, 300);
    assert_eq!(rt; reply.sender, Party::Node(2));
    assert_eq!(rt; reply.receiver, Party::Recovery(4660));
    Ok(())
}

#[test]
fn a_body_says_what_was_meant(rt: HostRuntime) -> Result<(), Fail> {
    match read_message(&VOTE)?.body {
        Body::Vote { vote, reads } => {
            assert_eq!(rt; vote, Vote::Yes);
            assert_eq!(rt; reads, &VOTE[13..]);
        }
        _ => return Err(Fail::new("no vote")),
    }
    match read_message(&FINISH)?.body {
        Body::Finish { committed } => assert!(rt; committed),
        _ => return Err(Fail::new("no finish")),
    }
    match read_message(&REPLY)?.body {
        Body::Reply { stands } => {
            assert!(rt; !stands);
            Ok(())
        },
        _ => Err(Fail::new("no reply")),
    }
}

/// The record is a message, and no prefix of it is one.
fn check_cuts(rt: &impl Abort, record: &[u8]) {
    assert_eq!(rt; answer(record), 0);
    for size in 0..record.len() {
        assert_eq!(rt; answer(&record[..size]), 1, "{}", size);
    }
}

#[test]
fn no_prefix_is_a_message(rt: HostRuntime) {
    check_cuts(&rt, &PREPARE);
    check_cuts(&rt, &VOTE);
    check_cuts(&rt, &FINISH);
    check_cuts(&rt, &INQUIRY);
    check_cuts(&rt, &REPLY);
    check_cuts(&rt, &QUERY);
    check_cuts(&rt, &SETTLED);
}

/// A message of this kind about tid 5, from node 1 to the coordinator, with this body.
// A number, as the answers of the tables.
fn with_body(kind: u8, body: &[u8]) -> u8 {
    let mut bytes = [0; 160];
    let end = 12 + body.len();
    if end > bytes.len() {
        return 0;
    }
    let length = (end - 2) as u8;
    put(&mut bytes, 0, &[0, length, 1, kind, 0, 5, 0, 0, 1, 1, 0, 5]);
    put(&mut bytes, 12, body);
    answer(&bytes[..end])
}

#[test]
fn a_flag_is_one_byte_of_0_or_1(rt: HostRuntime) {
    for kind in [3, 5] {
        assert_eq!(rt; with_body(kind, &[0]), 0);
        assert_eq!(rt; with_body(kind, &[1]), 0);
        assert_eq!(rt; with_body(kind, &[2]), 1);
        assert_eq!(rt; with_body(kind, &[255]), 1);
        assert_eq!(rt; with_body(kind, &[]), 1);
        assert_eq!(rt; with_body(kind, &[1, 0]), 1);
    }
}

#[test]
fn some_kinds_have_no_body(rt: HostRuntime) {
    for kind in [4, 6, 7] {
        assert_eq!(rt; with_body(kind, &[]), 0);
        assert_eq!(rt; with_body(kind, &[0]), 1);
    }
    for kind in [0, 8, 255] {
        assert_eq!(rt; with_body(kind, &[]), 1);
        assert_eq!(rt; with_body(kind, &[0]), 1);
    }
}

#[test]
fn only_a_yes_carries_reads(rt: HostRuntime) {
    for vote in 0..5 {
        assert_eq!(rt; with_body(2, &[vote]), 0, "{}", vote);
    }
    assert_eq!(rt; with_body(2, &[]), 1);
    assert_eq!(rt; with_body(2, &[5]), 1);
    assert_eq!(rt; with_body(2, &[255]), 1);
    assert_eq!(rt; with_body(2, &[0, 24]), 0);
    for vote in 1..6 {
        assert_eq!(rt; with_body(2, &[vote, 24]), 1, "{}", vote);
    }
    assert_eq!(rt; with_body(2, &[0; 129]), 0);
    assert_eq!(rt; with_body(2, &[0; 130]), 1);
}

#[test]
fn a_prepare_has_one_to_eight_items(rt: HostRuntime) {
    assert_eq!(rt; with_body(1, &[255, 1, 2, 0, 0, 5, 16]), 0);
    assert_eq!(rt; with_body(1, &[0, 1, 2, 9, 0, 5, 1]), 0);
    assert_eq!(rt; with_body(1, &[3, 1, 2, 0, 0, 5, 17]), 1);
    assert_eq!(rt; with_body(1, &[3, 1, 2, 0, 0, 5, 1, 0]), 1);
    assert_eq!(rt; with_body(1, &[3, 2, 2, 0, 0, 5, 1]), 1);
    assert_eq!(rt; with_body(1, &[3, 0]), 1);
    assert_eq!(rt; with_body(1, &[3]), 1);
    assert_eq!(rt; with_body(1, &[]), 1);
}

#[test]
fn one_byte_decides(rt: HostRuntime) {
    let cases = [
        (0, 1, 1),
        (1, 10, 1),
        (1, 12, 1),
        (2, 0, 1),
        (2, 2, 1),
        (3, 5, 0),
        (3, 4, 1),
        (4, 1, 1),
        (5, 6, 1),
        (6, 0, 0),
        (6, 2, 0),
        (6, 3, 1),
        (7, 1, 1),
        (8, 8, 1),
        (9, 1, 1),
        (9, 2, 0),
        (9, 3, 1),
        (10, 255, 0),
        (12, 0, 0),
        (12, 2, 1),
    ];
    for (place, value, expected) in cases {
        assert_eq!(rt;
            answer(&changed(FINISH, place, value)),
            expected,
            "{value} at {place}"
        );
    }
}

/// As a request, compare ten bytes of node 7; as a prepare, tid 263 from node 10 to node 0.
const BOTH: [u8; 19] = [
    0x00, 0x11, 0x01, 0x01, 0x01, 0x07, 0x00, 0x00, 0x0a, 0x00, 0x00, 0x00, 0x01, 0x01, 0x02, 0x00,
    0x00, 0x05, 0x02,
];

#[test]
fn a_record_may_be_a_request_and_a_message(rt: HostRuntime) {
    assert!(rt; read_request(&BOTH).is_ok());
    assert_eq!(rt; kind(&BOTH), 1);
    assert!(rt; read_request(&FINISH).is_err());
}
