//! Requests, whole and damaged.

use crate::answers::{changed, number_of};
use records::item::Item;
use records::request::read_request;
use std::test::Fail;

/// One item: write 0x18 at address 5 of node 0.
pub(crate) const SAMPLE: [u8; 10] = [0x00, 0x08, 0x01, 0x01, 0x03, 0x00, 0x00, 0x05, 0x01, 0x18];

/// Compare two bytes of node 0, read three of node 1, write one of node 2.
const THREE_ITEMS: [u8; 22] = [
    0x00, 0x14, 0x01, 0x03, 0x01, 0x00, 0x00, 0x05, 0x02, 0x18, 0x19, 0x02, 0x01, 0x01, 0x02, 0x03,
    0x03, 0x02, 0xff, 0xff, 0x01, 0xab,
];

/// Nine reads, one more than a request has.
const NINE_READS: [u8; 49] = [
    0, 47, 1, 9, 2, 0, 0, 0, 1, 2, 0, 0, 1, 1, 2, 0, 0, 2, 1, 2, 0, 0, 3, 1, 2, 0, 0, 4, 1, 2, 0,
    0, 5, 1, 2, 0, 0, 6, 1, 2, 0, 0, 7, 1, 2, 0, 0, 8, 1,
];

/// 0 where the bytes are a request, else the refusal's number.
fn answer(bytes: &[u8]) -> u8 {
    number_of(read_request(bytes))
}

#[test]
fn the_sample_writes_one_byte(rt: HostRuntime) -> Result<(), Fail> {
    let mut items = read_request(&SAMPLE)?;
    match items.next_item() {
        Some(
            Item::Write {
                node,
                address,
                data,
            },
        ) => {
            assert_eq!(rt; node, 0);
            assert_eq!(rt; address, 5);
            assert_eq!(rt; data, &SAMPLE[9..]);
        }
        _ => return Err(Fail::new("no write")),
    }
    assert!(rt; items.next_item().is_none());
    Ok(())
}

#[test]
fn items_come_in_order(rt: HostRuntime) -> Result<(), Fail> {
    let items = read_request(&THREE_ITEMS)?;
    assert_eq!(rt; items.len(), 3);
    for (next, item) in items.enumerate() {
        match item {
            Item::Compare { node, data, .. } => {
                assert_eq!(rt; node as usize, next);
                assert_eq!(rt; data, &THREE_ITEMS[9..11]);
            }
            Item::Read {
                node,
                address,
                length,
            } => {
                assert_eq!(rt; node as usize, next);
                assert_eq!(rt; address, 258);
                assert_eq!(rt; length, 3);
            }
            Item::Write { node, address, .. } => {
                assert_eq!(rt; node as usize, next);
                assert_eq!(rt; address, 65535);
            }
        }
    }
    Ok(())
}

#[test]
fn one_byte_decides(rt: HostRuntime) {
    let cases = [
        (1, 8, 0),
        (0, 1, 1),
        (1, 7, 1),
        (1, 9, 1),
        (2, 0, 1),
        (2, 2, 1),
        (3, 0, 1),
        (3, 2, 1),
        (3, 9, 1),
        (4, 0, 1),
        (4, 1, 0),
        (4, 2, 1),
        (4, 4, 1),
        (5, 255, 0),
        (6, 255, 0),
        (8, 0, 1),
        (8, 2, 1),
        (9, 255, 0),
    ];
    for (place, value, expected) in cases {
        assert_eq!(rt;
            answer(&changed(SAMPLE, place, value)),
            expected,
            "{value} at {place}"
        );
    }
}

/// A request of one item with this kind and length byte, and so many bytes behind it.
fn one_item(kind: u8, length: u8, held: u8) -> u8 {
    let mut bytes = [0; 264];
    let [high, low] = (7 + held as u16).to_be_bytes();
    bytes[..9].copy_from_slice(&[high, low, 1, 1, kind, 0, 0, 0, length]);
    answer(&bytes[..9 + held as usize])
}

#[test]
fn an_item_has_one_to_sixteen_bytes(rt: HostRuntime) {
    let cases = [
        (1, 0, 0, 1),
        (1, 1, 1, 0),
        (1, 16, 16, 0),
        (1, 17, 17, 1),
        (3, 0, 0, 1),
        (3, 16, 16, 0),
        (3, 17, 17, 1),
        (3, 255, 255, 1),
        (3, 2, 1, 1),
        (3, 1, 2, 1),
        (2, 0, 0, 1),
        (2, 1, 0, 0),
        (2, 16, 0, 0),
        (2, 17, 0, 1),
        (2, 1, 1, 1),
        (0, 1, 1, 1),
        (4, 1, 1, 1),
    ];
    for (kind, length, held, expected) in cases {
        assert_eq!(rt;
            one_item(kind, length, held),
            expected,
            "kind {kind}, length {length}, {held} bytes"
        );
    }
}

/// A request with this count byte and so many reads.
// A number, as the answers of the tables.
fn reads(count: u8, items: usize) -> u8 {
    if items > 9 {
        return 0;
    }
    let mut bytes = NINE_READS;
    bytes[1] = (2 + 5 * items) as u8;
    bytes[3] = count;
    answer(&bytes[..4 + 5 * items])
}

#[test]
fn a_request_has_one_to_eight_items(rt: HostRuntime) {
    let cases = [
        (0, 0, 1),
        (1, 1, 0),
        (2, 2, 0),
        (8, 8, 0),
        (9, 9, 1),
        (0, 1, 1),
        (1, 0, 1),
        (1, 2, 1),
        (8, 7, 1),
        (8, 9, 1),
        (255, 9, 1),
    ];
    for (count, items, expected) in cases {
        assert_eq!(rt; reads(count, items), expected, "{count} for {items}");
    }
}

#[test]
fn no_prefix_is_a_request(rt: HostRuntime) {
    assert_eq!(rt; answer(&THREE_ITEMS), 0);
    for size in 0..22 {
        assert_eq!(rt; answer(&THREE_ITEMS[..size]), 1, "{}", size);
    }
}

#[test]
fn a_byte_behind_the_record_is_refused(rt: HostRuntime) {
    let mut longer = [0; 11];
    longer[..10].copy_from_slice(&SAMPLE);
    assert_eq!(rt; answer(&longer), 1);
    longer[1] = 9;
    assert_eq!(rt; answer(&longer), 1);
}
