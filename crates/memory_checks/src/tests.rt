//! Each test runs a table of cases.

use crate::counting::CountingMemory;
use line_buffer::LineBuffer;
use memory::Memory;
use memory::direct::DirectMemory;
use memory::range::fits;
use memory::shadow::ShadowMemory;
use memory::survive::write_and_survive;
use model::refusal::Refusal;
use std::alloc::{AllocError, Global};
use std::process::Abort;
use std::test::Fail;

/// A direct memory of `count` zeros.
// Beside `shadow`, and their like in `powercut`: a crate for functions of a line or three is no plainer.
fn direct(heap: Global, count: usize) -> Result<DirectMemory, AllocError> {
    Ok(DirectMemory::new(vec![in heap; 0u8; count]?))
}

/// A shadow memory of halves with so many zeros.
fn shadow(heap: Global, working: usize, image: usize) -> Result<ShadowMemory, AllocError> {
    let working = vec![in heap; 0u8; working]?;
    let image = vec![in heap; 0u8; image]?;
    Ok(ShadowMemory::new(working, image))
}

/// The byte at an address, or 255 past the end.
fn byte_at<M: Memory>(memory: &M, at: usize) -> u8 {
    let mut out = [255u8; 1];
    let _ = memory.read(at, &mut out);
    out[0]
}

/// Whether the bytes at some addresses are as expected.
fn has_bytes<M: Memory>(memory: &M, expected: &[(usize, u8)]) -> bool {
    expected
        .iter()
        .all(|(at, byte)| byte_at(memory, *at) == *byte)
}

/// What a call within the bytes of a memory answers.
const DONE: Result<(), Refusal> = Ok(());

/// What a call that passes the end of a memory answers.
const PAST: Result<(), Refusal> = Err(Refusal::OutOfRange);

/// Whether a memory of 160 bytes refuses what passes its end, and nothing else.
fn check_ranges<M: Memory>(rt: &impl Abort, memory: &mut M) {
    let cases = [
        (0, 0, DONE),
        (0, 4, DONE),
        (156, 4, DONE),
        (160, 0, DONE),
        (157, 4, PAST),
        (160, 1, PAST),
        (161, 0, PAST),
        (usize::MAX, 0, PAST),
        (usize::MAX, 4, PAST),
        (usize::MAX - 3, 4, PAST),
    ];
    let data = [1u8, 2, 3, 4];
    for (at, count, expected) in cases {
        assert!(rt; count <= 4);
        let mut out = [9u8; 4];
        assert_eq!(rt; memory.write(at, &data[..count]), expected, "write");
        assert_eq!(rt; memory.read(at, &mut out[..count]), expected, "read");
        if expected.is_ok() && count == 4 {
            assert_eq!(rt; out, data, "read back");
        } else {
            assert_eq!(rt; out, [9; 4], "a refused read alters nothing");
        }
    }
}

#[test]
fn a_range_fits_up_to_the_end(rt: HostRuntime) {
    let cases = [
        (0, 0, 0, true),
        (0, 0, 1, false),
        (16, 16, 0, true),
        (16, 17, 0, false),
        (16, 15, 1, true),
        (16, 15, 2, false),
        (16, usize::MAX, 1, false),
        (16, 1, usize::MAX, false),
        (16, usize::MAX, usize::MAX, false),
    ];
    for (len, at, count, expected) in cases {
        assert_eq!(rt; fits(len, at, count), expected);
    }
}

#[test]
fn every_memory_refuses_what_passes_its_end(rt: HostRuntime) -> Result<(), Fail> {
    let heap = rt.alloc();
    check_ranges(&rt, &mut direct(heap, 160)?);
    check_ranges(&rt, &mut shadow(heap, 160, 160)?);
    check_ranges(&rt, &mut LineBuffer::new(heap, direct(heap, 160)?)?);
    check_ranges(
        &rt,
        &mut LineBuffer::new(heap, LineBuffer::new(heap, shadow(heap, 160, 160)?)?)?,
    );
    check_ranges(&rt, &mut CountingMemory::new(direct(heap, 160)?));
    Ok(())
}

#[test]
fn a_memory_given_too_much_has_no_bytes(rt: HostRuntime) -> Result<(), Fail> {
    let heap = rt.alloc();
    assert_eq!(rt; direct(heap, 4096)?.len(), 4096);
    assert_eq!(rt; direct(heap, 4097)?.len(), 0);
    assert_eq!(rt; direct(heap, 0)?.len(), 0);
    let cases = [
        (4096, 4096, 4096),
        (4097, 4097, 0),
        (16, 17, 0),
        (17, 16, 0),
        (0, 0, 0),
    ];
    for (working, image, expected) in cases {
        assert_eq!(rt; shadow(heap, working, image)?.len(), expected);
    }
    Ok(())
}

#[test]
fn a_shadow_memory_shows_the_image_after_a_restart(rt: HostRuntime) -> Result<(), Fail> {
    let heap = rt.alloc();
    let mut memory = shadow(heap, 4, 4)?;
    memory.write(1, &[7])?;
    memory.flush();
    memory.write(1, &[8, 9])?;
    assert_eq!(rt; byte_at(&memory, 1), 8);
    memory.restart();
    assert_eq!(rt; byte_at(&memory, 1), 7);
    assert_eq!(rt; byte_at(&memory, 2), 0);
    Ok(())
}

#[test]
fn eight_lines_are_held_and_the_ninth_sends_the_oldest_back(rt: HostRuntime) -> Result<(), Fail> {
    let heap = rt.alloc();
    let mut memory = LineBuffer::new(heap, direct(heap, 160)?)?;
    for line in 0..8usize {
        memory.write(line * 16, &[1])?;
        assert_eq!(rt;
            byte_at(memory.below(), 0),
            0,
            "nothing goes back before the ninth line"
        );
    }
    memory.write(8 * 16, &[1])?;
    for line in 0..9usize {
        assert_eq!(rt; byte_at(&memory, line * 16), 1);
        assert_eq!(rt; byte_at(memory.below(), line * 16), u8::from(line == 0));
    }
    memory.restart();
    assert_eq!(rt; byte_at(&memory, 0), 1);
    assert_eq!(rt; byte_at(&memory, 16), 0);
    Ok(())
}

#[test]
fn a_line_that_is_still_to_be_written_does_not_go_back(rt: HostRuntime) -> Result<(), Fail> {
    let heap = rt.alloc();
    let mut memory = LineBuffer::new(heap, direct(heap, 160)?)?;
    for line in 1..9usize {
        memory.write(line * 16, &[1])?;
    }
    memory.write(14, &[2, 2, 2, 2])?;
    assert_eq!(rt; byte_at(memory.below(), 16), 0, "line 1 is written too");
    assert_eq!(rt;
        byte_at(memory.below(), 32),
        1,
        "line 2 is the oldest of the others"
    );
    assert_eq!(rt;
        byte_at(memory.below(), 48),
        0,
        "one line was wanted, one went back"
    );
    assert_eq!(rt; byte_at(&memory, 16), 2);
    Ok(())
}

#[test]
fn a_write_longer_than_the_buffer_shows_whole(rt: HostRuntime) -> Result<(), Fail> {
    let heap = rt.alloc();
    let mut memory = LineBuffer::new(heap, direct(heap, 160)?)?;
    let data = [6u8; 150];
    memory.write(5, &data)?;
    let expected = [
        (4, 0),
        (5, 6),
        (16, 6),
        (127, 6),
        (128, 6),
        (154, 6),
        (155, 0),
    ];
    assert!(rt; has_bytes(&memory, &expected));
    memory.flush();
    memory.restart();
    assert!(rt; has_bytes(&memory, &expected));
    Ok(())
}

#[test]
fn of_a_partial_line_only_written_bytes_go_back(rt: HostRuntime) -> Result<(), Fail> {
    let heap = rt.alloc();
    let mut memory = LineBuffer::new(heap, DirectMemory::new(vec![in heap; 3u8; 20]?))?;
    memory.write(17, &[4])?;
    assert_eq!(rt; byte_at(memory.below(), 17), 3);
    memory.flush();
    let expected = [(15, 3), (16, 3), (17, 4), (18, 3), (19, 3), (20, 255)];
    assert!(rt; has_bytes(&memory, &expected));
    assert!(rt; has_bytes(memory.below(), &expected));
    Ok(())
}

#[test]
fn a_line_buffer_over_a_line_buffer_loses_what_neither_flushed(
    rt: HostRuntime,
) -> Result<(), Fail> {
    let heap = rt.alloc();
    let mut memory = LineBuffer::new(heap, LineBuffer::new(heap, direct(heap, 320)?)?)?;
    for line in 0..17usize {
        memory.write(line * 16, &[1])?;
    }
    assert_eq!(rt;
        byte_at(memory.below().below(), 0),
        1,
        "the seventeenth line sends one to the bottom"
    );
    assert_eq!(rt; byte_at(memory.below().below(), 16), 0);
    assert_eq!(rt; byte_at(memory.below(), 8 * 16), 1);
    memory.restart();
    for line in 0..17usize {
        assert_eq!(rt; byte_at(&memory, line * 16), u8::from(line == 0));
    }
    Ok(())
}

#[test]
fn what_was_flushed_survives_in_every_memory(rt: HostRuntime) -> Result<(), Fail> {
    let heap = rt.alloc();
    check_survives(&rt, &mut direct(heap, 64)?)?;
    check_survives(&rt, &mut shadow(heap, 64, 64)?)?;
    check_survives(&rt, &mut LineBuffer::new(heap, shadow(heap, 64, 64)?)?)?;
    let mut counting = CountingMemory::new(shadow(heap, 64, 64)?);
    check_survives(&rt, &mut counting)?;
    assert_eq!(rt; counting.flushes(), 1);
    Ok(())
}

/// Whether bytes come back that were written and flushed, also where a line ends among them.
fn check_survives<M: Memory>(rt: &impl Abort, memory: &mut M) -> Result<(), Fail> {
    let mut out = [0u8; 3];
    write_and_survive(memory, 15, &[1, 2, 3], &mut out)?;
    assert_eq!(rt; out, [1, 2, 3]);
    Ok(())
}
