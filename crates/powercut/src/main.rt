//! Cuts the power on each memory and says in plain words what survived.

#![tactic(auto)]

mod trial;

use line_buffer::LineBuffer;
use memory::Memory;
use memory::direct::DirectMemory;
use memory::shadow::ShadowMemory;
use std::alloc::{AllocError, Global};
use std::io;
use trial::{Outcome, try_memory};

const BYTES: usize = 160;

/// Prints what the trial of one memory came to.
fn report<M: Memory>(rt: &impl Print, name: &str, memory: &mut M) -> io::Result<()> {
    match try_memory(memory) {
        Ok(
            Outcome {
                flushed,
                unflushed,
                lines,
            },
        ) => {
            println!(rt; "{name}:")?;
            println!(rt; "  flushed bytes {flushed}")?;
            println!(rt; "  bytes not flushed {unflushed}")?;
            println!(rt; "  of nine lines not flushed, {lines} survived")
        }
        Err(refusal) => println!(rt; "{name}: refused with {refusal}"),
    }
}

/// A direct memory of zeros.
// Beside `shadow`, and their like in the tests of memories: a crate for functions of a line or three is no plainer.
fn direct(heap: Global) -> Result<DirectMemory, AllocError> {
    Ok(DirectMemory::new(vec![in heap; 0u8; BYTES]?))
}

/// A shadow memory of zeros.
fn shadow(heap: Global) -> Result<ShadowMemory, AllocError> {
    let working = vec![in heap; 0u8; BYTES]?;
    let image = vec![in heap; 0u8; BYTES]?;
    Ok(ShadowMemory::new(working, image))
}

fn main(rt: HostRuntime) -> io::Result<()> {
    let heap = rt.alloc();
    let mut plain = direct(heap)?;
    report(&rt, "direct memory", &mut plain)?;
    let mut shadowed = shadow(heap)?;
    report(&rt, "shadow memory", &mut shadowed)?;
    let mut over_direct = LineBuffer::new(heap, direct(heap)?)?;
    report(&rt, "line buffer over a direct memory", &mut over_direct)?;
    let mut over_shadow = LineBuffer::new(heap, shadow(heap)?)?;
    report(&rt, "line buffer over a shadow memory", &mut over_shadow)
}
