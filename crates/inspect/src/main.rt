//! Says of each line of hexadecimal digits on standard input what record it is.

#![tactic(auto)]

mod again;
mod describe;
mod items;
mod words;

use describe::describe;
use std::io::{BufRead, BufReader};
use text::line::without_last;

/// Answers line by line, to the end of the input.
fn main(rt: HostRuntime) -> anyhow::Result<()> {
    let heap = rt.alloc();
    let mut input = BufReader::new(heap, rt.stdin())?;
    // One vector for all lines: `split` allocates one for each.
    let mut line = Vec::new(heap);
    for _ in 0..u64::MAX {
        line.clear();
        if input.read_until(b'\n', &mut line)? == 0 {
            break;
        }
        rt.print(describe(heap, without_last(line.as_slice(), b'\n'))?)?;
    }
    Ok(())
}
