//! What one memory is put through.

ghost use Rattle.std.specs.Prelude.{◌≡◌, ◌≤◌, ◌↔◌, IfOk, Some};
ghost use Rattle.powercut.specs.Fates.{fate_text};
ghost use Rattle.powercut.specs.declared.trial.Fate.TheVariants.{Survived};

use line_buffer::{LINE_BYTES, MOST_LINES};
use memory::Memory;
use memory::survive::write_and_survive;
use model::refusal::Refusal;
use std::fmt;

/// One line more than a line buffer holds.
const LINES: usize = MOST_LINES + 1;

/// The byte that is written into each line.
const MARK: u8 = 5;

/// What became of bytes.
#[derive(Clone, Copy, PartialEq, Eq, Debug)]
pub enum Fate {
    /// They read as written.
    Survived,
    /// They read otherwise.
    Lost,
}

impl Fate {
    /// The fate of bytes that were written, by what is read back.
    fn of(written: &[u8], read: &[u8]) -> Fate
        ensures { (result ≡ Survived) ↔ (read.now ≡ written.now) }
    {
        if read == written {
            Fate::Survived
        } else {
            Fate::Lost
        }
    }
}

impl fmt::Display for Fate {
    ghost output = { λ fate. Some (fate_text fate) };

    fn fmt<W: fmt::Write>(&self, f: &mut fmt::Formatter<W>) -> fmt::Result {
        f.write_str(match self {
            Fate::Survived => "survived",
            Fate::Lost => "were lost",
        })
    }
}

/// What survived a loss of power.
#[derive(Clone, Copy)]
pub struct Outcome {
    /// What became of bytes that were flushed.
    pub flushed: Fate,
    /// What became of bytes that were not flushed.
    pub unflushed: Fate,
    /// How many of nine lines that were not flushed read as written.
    pub lines: usize,
}

/// Cuts the power on a memory with bytes flushed, with bytes not flushed, and with nine lines not flushed.
pub fn try_memory<M: Memory>(memory: &mut M) -> Result<Outcome, Refusal>
    ensures { IfOk result (λ o. (o.flushed ≡ Survived) × (o.lines ≤ 9)) }
{
    let mut back = [0u8; 3];
    write_and_survive(memory, 3, &[7, 8, 9], &mut back)?;
    let flushed = Fate::of(&[7, 8, 9], &back);
    memory.write(3, &[1, 2, 3])?;
    memory.restart();
    memory.read(3, &mut back)?;
    let unflushed = Fate::of(&[1, 2, 3], &back);
    write_lines(memory)?;
    memory.restart();
    let lines = count_lines(memory)?;
    Ok(Outcome {
        flushed,
        unflushed,
        lines,
    })
}

/// Writes a byte into each of nine lines.
fn write_lines<M: Memory>(memory: &mut M) -> Result<(), Refusal> {
    for line in 0..LINES {
        memory.write(line * LINE_BYTES, &[MARK])?;
    }
    Ok(())
}

/// How many of the nine lines hold that byte.
fn count_lines<M: Memory>(memory: &M) -> Result<usize, Refusal>
    ensures { IfOk result (λ n. n ≤ 9) }
{
    // By hand: a read may be refused, and `try_fold` with a closure that reads is longer.
    let mut count = 0;
    for line in 0..LINES {
        let mut byte = [0u8];
        memory.read(line * LINE_BYTES, &mut byte)?;
        if byte == [MARK] {
            count += 1;
        }
    }
    Ok(count)
}
