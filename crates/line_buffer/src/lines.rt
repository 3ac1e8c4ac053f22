//! The held lines, without the memory below, and a piece of a write that goes into one of them.

ghost use Rattle.std.specs.Prelude.{◌≡◌, ℕ, ◌+◌, ◌%◌, ◌<◌, ◌≤◌, true, false, ◌⊎◌, [], length, IfSome, IfOk, MatchOption, vec_len, vec_capacity, slice_index, get_or};
ghost use Rattle.std.specs.List.{remove};
ghost use Rattle.model.specs.Numbers.{most_bytes};
ghost use Rattle.line_buffer.specs.Lines.{line_bytes, most_lines, numbers, numbers_with, member, apart, held_at, laid, overlaid, takes};

use crate::line::{LINE_BYTES, Line, MOST_LINES};
use memory::Memory;
use std::alloc::{AllocError, Global};

/// Bytes to be written from an address on that lie within one line.
#[derive(Clone, Copy)]
pub(crate) struct Piece<'a> {
    pub(crate) at: usize,
    pub(crate) bytes: &'a [u8],
    ghost address: { at < most_bytes },
    ghost inside: { at % line_bytes + length bytes.now ≤ line_bytes },
}

impl Piece<'_> {
    ghost use Rattle.line_buffer.specs.Held.{line_of};

    /// The number of its line.
    pub(crate) fn number(self) -> u8
        ensures { result ≡ line_of self.entry }
    {
        (self.at / LINE_BYTES) as u8
    }

    /// Where in its line it begins.
    pub(crate) fn offset(self) -> usize
        ensures { result ≡ self.entry.at % line_bytes }
    {
        self.at % LINE_BYTES
    }
}

/// Up to eight lines, of which no two have the same number.
#[derive(Drop)]
pub(crate) struct HeldLines {
    // Oldest first.
    pub(crate) lines: Vec<Line>,
    ghost few: { vec_len lines ≤ most_lines },
    ghost reserved: { most_lines ≤ vec_capacity lines },
    ghost distinct: { apart (numbers lines.items) ≡ true },
}

impl HeldLines {
    ghost use Rattle.line_buffer.specs.Held.{line_of, held_with};

    /// No line yet, with room for all of them.
    pub(crate) fn new(heap: Global) -> Result<HeldLines, AllocError>
        ensures { IfOk result (λ h. h.lines.items ≡ []) }
    {
        Ok(HeldLines {
            lines: Vec::with_capacity(heap, MOST_LINES)?,
        })
    }

    /// Lays all held bytes over those that were read from the address `at` on.
    pub(crate) fn overlay(&self, at: usize, out: &mut [u8])
        ensures { out.new ≡ laid at (held_at self.now.lines.items) out.old }
    {
        for line in &self.lines {
            line.lay(at, out);
        }
    }

    /// Writes all held bytes to the memory below.
    // Beside `overlay`: a closure for the one step that differs would need clauses longer than the loop.
    pub(crate) fn write_back<M: Memory>(&self, below: &mut M)
        ensures { M.bytes below.new ≡ overlaid self.now.lines.items (M.bytes below.old) }
    {
        for line in &self.lines {
            line.write_back(below);
        }
    }

    /// The place of the line with the given number, if it is held.
    fn find(&self, number: u8) -> Option<usize>
        ensures { MatchOption result (member number (numbers self.now.lines.items) ≡ false) (λ i. (i < length self.now.lines.items) × (slice_index (numbers self.now.lines.items) i ≡ number)) }
    {
        self.lines.iter().position(|line| line.number == number)
    }

    /// Whether the line with the given number is held, or there is a free place for it.
    pub(crate) fn has_place(&self, number: u8) -> bool
        ensures { result ≡ takes (numbers self.now.lines.items) number }
    {
        self.find(number).is_some() || self.lines.len() < MOST_LINES
    }

    /// The place of the oldest line that lies outside the lines from `first` to `last`.
    pub(crate) fn oldest_outside(&self, first: u8, last: u8) -> Option<usize>
        ensures { IfSome result (λ i. (i < length self.now.lines.items) × ((slice_index (numbers self.now.lines.items) i < first) ⊎ (last < slice_index (numbers self.now.lines.items) i))) }
    {
        self.lines
            .iter()
            .position(|line| line.number < first || line.number > last)
    }

    /// Holds a piece of a write, whose line is given a place if it has none.
    pub(crate) fn hold(&mut self, piece: Piece<'_>)
        requires { takes (numbers self.old.lines.items) (line_of piece) ≡ true }
        ensures held { (k : ℕ) → held_at self.new.lines.items k ≡ held_with self.old piece.entry k }
        ensures numbers { numbers self.new.lines.items ≡ numbers_with (numbers self.old.lines.items) (line_of piece.entry) }
        ensures capacity { vec_capacity self.new.lines ≡ vec_capacity self.old.lines }
    {
        let number = piece.number();
        match self.find(number) {
            Some(i) => self.lines[i] = self.lines[i].with(piece.offset(), piece.bytes),
            None => self
                .lines
                .push_reserved(Line::blank(number).with(piece.offset(), piece.bytes)),
        }
    }

    /// Takes one line out.
    pub(crate) fn take(&mut self, i: usize) -> Line
        requires { i < vec_len self.old.lines }
        ensures line { result ≡ get_or self.old.lines.items i result }
        ensures lines { self.new.lines.items ≡ remove self.old.lines.items i }
    {
        self.lines.remove(i)
    }

    /// Holds nothing any more.
    // That nothing is held stands as `≡ []` in each contract: a word for it would be no plainer.
    pub(crate) fn clear(&mut self)
        ensures { self.new.lines.items ≡ [] }
    {
        self.lines.clear();
    }
}
