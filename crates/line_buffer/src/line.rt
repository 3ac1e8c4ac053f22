//! One held line. The lines of a memory are numbered from 0, so that 4,096 bytes have the lines 0 to 255.

ghost use Rattle.std.specs.Prelude.{◌≡◌, ◌+◌, ◌*◌, ◌≤◌, map, length, replicate, Some, None};
ghost use Rattle.model.specs.Memory.{splice};
ghost use Rattle.line_buffer.specs.Lines.{line_bytes, cell_at, only_at, laid, KeptBut};

use memory::Memory;

/// The bytes of one line.
pub const LINE_BYTES: usize = 16;

/// The lines that a buffer holds.
pub const MOST_LINES: usize = 8;

/// Sixteen neighbouring bytes of a memory: which of them were written, and their values.
#[derive(Clone, Copy)]
pub(crate) struct Line {
    pub(crate) number: u8,
    pub(crate) cells: [Option<u8>; LINE_BYTES],
}

impl Line {
    /// A line of which nothing is written yet.
    pub(crate) fn blank(number: u8) -> Line
        ensures number { result.number ≡ number }
        ensures cells { result.cells ≡ replicate 16 None }
    {
        Line {
            number,
            cells: [None; LINE_BYTES],
        }
    }

    /// The line with bytes written from the place `offset` on.
    pub(crate) fn with(mut self, offset: usize, from: &[u8]) -> Line
        requires { offset + length from.now ≤ line_bytes }
        ensures number { result.number ≡ self.number }
        ensures cells { result.cells ≡ splice self.cells offset (map Some from.now) }
        ensures width { length self.cells ≡ line_bytes }
    {
        // By index: with a `zip` of `iter_mut` no proof closed, since the check then knows nothing of what was written.
        for (i, b) in from.iter().enumerate() {
            self.cells[offset + i] = Some(*b);
        }
        self
    }

    /// The address of the first byte.
    fn start(self) -> usize
        ensures { result ≡ self.number * line_bytes }
    {
        usize::from(self.number) * LINE_BYTES
    }

    /// Lays the written bytes over those that were read from the address `at` on.
    pub(crate) fn lay(self, at: usize, out: &mut [u8])
        ensures { out.new ≡ laid at (cell_at self) out.old }
    {
        for (c, cell) in self.cells.iter().enumerate() {
            lay_cell(*cell, self.start() + c, at, out);
        }
    }

    /// Writes the written bytes to the memory below.
    // Beside `lay`: a closure for the one step that differs would need clauses longer than the loop.
    pub(crate) fn write_back<M: Memory>(self, below: &mut M)
        ensures bytes { M.bytes below.new ≡ laid 0 (cell_at self) (M.bytes below.old) }
        ensures durable { KeptBut (cell_at self) (M.durable below.old) (M.durable below.new) }
    {
        for (c, cell) in self.cells.iter().enumerate() {
            write_cell(*cell, self.start() + c, below);
        }
    }
}

/// Lays the byte of one address, if it was written, over those that were read from the address `at` on.
fn lay_cell(cell: Option<u8>, address: usize, at: usize, out: &mut [u8])
    ensures { out.new ≡ laid at (only_at address cell) out.old }
{
    if let Some(b) = cell {
        if at <= address && address - at < out.len() {
            out[address - at] = b;
        }
    }
}

/// Writes the byte of one address, if it was written, to the memory below; past its end there is none.
fn write_cell<M: Memory>(cell: Option<u8>, address: usize, below: &mut M)
    ensures bytes { M.bytes below.new ≡ laid 0 (only_at address cell) (M.bytes below.old) }
    ensures durable { KeptBut (only_at address cell) (M.durable below.old) (M.durable below.new) }
{
    if let Some(b) = cell {
        let _ = below.write(address, &[b]);
    }
}
