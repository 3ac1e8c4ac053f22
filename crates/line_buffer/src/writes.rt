//! Writes from the buffer to the memory below.

ghost use Rattle.std.specs.Prelude.{◌≡◌, ℕ, ◌+◌, ◌/◌, ◌<◌, ◌≤◌, Bool, true, false, List, [], length, if◌then◌else◌, None, vec_len, nat_eq, slice_index};
ghost use Rattle.std.specs.List.{remove};
ghost use Rattle.model.specs.Memory.{splice, AllDurable, Kept, Survived};
ghost use Rattle.model.specs.Numbers.{most_bytes};
ghost use Rattle.line_buffer.specs.Lines.{line_bytes, most_lines, numbers, held_at, laid, takes, KeptBut};
ghost use Rattle.line_buffer.specs.Held.{shown, lasting, lines_wanted, line_of, held_with, WritesBack, WritesPiece};

use crate::buffer::LineBuffer;
use crate::line::LINE_BYTES;
use crate::lines::Piece;
use memory::Memory;

impl<M: Memory> LineBuffer<M> {
    /// Writes one line back and holds it no more.
    fn evict(&mut self, i: usize)
        requires { i < vec_len self.old.held.lines }
        ensures lines { self.new.held.lines.items ≡ remove self.old.held.lines.items i }
        ensures bytes { M.bytes self.new.below ≡ laid 0 (λ k. (if nat_eq (slice_index (numbers self.old.held.lines.items) i) (k / line_bytes) then held_at self.old.held.lines.items k else None)) (M.bytes self.old.below) }
        ensures durable { KeptBut (held_at self.old.held.lines.items) (M.durable self.old.below) (M.durable self.new.below) }
    {
        let line = self.held.take(i);
        line.write_back(&mut self.below);
    }

    /// Writes a piece; the lines after its own up to `last` are still to be written.
    fn put(&mut self, piece: Piece<'_>, last: u8)
        requires { piece.at + length piece.bytes.now ≤ length (M.bytes self.old.below) }
        ensures back { WritesPiece self.old.held (M.bytes self.old.below) piece.entry last self.new.held (M.bytes self.new.below) }
        ensures lazy { takes (numbers self.old.held.lines.items) (line_of piece.entry) ≡ true → self.new.below ≡ self.old.below }
        ensures durable { KeptBut (held_with self.old.held piece.entry) (M.durable self.old.below) (M.durable self.new.below) }
    {
        if self.held.has_place(piece.number()) {
            self.held.hold(piece);
        } else {
            self.put_over(piece, last);
        }
    }

    /// Writes a piece for whose line there is no place: the oldest line that is not still to be written goes
    /// back for it, or, if all are, the piece itself.
    fn put_over(&mut self, piece: Piece<'_>, last: u8)
        requires range { piece.at + length piece.bytes.now ≤ length (M.bytes self.old.below) }
        requires full { takes (numbers self.old.held.lines.items) (line_of piece) ≡ false }
        ensures back { WritesPiece self.old.held (M.bytes self.old.below) piece.entry last self.new.held (M.bytes self.new.below) }
        ensures durable { KeptBut (held_with self.old.held piece.entry) (M.durable self.old.below) (M.durable self.new.below) }
    {
        match self.held.oldest_outside(piece.number(), last) {
            Some(i) => {
                self.evict(i);
                self.held.hold(piece);
            }
            None => {
                let _ = self.below.write(piece.at, piece.bytes);
            }
        }
    }

    /// Writes bytes line by line.
    pub(crate) fn put_all(&mut self, at: usize, from: &[u8])
        requires range { at + length from.now ≤ length (shown self.old.held (M.bytes self.old.below)) }
        requires bound { length (shown self.old.held (M.bytes self.old.below)) ≤ most_bytes }
        ensures bytes { shown self.new.held (M.bytes self.new.below) ≡ splice (shown self.old.held (M.bytes self.old.below)) at from.now }
        ensures kept { Kept (lasting self.old.held (M.durable self.old.below)) (lasting self.new.held (M.durable self.new.below)) at (length from.now) }
        ensures back { WritesBack self.old.held (M.bytes self.old.below) at from.now self.new.held (M.bytes self.new.below) }
        ensures lazy { lines_wanted self.old.held at (length from.now) ≤ most_lines → self.new.below ≡ self.old.below }
    {
        if from.is_empty() {
            return;
        }
        let last = (at + from.len() - 1) / LINE_BYTES;
        for number in at / LINE_BYTES..=last {
            let start = at.max(number * LINE_BYTES);
            let end = (at + from.len()).min(number * LINE_BYTES + LINE_BYTES);
            let piece = Piece {
                at: start,
                bytes: &from[start - at..end - at],
            };
            self.put(piece, last as u8);
        }
    }

    /// Writes all lines back, so that the memory below shows by itself and its bytes are as durable as they are there.
    pub(crate) fn drain(&mut self)
        ensures lines { self.new.held.lines.items ≡ [] }
        ensures bytes { M.bytes self.new.below ≡ shown self.old.held (M.bytes self.old.below) }
        ensures shown { (ys : List ℕ) → shown self.new.held ys ≡ ys }
        ensures free { (d : ℕ → Bool) → AllDurable d → AllDurable (lasting self.new.held d) }
    {
        self.held.write_back(&mut self.below);
        self.held.clear();
    }

    /// Holds nothing any more: what survives below is what survives.
    pub(crate) fn forget(&mut self)
        ensures lines { self.new.held.lines.items ≡ [] }
        ensures below { self.new.below ≡ self.old.below }
        ensures free { (d : ℕ → Bool) → AllDurable d → AllDurable (lasting self.new.held d) }
        ensures survivors { (ys : List ℕ) → Survived (M.bytes self.new.below) (M.durable self.new.below) ys → Survived (shown self.old.held (M.bytes self.old.below)) (lasting self.old.held (M.durable self.old.below)) (shown self.new.held ys) }
        ensures under { (ys : List ℕ) → Survived (M.bytes self.new.below) (M.durable self.new.below) ys → Survived (M.bytes self.old.below) (M.durable self.old.below) ys }
    {
        self.held.clear();
    }
}
