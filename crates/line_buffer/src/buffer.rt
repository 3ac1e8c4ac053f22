//! The line buffer's fields.

use crate::lines::HeldLines;
use memory::Memory;

/// Holds back up to eight lines of sixteen bytes that were written to the memory below.
// No Model: clauses say which lines are held and what the memory below is, each by its field.
#[derive(Drop)]
pub struct LineBuffer<M: Memory> {
    pub(crate) below: M,
    pub(crate) held: HeldLines,
}
