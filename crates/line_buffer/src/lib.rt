//! A buffer of written bytes over any memory, that writes back as late as it can.

#![tactic(auto)]

mod buffer;
pub mod calls;
mod line;
mod lines;
mod writes;

pub use buffer::LineBuffer;
pub use line::{LINE_BYTES, MOST_LINES};
