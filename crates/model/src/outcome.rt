//! How a minitransaction ended at a memory node.

/// The outcome that a journal has of an entry.
// Two flags, not an enum of four cases: either is read and set without the other.
#[derive(Clone, Copy, PartialEq, Eq, Debug)]
pub struct Outcome {
    /// Whether the minitransaction is committed; otherwise it is aborted.
    pub commits: bool,
    /// Whether the outcome is durable; otherwise it is pending, and a loss of power may take it.
    pub durable: bool,
}
