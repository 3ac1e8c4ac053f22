//! The condition of a memory node.

/// What a memory node is doing.
#[derive(Clone, Copy, PartialEq, Eq, Debug)]
pub enum Condition {
    /// It takes part in minitransactions.
    Up,
    /// It has no power: it loses every message, and what was not durable is gone.
    Down,
    /// It has power again and asks how the entries without outcome ended.
    Recovering,
}
