//! What every layer speaks of: refusals, votes, parties, conditions and outcomes as plain values,
//! and in specs/ the formats and the rules that the other crates are proved against.

#![tactic(auto)]

pub mod condition;
pub mod formats;
pub mod laws;
pub mod numbers;
pub mod outcome;
pub mod participants;
pub mod party;
pub mod range;
pub mod refusal;
pub mod sanity;
pub mod vote;
