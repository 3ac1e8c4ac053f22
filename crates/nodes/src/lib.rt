//! Memory nodes: the participant's side of every minitransaction, over any memory and any journal.

#![tactic(auto)]

pub mod access;
pub mod budget;
pub mod doubts;
mod envelope;
mod handling;
pub mod locks;
mod promises;
pub mod reads;
pub mod response;
pub mod state;
pub mod table;
pub mod unresolved;
