//! Messages between memory nodes, coordinators and recoveries: reading and writing their records.

#![tactic(auto)]

pub mod layout;
pub mod message;
pub mod reader;
pub mod writer;
