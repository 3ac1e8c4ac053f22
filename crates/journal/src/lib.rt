//! Journals: the redo logs of memory nodes, and the search by number that serves every table.

#![tactic(auto)]

pub mod bounds;
pub mod entry;
pub mod journal;
pub mod lookup;
pub mod promise;
pub mod retiring;
pub mod search;
pub mod table;
pub mod view;
