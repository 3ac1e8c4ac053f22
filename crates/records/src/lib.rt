//! Records of items: reading, walking and writing them.

#![tactic(auto)]

pub mod item;
pub mod item_set;
pub mod items;
pub mod lists;
pub mod record;
pub mod request;
pub mod writer;
