//! Tests of the memories, as tables of cases, and a further memory that only the trait knows of.

#![tactic(auto)]

pub mod counting;
#[cfg(test)]
mod tests;
