//! Table journals on examples. There is nothing here but tests.

#![tactic(auto)]

#[cfg(test)]
mod table;
