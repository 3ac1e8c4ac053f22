//! Lines of text for the programs: hexadecimal digits and line ends.

#![tactic(auto)]

pub mod hex;
pub mod line;
