//! Examples of the record formats, worked out from docs/FORMATS.md. There is nothing here but tests.

#![tactic(auto)]

#[cfg(test)]
mod answers;
#[cfg(test)]
mod message_reading;
#[cfg(test)]
mod request_reading;
#[cfg(test)]
mod writing;
