//! The bounds of a cluster, as the code uses them.

/// Items of one item list.
pub const MOST_ITEMS: u8 = 8;
/// Bytes that one item compares, reads or writes.
pub const LONGEST_ITEM: u8 = 16;
/// Bytes that one vote carries.
pub const MOST_READS: usize = 128;
/// Bytes of one memory.
pub const MOST_BYTES: usize = 4096;
/// Entries of one journal.
pub const MOST_ENTRIES: usize = 16;
/// Forced aborts of one journal.
pub const MOST_FORCED: usize = 64;
/// The last tid, recovery number and running number that can be given.
pub const LAST_NUMBER: u16 = 65535;
/// Nodes of one cluster.
pub const MOST_NODES: usize = 4;
