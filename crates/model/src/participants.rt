//! The participants of a minitransaction as a byte, bit q set for node q.

ghost use Rattle.std.specs.Prelude.{◌≡◌, true, false, ◌&&◌, ◌||◌, get_or, ◌==◌, nat_lt, slice_index_or, slice_set};
ghost use Rattle.model.specs.Numbers.{most_nodes};
ghost use Rattle.model.specs.Participants.{includes as is_participant, every_member};

use crate::numbers::MOST_NODES;

/// Whether a node takes part; a cluster has no node beyond the fourth.
pub fn includes(participants: u8, node: u16) -> bool
    ensures { result ≡ (nat_lt node most_nodes && is_participant participants node) }
{
    (node as usize) < MOST_NODES && participants & (1 << node) != 0
}

/// Whether something holds of every participant, given of which nodes it holds.
pub fn every_member(participants: u8, holds: &[bool; MOST_NODES]) -> bool
    ensures { result ≡ every_member (λ q. get_or holds.now q false) participants }
{
    (0..4)
        .zip(holds)
        .all(|(node, held)| *held || !includes(participants, node))
}

/// Whether something holds of every participant but one, given of which nodes it holds.
pub fn every_other(participants: u8, one: u16, holds: &[bool; MOST_NODES]) -> bool
    ensures { result ≡ every_member (λ q. (q == one) || slice_index_or holds.now q false) participants }
{
    let mut others = *holds;
    mark_node(&mut others, one);
    every_member(participants, &others)
}

/// Marks one node more; a cluster has no node beyond the fourth.
pub fn mark_node(flags: &mut [bool; MOST_NODES], node: u16)
    ensures { flags.new ≡ slice_set flags.old node true }
{
    // A test in place of get_mut, whose contract does not say what the array is once the flag is written: no proof closed.
    let place = node as usize;
    if place < MOST_NODES {
        flags[place] = true;
    }
}
