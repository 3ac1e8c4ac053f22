//! What a vote carries: the bytes that a minitransaction reads at one node.

ghost use Rattle.std.specs.Prelude.{◌≡◌, ◌+◌, ◌≤◌, true, [], ◌++◌, length};
ghost use Rattle.model.specs.Cells.{read_at};
ghost use Rattle.model.specs.ItemFormat.{is_item};
ghost use Rattle.model.specs.Numbers.{longest_item, most_items, most_reads};
ghost use Rattle.model.specs.Ranges.{read_item, read_items};
ghost use Rattle.records.specs.Meaning.{item_meaning};
ghost use Rattle.records.specs.Cursor.{items_meaning};
ghost use Rattle.nodes.specs.Reading.{read_bytes};

use memory::Memory;
use model::numbers::MOST_READS;
use records::item::Item;
use records::items::Items;

/// Up to 128 bytes that were read, in item order.
// An array with a length: what a node keeps is of fixed size, without a heap, and copied freely as an ArrayVec is not.
#[derive(Clone, Copy)]
pub struct Reads {
    /// How many there are.
    pub length: usize,
    /// The bytes; what stands behind the last says nothing.
    pub bytes: [u8; MOST_READS],
}

impl Reads {
    /// No bytes.
    pub fn none() -> Reads
        ensures bytes { read_bytes result ≡ [] }
        ensures count { result.length ≡ 0 }
    {
        Reads {
            length: 0,
            bytes: [0; MOST_READS],
        }
    }

    /// Reads some bytes behind those that were read before; a range past the end of the memory gives none.
    fn read_at<M: Memory>(&mut self, memory: &M, address: u16, length: u8)
        requires room { self.old.length + longest_item ≤ most_reads }
        requires short { length ≤ longest_item }
        ensures bytes { read_bytes self.new ≡ read_bytes self.old ++ read_at (M.bytes memory.now) address length }
        ensures count { self.new.length ≤ self.old.length + longest_item }
    {
        let end = self.length + length as usize;
        let found = &mut self.bytes[self.length..end];
        if memory.read(address as usize, found).is_ok() {
            self.length = end;
        }
    }

    /// Reads what an item reads behind those bytes that were read before.
    fn read_item<M: Memory>(&mut self, memory: &M, item: &Item<'_>)
        requires room { self.old.length + longest_item ≤ most_reads }
        requires form { is_item (item_meaning item.now) ≡ true }
        ensures bytes { read_bytes self.new ≡ read_bytes self.old ++ read_item (M.bytes memory.now) (item_meaning item.now) }
        ensures count { self.new.length ≤ self.old.length + longest_item }
    {
        if let Item::Read {
            address,
            length,
            ..
        } = item
        {
            self.read_at(memory, *address, *length);
        }
    }
}

/// The bytes that the items of a list read, in item order.
pub(crate) fn read_items<M: Memory>(memory: &M, items: Items<'_>) -> Reads
    requires { length (items_meaning items) ≤ most_items }
    ensures bytes { read_bytes result ≡ read_items (M.bytes memory.now) (items_meaning items.entry) }
    ensures count { result.length ≤ most_reads }
{
    let mut reads = Reads::none();
    for item in items {
        reads.read_item(memory, &item);
    }
    reads
}
