//! What items do to one memory: comparing and writing.

ghost use Rattle.std.specs.Prelude.{◌≡◌, ℕ, ◌≤◌, true, not, length};
ghost use Rattle.model.specs.Cells.{matches_at};
ghost use Rattle.model.specs.Deeds.{touched_by};
ghost use Rattle.model.specs.ItemFormat.{is_item};
ghost use Rattle.model.specs.Numbers.{longest_item};
ghost use Rattle.model.specs.Ranges.{holds as is_true, all_hold, put_item};
ghost use Rattle.model.specs.Journal.{Journal as Log};
ghost use Rattle.model.specs.Writes.{put};
ghost use Rattle.nodes.specs.Budgets.{both, puts, MadeOne, Made};
ghost use Rattle.records.specs.Meaning.{item_meaning};
ghost use Rattle.records.specs.Cursor.{items_meaning};

use crate::budget::Budget;
use memory::Memory;
use model::numbers::LONGEST_ITEM;
use records::item::Item;
use records::item_set::Selection;
use records::items::Items;

/// Whether these very bytes stand at an address.
fn matches_at<M: Memory>(memory: &M, address: u16, wanted: &[u8]) -> bool
    requires { length wanted.now ≤ longest_item }
    ensures { result ≡ matches_at (M.bytes memory.now) address wanted.now }
{
    let mut buffer = [0; LONGEST_ITEM as usize];
    let found = &mut buffer[..wanted.len()];
    memory.read(address as usize, found).is_ok() && *found == *wanted
}

/// Whether a comparison is true; another item asks nothing.
fn holds<M: Memory>(memory: &M, item: &Item<'_>) -> bool
    requires { is_item (item_meaning item.now) ≡ true }
    ensures { result ≡ is_true (M.bytes memory.now) (item_meaning item.now) }
{
    match item {
        Item::Compare { address, data, .. } => matches_at(memory, *address, data),
        _ => true,
    }
}

/// Whether every comparison is true.
pub(crate) fn all_hold<M: Memory>(memory: &M, mut items: Items<'_>) -> bool
    ensures { result ≡ all_hold (M.bytes memory.now) (items_meaning items.entry) }
{
    items.all(|item| holds(memory, &item))
}

/// Writes a write item. One that passes the end of the memory is refused by it and alters nothing;
/// no item that was opened does.
fn put_item<M: Memory>(memory: &mut M, item: &Item<'_>)
    ensures bytes { M.bytes memory.new ≡ put_item (M.bytes memory.old) (item_meaning item.now) }
    ensures spared { (k : ℕ) → not (M.durable memory.new k) ≡ true → touched_by (put (item_meaning item.now)) k (not (M.durable memory.old k)) ≡ true }
{
    if let Item::Write { address, data, .. } = item {
        let _ = memory.write(*address as usize, data);
    }
}

/// Writes a write item, if the budget allows it.
// The test of the budget stands in each write, as in `promises`.
fn put_counted<M: Memory>(memory: &mut M, item: &Item<'_>, budget: &mut Budget)
    ensures { (j : Log) → MadeOne budget.old.left (put (item_meaning item.now)) (both (M.bytes memory.old) j) (M.durable memory.old) budget.new.left (both (M.bytes memory.new) j) (M.durable memory.new) }
{
    if budget.spend() {
        put_item(memory, item);
    }
}

/// Writes the selected items of a list, in item order, as far as the budget goes.
pub(crate) fn put_items<M: Memory>(
    memory: &mut M,
    items: Items<'_>,
    selection: Selection,
    budget: &mut Budget,
)
    ensures { (j : Log) → Made budget.old.left (puts selection (items_meaning items.entry)) (both (M.bytes memory.old) j) (M.durable memory.old) budget.new.left (both (M.bytes memory.new) j) (M.durable memory.new) }
{
    for item in items {
        if selection.takes(&item) {
            put_counted(memory, &item, budget);
        }
    }
}
