//! Which items must not be under way together.

ghost use Rattle.std.specs.Prelude.{◌≡◌};
ghost use Rattle.model.specs.Lists.{some};
ghost use Rattle.model.specs.Ranges.{overlap, clash as is_clash, clashing};
ghost use Rattle.records.specs.Meaning.{item_meaning};
ghost use Rattle.records.specs.Cursor.{items_meaning};

use records::item::Item;
use records::items::Items;

/// Whether two items of one node share a byte.
fn overlaps(one: &Item<'_>, other: &Item<'_>) -> bool
    ensures { result ≡ overlap (item_meaning one.now) (item_meaning other.now) }
{
    let start = one.address() as usize;
    let other_start = other.address() as usize;
    start < other_start.saturating_add(other.span())
        && other_start < start.saturating_add(one.span())
}

/// Whether two items of one node share a byte, and one of them writes it.
pub fn clash(one: &Item<'_>, other: &Item<'_>) -> bool
    ensures { result ≡ is_clash (item_meaning one.now) (item_meaning other.now) }
{
    (one.is_write() || other.is_write()) && overlaps(one, other)
}

/// Whether an item clashes with one of a list.
fn clashes_with(item: &Item<'_>, mut others: Items<'_>) -> bool
    ensures { result ≡ some (λ j. is_clash (item_meaning item.now) j) (items_meaning others.entry) }
{
    others.any(|other| clash(item, &other))
}

/// Whether an item of one list clashes with one of another.
pub fn lists_clash(mut items: Items<'_>, others: Items<'_>) -> bool
    ensures { result ≡ clashing (items_meaning items.entry) (items_meaning others.entry) }
{
    items.any(|item| clashes_with(&item, others))
}
