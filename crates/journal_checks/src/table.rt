//! What a table journal takes, refuses, keeps and loses.

use journal::journal::Journal;
use journal::lookup::entry_of;
use journal::promise::Promise;
use journal::retiring::enter_and_retire;
use journal::table::TableJournal;
use model::outcome::Outcome;
use model::refusal::Refusal;
use records::item::Item;
use records::item_set::{ItemSet, Selection};
use records::items::Items;
use std::alloc::{AllocError, Global};
use std::process::Abort;
use std::test::Fail;

/// Node 0: compare 0x07 at 1, read 4 bytes at 2, write 0x18 at 5.
const MIXED: [u8; 18] = [
    0x03, 0x01, 0x00, 0x00, 0x01, 0x01, 0x07, 0x02, 0x00, 0x00, 0x02, 0x04, 0x03, 0x00, 0x00, 0x05,
    0x01, 0x18,
];

/// Node 0: read 4 bytes at 2.
const READS: [u8; 6] = [0x01, 0x02, 0x00, 0x00, 0x02, 0x04];

/// A journal over tables with so many places.
fn made<const N: usize>(
    heap: Global,
    places: usize,
    forced_places: usize,
) -> Result<TableJournal<N>, AllocError> {
    let entries = Vec::with_capacity(heap, places)?;
    let forced = Vec::with_capacity(heap, forced_places)?;
    Ok(TableJournal::<N>::new(entries, forced))
}

/// What a yes vote on a minitransaction promises.
fn promise(tid: u16, participants: u8, writes: ItemSet) -> Promise {
    Promise {
        tid,
        participants,
        writes,
    }
}

/// What the entry at a place has for an outcome, if one stands there.
fn outcome_at<const N: usize>(journal: &TableJournal<N>, place: usize) -> Option<Option<Outcome>> {
    journal.entry(place).map(|entry| entry.outcome)
}

#[test]
fn one_entry_fills_a_journal_of_capacity_one(rt: HostRuntime) -> Result<(), Fail> {
    let mut journal = made::<1>(rt.alloc(), 1, 64)?;
    let writes = ItemSet::of(Items::parse(&MIXED)?, Selection::Writes);
    assert!(rt; journal.as_made());
    assert_eq!(rt; journal.places(), 1);
    assert_eq!(rt; journal.add(&promise(7, 1, writes)), Ok(0));
    assert_eq!(rt; journal.add(&promise(8, 1, writes)), Err(Refusal::NoRoom));
    assert_eq!(rt; journal.count(), 1);
    assert_eq!(rt; journal.drop_oldest(), Ok(()));
    assert_eq!(rt; journal.add(&promise(8, 1, writes)), Ok(0));
    assert_eq!(rt; journal.highest(), 2);
    assert!(rt; !journal.as_made());
    Ok(())
}

#[test]
fn sixteen_entries_fill_the_largest_journal(rt: HostRuntime) -> Result<(), Fail> {
    let mut journal = made::<16>(rt.alloc(), 16, 64)?;
    let writes = ItemSet::of(Items::parse(&MIXED)?, Selection::Writes);
    for place in 0..16 {
        assert_eq!(rt;
            journal.add(&promise(place as u16 + 1, 3, writes)),
            Ok(place),
            "{place}"
        );
    }
    assert_eq!(rt; journal.add(&promise(17, 3, writes)), Err(Refusal::NoRoom));
    assert_eq!(rt; journal.count(), 16);
    assert_eq!(rt; journal.highest(), 16);
    Ok(())
}

#[test]
fn sixty_four_forced_aborts_stand_and_no_more(rt: HostRuntime) -> Result<(), Fail> {
    let mut journal = made::<1>(rt.alloc(), 1, 64)?;
    for tid in 1..65 {
        assert_eq!(rt; journal.force(tid), Ok(()), "{tid}");
    }
    assert_eq!(rt; journal.force(65), Err(Refusal::NoRoom));
    assert!(rt; !journal.is_forced(65));
    assert_eq!(rt; journal.force(64), Ok(()));
    assert!(rt; journal.is_forced(64));
    Ok(())
}

#[test]
fn the_last_running_number_is_given_once(rt: HostRuntime) -> Result<(), Fail> {
    let mut journal = made::<1>(rt.alloc(), 1, 64)?;
    let writes = ItemSet::of(Items::parse(&READS)?, Selection::Writes);
    for tid in 1..=65535 {
        assert_eq!(rt; journal.add(&promise(tid, 1, writes)), Ok(0), "{tid}");
        assert_eq!(rt; journal.drop_oldest(), Ok(()), "{tid}");
    }
    assert_eq!(rt; journal.highest(), 65535);
    assert_eq!(rt; journal.count(), 0);
    assert_eq!(rt; journal.add(&promise(1, 1, writes)), Err(Refusal::NoRoom));
    Ok(())
}

#[test]
fn a_restart_loses_pending_outcomes_and_nothing_else(rt: HostRuntime) -> Result<(), Fail> {
    let mut journal = made::<4>(rt.alloc(), 4, 64)?;
    let writes = ItemSet::of(Items::parse(&MIXED)?, Selection::Writes);
    assert_eq!(rt; journal.add(&promise(5, 1, writes)), Ok(0));
    assert_eq!(rt; journal.add(&promise(6, 3, writes)), Ok(1));
    assert_eq!(rt; journal.force(9), Ok(()));
    journal.set_pointer(1);
    assert_eq!(rt; journal.note(5, true), Ok(()));
    assert_eq!(rt;
        outcome_at(&journal, 0),
        Some(Some(Outcome {
            commits: true,
            durable: false,
        }))
    );
    journal.flush();
    assert_eq!(rt; journal.note(6, false), Ok(()));
    journal.restart();
    assert_eq!(rt;
        outcome_at(&journal, 0),
        Some(Some(Outcome {
            commits: true,
            durable: true,
        }))
    );
    assert_eq!(rt; outcome_at(&journal, 1), Some(None));
    assert_eq!(rt; outcome_at(&journal, 2), None);
    assert!(rt; journal.is_forced(9));
    assert_eq!(rt; journal.pointer(), 1);
    assert_eq!(rt; journal.highest(), 2);
    Ok(())
}

#[test]
fn without_an_entry_nothing_is_dropped_or_noted(rt: HostRuntime) -> Result<(), Fail> {
    let mut journal = made::<4>(rt.alloc(), 4, 64)?;
    assert_eq!(rt; journal.drop_oldest(), Err(Refusal::NotReady));
    assert_eq!(rt; journal.note(1, true), Err(Refusal::NotReady));
    assert!(rt; journal.as_made());
    Ok(())
}

#[test]
fn the_oldest_entry_is_dropped(rt: HostRuntime) -> Result<(), Fail> {
    let mut journal = made::<4>(rt.alloc(), 4, 64)?;
    let writes = ItemSet::of(Items::parse(&MIXED)?, Selection::Writes);
    assert_eq!(rt; journal.add(&promise(5, 1, writes)), Ok(0));
    assert_eq!(rt; journal.add(&promise(6, 3, writes)), Ok(1));
    assert_eq!(rt; journal.drop_oldest(), Ok(()));
    assert!(rt; entry_of(&journal, 5).is_none());
    let Some(entry) = entry_of(&journal, 6) else {
        return Err(Fail::new("the younger entry is gone"));
    };
    assert_eq!(rt; entry.running, 2);
    assert_eq!(rt; entry.participants, 3);
    Ok(())
}

#[test]
fn an_entry_keeps_the_writes_of_its_list(rt: HostRuntime) -> Result<(), Fail> {
    let mut journal = made::<4>(rt.alloc(), 4, 64)?;
    let writes = ItemSet::of(Items::parse(&MIXED)?, Selection::Writes);
    assert_eq!(rt; journal.add(&promise(5, 1, writes)), Ok(0));
    let Some(entry) = entry_of(&journal, 5) else {
        return Err(Fail::new("there is no entry"));
    };
    let mut items = entry.writes;
    let Some(
        Item::Write {
            node,
            address,
            data,
        },
    ) = items.next_item()
    else {
        return Err(Fail::new("no write item"));
    };
    assert_eq!(rt; node, 0);
    assert_eq!(rt; address, 5);
    assert_eq!(rt; data, [0x18].as_slice());
    assert!(rt; items.next_item().is_none());
    Ok(())
}

#[test]
fn a_reader_has_an_entry_without_writes(rt: HostRuntime) -> Result<(), Fail> {
    let mut journal = made::<4>(rt.alloc(), 4, 64)?;
    let writes = ItemSet::of(Items::parse(&READS)?, Selection::Writes);
    assert_eq!(rt; journal.add(&promise(5, 1, writes)), Ok(0));
    let Some(entry) = entry_of(&journal, 5) else {
        return Err(Fail::new("there is no entry"));
    };
    assert_eq!(rt; entry.writes.len(), 0);
    Ok(())
}

/// The journal shows nothing, and takes nothing.
fn check_useless<const N: usize>(
    rt: &impl Abort,
    mut journal: TableJournal<N>,
    what: &str,
) -> Result<(), Fail> {
    let writes = ItemSet::of(Items::parse(&READS)?, Selection::Writes);
    assert!(rt; !journal.as_made(), "{what}");
    assert_eq!(rt; journal.places(), 0, "{what}");
    assert_eq!(rt;
        journal.add(&promise(1, 1, writes)),
        Err(Refusal::NoRoom),
        "{what}"
    );
    assert_eq!(rt; journal.force(1), Err(Refusal::NoRoom), "{what}");
    assert_eq!(rt; journal.count(), 0, "{what}");
    Ok(())
}

#[test]
fn tables_that_are_too_small_make_no_journal(rt: HostRuntime) -> Result<(), Fail> {
    check_useless(&rt, made::<4>(rt.alloc(), 3, 64)?, "a table of 3 entries")?;
    check_useless(
        &rt,
        made::<4>(rt.alloc(), 4, 63)?,
        "a table of 63 forced aborts",
    )?;
    check_useless(&rt, made::<0>(rt.alloc(), 4, 64)?, "capacity 0")?;
    check_useless(&rt, made::<17>(rt.alloc(), 17, 64)?, "capacity 17")
}

#[test]
fn a_flushed_outcome_goes_through_a_loss_of_power(rt: HostRuntime) -> Result<(), Fail> {
    let mut journal = made::<4>(rt.alloc(), 4, 64)?;
    let writes = ItemSet::of(Items::parse(&MIXED)?, Selection::Writes);
    assert_eq!(rt; journal.add(&promise(5, 1, writes)), Ok(0));
    assert_eq!(rt;
        enter_and_retire(&mut journal, &promise(6, 1, writes), true),
        Ok(())
    );
    assert_eq!(rt; journal.count(), 1);
    assert_eq!(rt;
        outcome_at(&journal, 0),
        Some(Some(Outcome {
            commits: true,
            durable: true,
        }))
    );
    Ok(())
}
