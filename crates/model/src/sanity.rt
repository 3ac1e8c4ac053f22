//! Functions without code of their own, whose contracts are theorems about the rules.

ghost use Rattle.model.specs.Bookkeeping.{DeedsTellAll, WritesAreTotal};
ghost use Rattle.model.specs.Bounds.{EveryHistoryIsBounded, EveryJournalIsBounded, EveryMemoryKeepsItsSize};
ghost use Rattle.model.specs.EdgeCases.{EdgeCases};
ghost use Rattle.model.specs.Progress.{SomeHistoryProgresses};
ghost use Rattle.model.specs.Unreached.{NoTableFillsFirst};

/// The rules answer as they must in eight cases at their edges.
pub fn edge_cases_stand()
    ensures { EdgeCases }
{}

/// The laws speak of something: in some history a minitransaction is committed, applied and collected.
pub fn some_history_progresses()
    ensures { SomeHistoryProgresses }
{}

/// What a history keeps of a call is all that the call did to what lasts.
pub fn deeds_tell_all()
    ensures { DeedsTellAll }
{}

/// No history passes the bounds of a cluster, and none alters the number of its nodes.
pub fn every_history_is_bounded()
    ensures { EveryHistoryIsBounded }
{}

/// In every history each journal stays within its bounds and each memory keeps its size.
pub fn every_store_is_bounded()
    ensures journals { EveryJournalIsBounded }
    ensures memories { EveryMemoryKeepsItsSize }
{}

/// A write that its store refuses alters nothing.
pub fn writes_are_total()
    ensures { WritesAreTotal }
{}

/// The table of minitransactions in doubt is never full before the journal: what the rules say of it adds nothing.
pub fn no_table_fills_first()
    ensures { NoTableFillsFirst }
{}
