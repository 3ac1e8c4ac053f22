//! Functions without code of their own, whose contracts are the laws of the whole cluster.

ghost use Rattle.model.specs.Laws.{EveryHistoryIsLawful};
ghost use Rattle.model.specs.Theorem.{EveryClusterIsLawful};

/// Every history that can be obeys the laws: agreement, shown bytes, serial comparisons and reads.
pub fn every_history_is_lawful()
    ensures { EveryHistoryIsLawful }
{}

/// Whatever history leads to what a running cluster shows, the cluster is the plain one that follows it,
/// the history is faithful, and it obeys the laws.
pub fn every_cluster_is_lawful()
    ensures { EveryClusterIsLawful }
{}
