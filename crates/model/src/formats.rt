//! A function without code of its own, whose contract is what readers and writers of records rest on.

ghost use Rattle.model.specs.RoundTrips.{OneToOne};

/// Each request and each message has one record, which reads back as it, and each record is written again as it was read.
pub fn records_are_one_to_one()
    ensures { OneToOne }
{}
