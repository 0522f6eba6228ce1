//! What usually causes the faults of each class, two lines each. `docs/REPORTS.md` has more about it.

pub const DOUBLED: &str = "\
usual causes: two nodes with one number; a clock that was read from a snapshot after a crash and gives versions again;
a recorder that wrote an operation twice, for instance since its client tried again and both tries were answered
";

pub const NO_SOURCE: &str = "\
usual causes: the put was not recorded, since its client failed first, its trace is no part of this one, or the trace ended before it;
the value was changed on the way; the store answered with the version of one put and the value of another, by a read that is not atomic
";

pub const NOT_ABOVE: &str = "\
usual causes: a node gives versions from its own clock alone, and does not raise it to those of the put's dependencies;
a clock of real time went backwards; a client lost its context, for instance by changing its session
";

pub const STALE: &str = "\
usual causes: a put was shown before what it depends on had come; a dependency was answered by a newer put, whose own were not looked at;
a context forgot a pair; a client read from two replicas, one of which lagged
";
