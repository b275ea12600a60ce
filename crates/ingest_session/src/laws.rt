//! Laws of sessions with a history, for those who stand on them (docs/MODEL.md, 'Sessions'). Their functions do nothing.
ghost use Rattle.ingest_session.specs.Facts.{AllIsKept, BytesAreCounted, ChildrenComeFirst, NodesAreFew, OpenNodesHaveChildren};
ghost use Rattle.ingest_session.specs.Facts.{OpensArePieces, PlacedComeFirst, SealsWereAbsent, StepsAreFew, TurnsArePieces};
ghost use Rattle.ingest_session.specs.Facts.{WaitsForAnother};
ghost use Rattle.ingest_session.specs.DueFor.{DueIsOne, KeptIsOne, OfferIsOne};

/// How many bytes were taken is counted.
pub fn bytes_are_counted()
    ensures { BytesAreCounted }
{}

/// However the file goes on, what is in its place is the first of it, and what is claimed and what is sealed are pieces of it.
pub fn steps_have_pieces()
    ensures first { PlacedComeFirst }
    ensures turns { TurnsArePieces }
    ensures opens { OpensArePieces }
{}

/// The children of each node that is claimed or sealed were answered Held, or sealed, before.
pub fn children_come_first()
    ensures claims { ChildrenComeFirst }
    ensures seals { OpenNodesHaveChildren }
{}

/// What was sealed, what was set aside, what lies in an open container and what waits for it are the segments whose claims were
/// answered Absent, in order, each as often as it was answered so; what waits has a key that those not sealed lack.
pub fn seals_were_absent()
    ensures absent { SealsWereAbsent }
    ensures waits { WaitsForAnother }
{}

/// At most two steps are due for each piece that is in its place, and one for one that waits.
pub fn steps_are_few()
    ensures { StepsAreFew }
{}

/// At most so many nodes wait for their place.
pub fn nodes_are_few()
    ensures { NodesAreFew }
{}

/// What is due of some bytes after some answers is one step, and what a seal then offers are the same containers, however the bytes
/// came in pieces between the answers.
pub fn due_is_one()
    ensures due { DueIsOne }
    ensures offer { OfferIsOne }
{}

/// What was kept of some bytes after some answers, as answered Held or sealed, are the same segments of each kind in the same
/// order, however the bytes came in pieces between the answers.
pub fn kept_is_one()
    ensures { KeptIsOne }
{}

/// When the file has ended and nothing is due, its pieces are in their place, and each was answered Held, or sealed.
pub fn all_is_kept()
    ensures { AllIsKept }
{}
