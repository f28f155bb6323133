//! What the rule of the table means for a reader.
ghost use Rattle.shared_lane.specs.Promises.{UnreadValuesStay, ClosedCursorsStay};

/// No value is overwritten that a reader has still to read. This holds between any two steps, since the table keeps its rule.
pub fn unread_values_stay()
    ensures { UnreadValuesStay }
{}

/// A cursor that its reader closed is closed until the sequencer opens its place again. This holds between any two steps.
pub fn closed_cursors_stay()
    ensures { ClosedCursorsStay }
{}
