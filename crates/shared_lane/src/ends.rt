//! What the end of a reader means for later calls.
ghost use Rattle.shared_lane.specs.Places.{EndedReaderIsCountedNoMore};

/// Once the sequencer was [told](crate::Sequencer::told_end) the end of a reader, and until it opens the reader's place again,
/// `live` counts that reader no more, and `admit` isn't refused with `SubscribersFull`: it opens that place or one before it.
pub fn ended_reader_is_counted_no_more()
    ensures { EndedReaderIsCountedNoMore }
{}
