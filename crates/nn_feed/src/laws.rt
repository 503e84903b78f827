//! The law of a feed. It is the contract of a function that does nothing.
ghost use Rattle.nn_feed.specs.FeedLaws.{GivesWhatItsSourceGave};

use nn_segment::SegmentSource;

/// What the end of a feed gave is what the source of its feeder gave, segment for segment, and it ends in the source's last
/// answer, its End or its fault.
pub fn a_feed_gives_what_its_source_gave<S: SegmentSource>()
    ensures { GivesWhatItsSourceGave S.gives }
{}
