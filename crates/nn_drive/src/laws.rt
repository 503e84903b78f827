//! What two drives have in common, what a worker that is joined says, and what a checkpoint is that was told as written. Each
//! law is the contract of a function that does nothing.
ghost use Rattle.nn_drive.specs.Checkpoints.{EachIsTheImage};
ghost use Rattle.nn_drive.specs.DriveLaws.{DrivesEndAlike};
ghost use Rattle.nn_drive.specs.ServeLaws.{TakesAllOfTheJoined};

use crate::checkpointing::CheckpointOperator;
use crate::operator::Operator;
use crate::reporting::ReportSource;
use nn_segment::SegmentSource;
use std::io::Write;

/// However the threads of two drives run: where both promote the same standby over the same sources, and no lane was closed
/// before, the namespaces, the tables, the counts and safe mode are the same.
pub fn two_drives_end_alike<T: SegmentSource, S: ReportSource>()
    ensures { DrivesEndAlike T.gives T.failures S.gives }
{}

/// Once a worker of a promoted standby is joined: all that its reporter was answered Ok to was processed, and no more. That
/// is what its source gave, in order, up to its end or to a report that was refused.
pub fn a_joined_worker_was_all_taken<O: Operator, T: SegmentSource, S: ReportSource>()
    ensures { TakesAllOfTheJoined O.asks T.gives T.failures S.gives }
{}

/// A checkpoint that `Checkpointing` tells as written, of a standby in service that it is asked about from its first rotation:
/// the image of the namespace after the last transaction.
pub fn each_checkpoint_is_the_image<W: Write, O: CheckpointOperator<W>>()
    ensures { EachIsTheImage W.contents O.hears O.wants O.asks }
{}
