//! What a restart keeps. Each law is the contract of a function that does nothing.
ghost use Rattle.nn_lane_standby.specs.RestartLaws.{RestartGoesOn, ReadsAgain, StopsAgain, KeepsStatus, KeepsOldStatus};

/// The image and the rest of the log give the namespace of the whole log, whether the segments before the image are given
/// again or not, and each block id has the status that it had. The image of a stopped standby starts one that stops at the
/// same transaction.
pub fn a_restart_goes_on()
    ensures log { RestartGoesOn }
    ensures again { ReadsAgain }
    ensures stopped { StopsAgain }
    ensures status { KeepsStatus }
    ensures old_status { KeepsOldStatus }
{}
