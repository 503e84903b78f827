//! Why a call of the standby with lanes is refused.
ghost use Rattle.std.specs.Prelude.{◌≡◌};
ghost use Rattle.nn_lane_standby.specs.Fault.{number_of_step, number_of_promotion};

use nn_segment::SourceFault;
use nn_shadow::Stop;
use nn_types::fault;
use thiserror::Error;

/// Why a step was not made, in the order in which the causes are looked for. `AlreadyActive`, a stop of an earlier call and
/// `BadLane` come before anything is read, and change nothing.
#[derive(Clone, Copy, Debug, PartialEq, Eq, Error)]
pub enum StepFault {
    #[error("the standby is active")]
    AlreadyActive,
    /// An edit that does not apply, or a segment that begins above the next transaction, stopped the standby, in this
    /// call or before. What its shadow shows is as it was.
    #[error("the standby is stopped")]
    Stopped(Stop),
    #[error("there is no such DataNode")]
    BadLane,
    /// The log did not end: its source failed. It may be asked again.
    #[error("the log did not end: {0}")]
    LogNotEnded(SourceFault),
    #[error("out of memory")]
    OutOfMemory,
}

impl StepFault {
    /// The fault's number.
    pub fn number(self) -> u8
        ensures { result ≡ number_of_step self }
    {
        match self {
            StepFault::AlreadyActive => fault::ALREADY_ACTIVE,
            StepFault::Stopped(_) => fault::STOPPED,
            StepFault::BadLane => fault::BAD_LANE,
            StepFault::LogNotEnded(_) => fault::LOG_NOT_ENDED,
            StepFault::OutOfMemory => fault::MEMORY,
        }
    }
}

/// Why the standby was not promoted. `AlreadyActive`, a stop of an earlier call and `IntakeOpen` are looked for in this
/// order, before anything is read, and change nothing.
#[derive(Clone, Copy, Debug, PartialEq, Eq, Error)]
pub enum PromoteFault {
    /// It was promoted before.
    #[error("the standby is active")]
    AlreadyActive,
    #[error("a lane is open")]
    IntakeOpen,
    /// It was stopped, or the log did not end, or memory was refused.
    #[error("{0}")]
    Step(StepFault),
}

impl From<StepFault> for PromoteFault {
    ghost use Rattle.nn_lane_standby.specs.declared.fault.PromoteFault.TheVariants.{Step};

    ghost from_gives = { λ fault e. e ≡ Step fault };

    fn from(fault: StepFault) -> PromoteFault {
        PromoteFault::Step(fault)
    }
}

impl PromoteFault {
    /// The fault's number.
    pub fn number(self) -> u8
        ensures { result ≡ number_of_promotion self }
    {
        match self {
            PromoteFault::AlreadyActive => fault::ALREADY_ACTIVE,
            PromoteFault::IntakeOpen => fault::INTAKE_OPEN,
            PromoteFault::Step(fault) => fault.number(),
        }
    }
}
