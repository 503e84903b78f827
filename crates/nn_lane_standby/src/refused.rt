//! Why there is no new standby. The ends of its lanes come back.
ghost use Rattle.std.specs.Prelude.{◌≡◌};
ghost use Rattle.nn_types.specs.declared.fault.TheConstants.{MEMORY};

use nn_image::ImageFault;
use nn_lane::LaneEnd;
use nn_types::fault;

/// Memory was refused for a new standby.
#[derive(Debug, Drop)]
pub struct NewFault {
    pub ends: Vec<LaneEnd>,
}

impl NewFault {
    /// The fault's number.
    pub fn number(&self) -> u8
        ensures { result ≡ MEMORY }
    {
        fault::MEMORY
    }
}

/// The image that a standby was to start from was refused, or memory was.
#[derive(Debug, Drop)]
pub struct ImageRefusal {
    pub ends: Vec<LaneEnd>,
    pub fault: ImageFault,
}
