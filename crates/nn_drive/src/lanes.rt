//! A lane for each source of reports.
ghost use Rattle.std.specs.Prelude.{◌≤◌, length, IfOk};
ghost use Rattle.nn_types.specs.Limits.{max_capacity, max_datanodes};
ghost use Rattle.nn_lane_standby.specs.Public.{AreNew};
ghost use Rattle.nn_drive.specs.Driven.{HaveReporters};
ghost use Rattle.nn_drive.specs.NewLanes.{HaveLanes, HaveCapacity};

use crate::reporting::ReportSource;
use nn_lane::{LaneEnd, Reporter, lane};
use std::alloc::{AllocError, Global};

/// New lanes for the DataNodes that these sources are of, DataNode 1 first: the workers, each with the reporter of its
/// lane, and the other ends. `capacity` is how many messages a lane holds at a time, 1 to `MAX_CAPACITY`. Where memory is
/// refused the sources are dropped.
pub fn with_lanes<S: ReportSource + Drop>(
    alloc: Global,
    sources: Vec<S>,
    capacity: usize,
) -> Result<(Vec<(S, Reporter)>, Vec<LaneEnd>), AllocError>
    requires few { length sources.items ≤ max_datanodes }
    requires capacity { (1 ≤ capacity) × (capacity ≤ max_capacity) }
    ensures own { IfOk result (λ r. HaveLanes 1 sources.items r.0.items r.1.items) }
    ensures places { IfOk result (λ r. HaveCapacity capacity r.1.items) }
    ensures lanes { IfOk result (λ r. HaveReporters r.0.items r.1.items) }
    ensures fresh { IfOk result (λ r. AreNew 1 r.1.items) }
{
    let mut workers = Vec::new(alloc);
    let mut ends = Vec::new(alloc);
    for source in sources {
        let dn = (workers.len() + 1) as u16;
        let (reporter, end) = lane(alloc, dn, capacity)?;
        workers.push((source, reporter))?;
        ends.push(end)?;
    }
    Ok((workers, ends))
}
