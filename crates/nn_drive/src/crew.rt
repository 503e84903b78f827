//! What a drive and a service hand on to all that they call.
ghost use Rattle.std.specs.Prelude.{◌≡◌, ◌≤◌, [], vec_capacity, IfOk};

use crate::bells::Bells;
use crate::reporting::ReportSource;
use crate::serving::Running;
use std::alloc::{AllocError, Global};
use std::sync::Arc;
use std::thread::Scope;

/// A drive at work. Its threads are of this scope, and share the bells.
#[derive_where(Clone, Copy)]
pub(crate) struct Crew<'s, E, R> {
    pub(crate) scope: &'s Scope<'s, E>,
    pub(crate) rt: &'s R,
    pub(crate) alloc: Global,
    pub(crate) bells: &'s Bells,
}

/// What a service has before it starts a thread, so that one which is refused has begun nothing. No scope waits for its
/// threads: each owns the bells, too.
#[derive(Drop)]
pub(crate) struct ServiceCrew<'a, S: ReportSource, R> {
    pub(crate) rt: &'a R,
    pub(crate) alloc: Global,
    pub(crate) bells: Arc<Bells, Global>,
    /// For the workers that come back.
    pub(crate) room: Vec<Running<S>>,
}

impl<'a, S: ReportSource + Drop, R> ServiceCrew<'a, S, R> {
    /// For so many workers.
    pub(crate) fn new(
        rt: &'a R,
        alloc: Global,
        workers: usize,
    ) -> Result<ServiceCrew<'a, S, R>, AllocError>
        ensures none { IfOk result (λ service. service.room.items ≡ []) }
        ensures room { IfOk result (λ service. workers ≤ vec_capacity service.room) }
    {
        let room = Vec::with_capacity(alloc, workers)?;
        let bells = Bells::new(alloc, workers)?;
        let bells = Arc::new(alloc, bells)?;
        Ok(ServiceCrew {
            rt,
            alloc,
            bells,
            room,
        })
    }
}
