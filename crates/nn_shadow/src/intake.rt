//! What takes the items of messages in.
use nn_postponed::Postponed;
use nn_replicas::Replicas;
use nn_types::Event;

/// An item that was processed is told in the history, and the table follows it. Any other is held, and has its room in the table.
#[derive(Debug, Drop)]
pub(crate) struct Intake {
    pub(crate) history: Vec<Event>,
    pub(crate) held: Postponed,
    pub(crate) table: Replicas,
}
