//! What the counts of a table say about safe mode.

/// Whether enough blocks of closed files have enough live replicas, and the counts that decide on it.
#[derive(Clone, Copy, Debug, PartialEq, Eq)]
pub struct SafeMode {
    /// How many blocks closed files have.
    pub total: u64,
    /// How many of them are safe.
    pub safe: u64,
    /// How many have to be.
    pub needed: u64,
    /// Whether fewer are.
    pub on: bool,
}
