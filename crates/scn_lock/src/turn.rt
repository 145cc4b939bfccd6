//! A turn of the lock.

/// A turn, which has the value that the lock guards. It can't be dropped: it ends by `leave`.
pub struct Turn<C> {
    pub(crate) value: C,
    /// How many events the journal had at the start of the turn.
    pub(crate) before: u64,
}
