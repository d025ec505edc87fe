//! A call on a view that can be driven.

/// A call on a view that can be driven: its state, which `txn_steps_views` has.
#[derive(Drop)]
pub struct ViewCall<O> {
    /// The state.
    pub op: O,
}
