//! A call with the field of epochs that each of its steps is lent.

/// A call on a view that may read or set epochs, with the field that keeps them, which its state does not have.
#[derive(Drop)]
pub struct WithEpochs<O, X> {
    /// The state of the call.
    pub op: O,
    /// Where the values keep their epoch.
    pub epochs: X,
}
