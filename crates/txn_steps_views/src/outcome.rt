//! What a call on a view comes to.

use crate::copies::Copies;
use txn_store::types::id::MonotonicId;
use txn_store::types::step_error::StepError;

/// What becomes of the view that a call makes or uses.
#[derive(Drop)]
pub enum Outcome<T> {
    /// The view is at the version of this id, with this value, which the answer shows.
    Viewed(MonotonicId, Copies<T>),
    /// The view is at the version of this id, with this value, as the holder of this epoch. The answer shows all three.
    Held(MonotonicId, Copies<T>, u64),
    /// The holder's view is at the version of this id, with this value, whose epoch is not the holder's. The answer is this
    /// refusal.
    Shut(MonotonicId, T, StepError),
}

/// What a call on a view answers. A refusal makes no view and leaves the view that was used as it is, but for a claim's,
/// which ends.
pub type ViewAnswer<T> = Result<Outcome<T>, StepError>;
