//! What became of the recorded calls of a store that clients share: which took effect, and what they made, wrote and removed.
//!
//! It is a proposal. No clause says that it is right: who replays an order of these calls on an honest store sees whether it is.
#![tactic(auto)]

mod absences;
pub mod boundaries;
mod bounds;
pub mod calls;
pub mod clock;
pub mod effects;
mod endings;
pub mod extents;
mod hidden;
pub mod landings;
pub mod lives;
mod makers;
mod meetings;
pub mod removals;
mod sights;
pub mod standing;
mod turns;
