//! What a client is: how its operations take their turns and end, how its views are lent, moved, made and ended, and what of
//! a call it tests before it begins. A world of many clients stands on it, and so does a client that knows its store alone.

pub mod calls;
mod changes;
pub mod layout;
pub mod operations;
pub mod refusals;
pub mod views;
