//! A client of any store: its calls run to their answers, and what it does is handed to a recorder as it happens. Its laws
//! bound how many store calls an update takes.

pub mod client;
pub mod laws;
pub mod recorder;
pub mod serve;
pub mod stop;
mod work;
