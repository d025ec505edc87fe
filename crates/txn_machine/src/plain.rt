//! What clients over one store do where they make plain calls alone, as a machine that events move: each operation as a
//! state over its client's caches, and the proof that whatever events come, the rows are one history of plain calls.

pub mod alone;
pub mod doing;
pub mod history;
pub mod laws;
pub mod probes;
