//! The lines of scripts: what each says, how they are read, and the printed forms of what comes of them.
#![tactic(auto)]

pub mod called;
mod calls;
pub mod line;
pub mod lines;
pub mod numerals;
pub mod printed;
pub mod record;
pub mod stop;
pub mod text_form;
pub mod values;
pub mod words;
