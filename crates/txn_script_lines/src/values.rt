//! Values of an epoch and any bytes: how they are kept in files, and how they are written in lines.

pub mod entry;
pub mod holder;
pub mod text;
