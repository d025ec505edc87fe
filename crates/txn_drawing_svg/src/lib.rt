//! Draws what happened to an object that clients share as one picture, in SVG.
#![tactic(auto)]

mod columns;
mod flights;
mod foot;
pub mod head;
mod labels;
mod legend;
mod marks;
pub mod picture;
mod places;
mod plan;
mod rings;
mod rows;
mod shapes;
mod slots;
mod style;
mod versions;
pub mod xml;
