//! Tests of the store and its types, and of the operations and of the calls on views, as states and driven over the store in
//! memory: what no clause says, and that each call succeeds with ample memory. Most are tables of calls, each with what it says
//! and how many calls of the store and looks it took, that one function plays.
#![tactic(auto)]

#[cfg(test)]
mod tests;
