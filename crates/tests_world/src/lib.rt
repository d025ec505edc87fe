//! Tests of worlds, workers and scripts, and of clients that share only a store: what no clause says, and that each call
//! succeeds with ample memory. Of clients with diaries: what an audit finds of these and of the store's log. Most are tables
//! that one function plays; what a script shows stands in the folder `cases` at the top of the repository.
#![tactic(auto)]

#[cfg(test)]
mod tests;
