//! Tests of the store in a folder, on files of the system in the test's own working folder: what it answers, what it leaves,
//! and each call of the system failing in turn; of clients that record themselves; and of objects of the library. What the
//! audit of recordings says of honest clients, of lies and of changed recordings stands in `cases/recordings`.
#![tactic(auto)]

#[cfg(test)]
mod tests;
