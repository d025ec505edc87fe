//! Manifests: an object that names the versions of itself that are still needed. A checkpoint pins the version that its
//! client has, a release lets one go, and a collector removes versions, but never one that the newest manifest pins.
#![tactic(auto)]

mod begins;
pub mod collector;
pub mod event;
pub mod laws;
pub mod manifest;
pub mod pins;
pub mod store;
pub mod world;
