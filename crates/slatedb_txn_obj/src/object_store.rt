//! The traits of this crate over an object store.

pub mod boundary;
pub mod protocol;

pub use boundary::ObjectStoreBoundaryObject;
pub use protocol::ObjectStoreSequencedStorageProtocol;
