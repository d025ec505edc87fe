//! An object in a folder that processes share with no server, as a program's own: it opens the object as a client of the
//! library, over the files of the folder, recorded or not.
#![tactic(auto)]

pub mod clock;
pub mod error;
pub mod opening;
pub mod recording;
pub mod store;

pub use clock::MachineClock;
pub use error::OpenError;
pub use opening::{EntryClient, FolderClient, Opening, open};
pub use txn_folder_files::fault::{Doing, Fault};
pub use txn_script_lines::values::entry::{Entry, EntryCodec, EntryEpoch};
