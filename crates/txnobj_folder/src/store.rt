//! The files of one object in a folder, as the store that a client calls.

use std::alloc::Global;
use txn_folder::store::FolderStore;
use txn_folder_files::fault::Fault;
use txn_store::request::{Reply, Request};
use txnobj::store::SharedStore;

/// The files of one object in a folder, where others write too.
#[derive(Drop)]
pub struct SharedFolder {
    pub(crate) store: FolderStore<HostRuntime>,
}

// What stands in a folder no clause can say, and others write there. So a reply is one to its request, with the tokens and
// the listing that the folder tells, and none says that the call failed: of that there is a fault.
impl SharedStore for SharedFolder {
    ghost use Rattle.txnobj_folder.specs.Serving.{FolderServes};

    type Fault = Fault;

    ghost serves = { FolderServes };

    fn serve(&mut self, alloc: Global, request: &Request) -> Result<Reply, Fault> {
        let reply = self.store.serve(alloc, request);
        let Some(fault) = self.store.fault() else {
            return Ok(reply);
        };
        let fault = *fault;
        // (by a call: in place, the proof would follow each reply that may be dropped)
        drop(reply);
        Err(fault)
    }
}
