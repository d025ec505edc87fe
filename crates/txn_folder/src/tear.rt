//! The newest version that reads as a value, and those above it that do not.
ghost use Rattle.std.specs.Prelude.{◌≡◌, IfOk};
ghost use Rattle.txn_folder.specs.Repairs.{IsTear, judged_id, torn_ids};

use crate::folder::Folder;
use crate::found::read_file;
use crate::judged::{Judged, Torn, Whole, judge};
use crate::steps::place::Place;
use std::alloc::{AllocError, Global};
use std::rt::Files;
use txn_folder_files::fault::{Doing, Fault, Halt};
use txn_store::types::codec::ObjectCodec;

/// The newest version that reads as a value, where one does, and the versions above it, the greatest first.
#[derive(Drop)]
pub(crate) struct Tear {
    pub newest: Option<Whole>,
    pub torn: Vec<Torn>,
}

/// What is found of a version that stands. One that does not stand any more is a fault: nobody removes it under the lock of
/// removals.
fn read_version<T: Drop, R: Files + Alloc<A = Global>, C: ObjectCodec<T>>(
    rt: &R,
    codec: &C,
    folder: &Folder,
    id: u64,
) -> Result<Judged, Halt>
    ensures { IfOk result (λ judged. judged_id judged ≡ id) }
{
    let file = folder.version(rt.alloc(), id)?;
    match read_file(rt, Place::Version(id), file)? {
        Some(found) => judge(rt.alloc(), codec, folder, id, &found),
        None => Err(Halt::Fault(Fault::at(Doing::Unsettled))),
    }
}

/// The tear of the versions of these ids, which ascend: they are read from the greatest on, down to the first that is a value.
pub(crate) fn tear_in<T: Drop, R: Files + Alloc<A = Global>, C: ObjectCodec<T>>(
    rt: &R,
    codec: &C,
    folder: &Folder,
    ids: &[u64],
) -> Result<Tear, Halt>
    ensures { IfOk result (IsTear ids.now) }
{
    let mut torn = Vec::new(rt.alloc());
    for place in (0..ids.len()).rev() {
        match read_version(rt, codec, folder, ids[place])? {
            Judged::Whole(whole) => {
                let newest = Some(whole);
                return Ok(Tear { newest, torn });
            }
            Judged::Torn(one) => {
                if torn.push(one).is_err() {
                    return Err(Halt::NoMemory);
                }
            }
        }
    }
    Ok(Tear { newest: None, torn })
}

impl Tear {
    /// The ids of the torn versions.
    ///
    /// # Errors
    ///
    /// Want of memory alone, which changes nothing.
    pub fn ids(&self, alloc: Global) -> Result<Vec<u64>, AllocError>
        ensures { IfOk result (λ ids. ids.items ≡ torn_ids self.now) }
    {
        self.torn.iter().map(|torn| torn.id()).collect(alloc)
    }
}
