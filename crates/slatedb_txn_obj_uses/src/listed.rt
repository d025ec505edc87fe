//! A list of files, searched from its front.
ghost use Rattle.std.specs.Prelude.{◌≡◌, ◌≤◌, ◌≢◌, IfOk, OnOk, OnErr};
ghost use Rattle.std.specs.Prelude.{[], ◌∷◌, ◌&&◌};
ghost use Rattle.std.specs.Option.{option_copied};
ghost use Rattle.std.specs.FinMap as finmap;
ghost use Rattle.txn_store.specs.Paths.{path_cmp, is_below};
ghost use Rattle.txn_store.specs.Store.{is_above, listing};
ghost use Rattle.slatedb_txn_obj_uses.specs.Listed.{keyed, IsFound};

use std::alloc::{AllocError, Global};
use std::marker::Model;
use txn_store::path::Path;
use txn_store::store::{Got, ObjectMeta};

/// The index of the first file under a path.
fn position(files: &[(Path, Got)], path: &Path) -> Option<usize>
    ensures { IsFound path.now files.now result }
{
    for (index, file) in files.iter().enumerate() {
        if *path == file.0 {
            return Some(index);
        }
    }
    None
}

/// Whether a listing tells of a path.
fn is_listed(prefix: &Path, after: Option<&Path>, path: &Path) -> bool
    ensures { result ≡ is_below prefix.now path.now && is_above (option_copied after.entry) path.now }
{
    let is_above = match after {
        None => true,
        Some(after) => after < path,
    };
    path.is_below(prefix) && is_above
}

/// Puts what a listing tells of a file among what it tells of others, in the order of the paths.
fn tell(told: &mut Vec<ObjectMeta>, meta: ObjectMeta) -> Result<(), AllocError>
    requires { finmap.find path_cmp meta.location (keyed told.old.items) ≡ None }
    ensures { OnOk result (keyed told.new.items ≡ finmap.put path_cmp meta.location meta (keyed told.old.items)) }
{
    let mut index = 0;
    while index < told.len() && told[index].location < meta.location {
        index += 1;
    }
    told.insert(index, meta)?;
    Ok(())
}

/// Files in the order in which their paths were first written, each path once. A clause sees the finite map that they are.
#[derive(Drop)]
pub(crate) struct Listed {
    files: Vec<(Path, Got)>,
}

impl Model for Listed {
    ghost use Rattle.txn_store.specs.Store.{Files};
    ghost use Rattle.txn_store.specs.Memory.{files_code};
    ghost use Rattle.slatedb_txn_obj_uses.specs.Listed.{files_in, NoneTwice};

    ghost Value = { Files };

    ghost coded = { files_code };

    ghost view = { λ l. files_in l.files.items };

    ghost invariant = { λ l. NoneTwice l.files.items };
}

impl Listed {
    pub(crate) fn new(alloc: Global) -> Listed
        ensures { result ≡ finmap.empty }
    {
        Listed {
            files: Vec::new(alloc),
        }
    }

    /// What stands under a path.
    pub(crate) fn get(&self, path: &Path) -> Option<&Got>
        ensures { option_copied result ≡ finmap.get self.now path.now }
    {
        match position(&self.files, path) {
            Some(index) => Some(&self.files[index].1),
            None => None,
        }
    }

    /// Puts a file under a path: in the place of the one that stands there, or behind all others. Where a growth is refused
    /// nothing changed.
    pub(crate) fn set(&mut self, path: &Path, got: Got) -> Result<(), AllocError>
        ensures ok { OnOk result (self.new ≡ finmap.insert self.old path.now got) }
        ensures err { OnErr result (self.new ≡ self.old) }
    {
        match position(&self.files, path) {
            Some(index) => self.files[index].1 = got,
            None => self.files.push((path.try_clone()?, got))?,
        }
        Ok(())
    }

    /// Removes the file under a path, if one stands there. It takes no memory.
    pub(crate) fn remove(&mut self, path: &Path)
        ensures { self.new ≡ finmap.remove self.old path.now }
    {
        if let Some(index) = position(&self.files, path) {
            self.files.remove(index);
        }
    }

    /// What a listing tells of the files below a prefix and above a path, in the order of their paths.
    pub(crate) fn listing(
        &self,
        alloc: Global,
        prefix: &Path,
        after: Option<&Path>,
    ) -> Result<Vec<ObjectMeta>, AllocError>
        ensures { IfOk result (λ metas. metas.items ≡ listing prefix.now (option_copied after.entry) (finmap.entries self.now)) }
    {
        let mut told = Vec::new(alloc);
        for file in &self.files {
            if is_listed(prefix, after, &file.0) {
                let meta = ObjectMeta {
                    location: file.0.try_clone()?,
                    size: file.1.bytes.len() as u64,
                    token: file.1.token,
                };
                tell(&mut told, meta)?;
            }
        }
        Ok(told)
    }
}
