//! A page of a listing.
ghost use Rattle.std.specs.Prelude.{◌≡◌, IfOk};

use crate::store::ObjectMeta;
use std::alloc::AllocError;
use std::marker::Model;

/// Files that a listing told. A clause sees the list.
#[derive(Drop)]
pub struct Listing {
    metas: Vec<ObjectMeta>,
}

impl Model for Listing {
    ghost use Rattle.std.specs.Prelude.{List};
    ghost use Rattle.txn_store.specs.declared.store.ObjectMeta.{ObjectMeta};
    ghost use Rattle.txn_store.specs.Metas.{metas_code};

    ghost Value = { List ObjectMeta };

    ghost coded = { metas_code };

    ghost view = { λ l. l.metas.items };
}

impl Listing {
    /// The listing of these files. It takes no memory.
    pub fn from_vec(metas: Vec<ObjectMeta>) -> Listing
        ensures { result ≡ metas.items }
    {
        Listing { metas }
    }

    /// The files told. It takes no memory.
    pub fn into_vec(self) -> Vec<ObjectMeta>
        ensures { result.items ≡ self }
    {
        self.metas
    }

    /// The files told, lent.
    pub fn as_slice(&self) -> &[ObjectMeta]
        ensures { result.now ≡ self.now }
    {
        self.metas.as_slice()
    }

    /// A listing of the same files.
    ///
    /// # Errors
    ///
    /// Want of memory alone, which changes nothing.
    pub fn try_clone(&self) -> Result<Listing, AllocError>
        ensures { IfOk result (λ copy. copy ≡ self.now) }
    {
        let mut metas = Vec::with_capacity(*self.metas.allocator(), self.metas.len())?;
        let told = self.as_slice();
        for meta in told {
            let location = meta.location.try_clone()?;
            metas.push(ObjectMeta { location, ..*meta })?;
        }
        Ok(Listing { metas })
    }
}

/// One page of a listing.
#[derive(Drop)]
pub struct Page {
    /// The files told, in the order of their paths.
    pub metas: Listing,
    /// Whether another file follows the last of them.
    pub more: bool,
}

impl Page {
    /// A page that tells the same.
    ///
    /// # Errors
    ///
    /// Want of memory alone, which changes nothing.
    pub fn try_clone(&self) -> Result<Page, AllocError>
        ensures { IfOk result (λ copy. copy ≡ self.now) }
    {
        Ok(Page {
            metas: self.metas.try_clone()?,
            more: self.more,
        })
    }
}
