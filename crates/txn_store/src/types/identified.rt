//! Files of versions.
ghost use Rattle.std.specs.Prelude.{◌≡◌};

use crate::store::ObjectMeta;

/// A listed file, with the id of the version that it is.
#[derive(Drop)]
pub struct IdentifiedObjectMetadata<Id> {
    /// The id of the version.
    pub id: Id,
    /// What the listing told of its file.
    pub metadata: ObjectMeta,
}

impl<Id> IdentifiedObjectMetadata<Id> {
    /// The file of the version of this id. It takes no memory.
    pub fn from_object_meta(id: Id, metadata: ObjectMeta) -> IdentifiedObjectMetadata<Id>
        ensures { result ≡ record { id = id; metadata = metadata } }
    {
        IdentifiedObjectMetadata { id, metadata }
    }
}
