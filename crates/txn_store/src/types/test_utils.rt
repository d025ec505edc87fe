//! Helpers for tests of code that keeps objects.
ghost use Rattle.std.specs.Prelude.{◌≡◌, IfOk, IfErr};
ghost use Rattle.std.specs.Int.{w64, to_be_bytes};
ghost use Rattle.txn_store.specs.types.NumberBytes.{number_of};

use crate::types::codec::{CodecFault, ObjectCodec};
use crate::types::dirty::DirtyObject;
use crate::types::epoch::EpochField;
use crate::types::id::MonotonicId;
use anyhow::anyhow;
use bytes::Bytes;
use std::alloc::{AllocError, Global};

/// The candidate of this id and value. It takes no memory.
pub fn new_dirty_object<T>(id: u64, value: T) -> DirtyObject<T, MonotonicId>
    ensures id { result.id ≡ id }
    ensures value { result.value ≡ value }
{
    DirtyObject {
        id: MonotonicId::new(id),
        value,
    }
}

/// Numbers as eight bytes, the most significant first. Bytes of any other length are refused.
#[derive(Clone, Copy, Debug)]
pub struct NumberCodec;

impl ObjectCodec<u64> for NumberCodec {
    ghost encoded = { λ _ n. to_be_bytes w64 n };

    ghost decoded = { λ _ bytes. number_of bytes };

    fn encode(&self, alloc: Global, value: &u64) -> Result<Bytes, AllocError> {
        Bytes::copy_from_slice(alloc, value.to_be_bytes().as_slice())
    }

    fn decode(&self, _alloc: Global, bytes: &Bytes) -> Result<u64, CodecFault> {
        match <[u8; 8]>::try_from(bytes.as_slice()) {
            Ok(bytes) => Ok(u64::from_be_bytes(bytes)),
            Err(_) => Err(CodecFault::Refused(anyhow!("not eight bytes"))),
        }
    }
}

/// What a codec reads of the bytes that it writes of a value: the same value.
///
/// # Errors
///
/// `NoMemory` alone, where a growth was refused.
pub fn round_trip<T, C: ObjectCodec<T>>(
    codec: &C,
    alloc: Global,
    value: &T,
) -> Result<T, CodecFault>
    ensures same { IfOk result (λ copy. copy ≡ value.now) }
    ensures memory_alone { IfErr result (λ fault. fault ≡ CodecFault.NoMemory) }
{
    match codec.encode(alloc, value) {
        Ok(bytes) => codec.decode(alloc, &bytes),
        Err(AllocError) => Err(CodecFault::NoMemory),
    }
}

/// Numbers that are their own epoch.
#[derive(Clone, Copy, Debug)]
pub struct NumberEpoch;

impl EpochField<u64> for NumberEpoch {
    ghost epoch_of = { λ _ n. n };

    ghost with_epoch = { λ _ _ epoch. epoch };

    fn get_epoch(&self, number: &u64) -> u64 {
        *number
    }

    fn set_epoch(&self, value: &mut u64, epoch: u64) {
        *value = epoch;
    }
}
