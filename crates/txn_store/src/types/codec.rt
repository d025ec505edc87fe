//! Values as bytes: what an object's codec promises, and how it refuses.
ghost use Rattle.std.specs.Prelude.{◌≡◌, ℕ, List, Option, Some, None, IfOk, IfErr};
ghost use Rattle.txn_store.specs.types.Refusal.{OnRefused};

use bytes::Bytes;
use std::alloc::{AllocError, Global};

/// Why bytes were not decoded.
#[derive(Debug, Drop)]
pub enum CodecFault {
    /// They are not the bytes of a value.
    Refused(anyhow::Error),
    /// A growth was refused.
    NoMemory,
}

/// How values of a type are written as bytes and read back.
///
/// But for want of memory, both answers are stated functions of the codec and the argument, and bytes that were
/// written are read as the value that they were written of. Bytes that were never written may be read as well.
pub trait ObjectCodec<T> {
    /// The bytes that are written of a value.
    ghost encoded: { Self → T → List ℕ };

    /// The value that bytes are read as, where they are read.
    ghost decoded: { Self → List ℕ → Option T };

    /// Writes a value. The only error is want of memory.
    fn encode(&self, alloc: Global, value: &T) -> Result<Bytes, AllocError>
        ensures bytes { IfOk result (λ bytes. bytes ≡ encoded self.now value.now) }
        // What is written is read back as the same value.
        ensures reads_back { decoded self.now (encoded self.now value.now) ≡ Some value.now };

    /// Reads bytes. `Refused` comes exactly where they are not read, and `NoMemory` only where a
    /// growth was refused.
    fn decode(&self, alloc: Global, bytes: &Bytes) -> Result<T, CodecFault>
        ensures value { IfOk result (λ value. decoded self.now bytes.now ≡ Some value) }
        ensures refused { IfErr result (OnRefused (decoded self.now bytes.now ≡ None)) };
}
