//! Values, from where an argument says.

use crate::ending::Halt;
use bytes::Bytes;
use std::io::Read;
use txnobj_folder::error::bytes_in;
use txnobj_words::options::Source;

/// All bytes of the standard input.
fn input(rt: &HostRuntime) -> Result<Vec<u8>, Halt> {
    let mut bytes = Vec::new(rt.alloc());
    match rt.reader().read_to_end(&mut bytes) {
        Ok(_) => Ok(bytes),
        Err(error) => Err(Halt::Io(error)),
    }
}

/// The bytes of a value.
///
/// # Errors
///
/// A file that cannot be read, or the system's error at standard input; want of memory.
pub fn bytes_of(rt: &HostRuntime, source: Source<'_>) -> Result<Bytes, Halt> {
    let bytes = match source {
        Source::Text(text) => Vec::from_slice(rt.alloc(), text.as_bytes())?,
        Source::Input => input(rt)?,
        Source::File(path) => bytes_in(rt, path)?,
    };
    Ok(Bytes::from_vec(bytes)?)
}
