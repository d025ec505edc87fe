//! How a put ends.

/// How a put is to end.
#[derive(Clone, Copy)]
pub enum PutEnd {
    /// The file with this number stands there.
    Put(u64),
    /// It was refused, since a file stands there, or none with the token.
    Refused,
    Fails,
}
