// The values of a record.
use crate::Bytes;

/// A value of a record. A text need not be UTF-8.
#[derive(Drop)]
pub enum Value {
    Null,
    Int(i64),
    Text(Bytes),
    Blob(Bytes),
}
