//! Messages as bytes, made field by field.

use ft_io::{Key, NoMemory};
use limits::MESSAGE;
use std::alloc::Global;
use test_data::{Said, seal};

/// The last letter of the magic of a message, and of one about marks.
pub(crate) const LOG: u8 = b'T';

pub(crate) const MARK: u8 = b'V';

/// A message of this kind without fields, and without its length and checksum.
pub(crate) fn begin_letter(alloc: Global, magic: u8, kind: u8, boot: u8) -> Said {
    let mut fields = Said::new(alloc);
    fields.add(&[b'F', magic, 1, kind, 0, 0, 0, 0, 0, 0, 0, 0, 0, 0, 0, boot]);
    fields
}

/// Adds a key to the fields of a message.
pub(crate) fn add_key(fields: &mut Said, key: Key) {
    fields.add(&key.ip.to_be_bytes());
    fields.add(&key.port.to_be_bytes());
}

/// The message with these fields, or no bytes where it would be longer than any.
pub(crate) fn end_letter(alloc: Global, fields: &Said) -> Result<Vec<u8>, NoMemory> {
    if fields.len() > MESSAGE {
        return Ok(Vec::new(alloc));
    }
    let bytes = fields.bytes()?;
    let mut letter = bytes.to_vec(alloc)?;
    seal(letter.as_mut_slice());
    Ok(letter)
}
