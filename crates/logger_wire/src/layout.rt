//! Where the parts of a message are, in bytes from its beginning. A part begins where the one before it ends. The fields that belong to a record are listed
//! with the record.

/// The first two bytes of a message: "FT".
pub(crate) const MAGIC: u16 = 0x4654;
/// The version of messages of the plain grammar, and of all other datagrams.
pub(crate) const VERSION: u8 = 1;
/// The version of messages of the wide grammar.
pub(crate) const WIDE_VERSION: u8 = 2;

pub(crate) const MAGIC_AT: usize = 0;

pub(crate) const VERSION_AT: usize = MAGIC_AT + 2;

pub(crate) const KIND_AT: usize = VERSION_AT + 1;

pub(crate) const LENGTH_AT: usize = KIND_AT + 1;

pub(crate) const CHECKSUM_AT: usize = LENGTH_AT + 2;

pub(crate) const BOOT_AT: usize = CHECKSUM_AT + 2;
/// The length of the header. The first field follows it.
pub(crate) const HEADER: usize = BOOT_AT + 8;

/// The position of the port in a key.
pub(crate) const PORT: usize = 4;
/// The length of a key.
pub(crate) const KEY: usize = PORT + 2;

/// Where the number of a Summary and of a List ends.
pub(crate) const AFTER_COUNT: usize = HEADER + 2;
/// Where the boot number of a Stale ends.
pub(crate) const AFTER_NEWER: usize = HEADER + 8;
/// Where a key that follows the header ends.
pub(crate) const AFTER_KEY: usize = HEADER + KEY;
/// Where the number after such a key ends: an offset, or the index of a read.
pub(crate) const AFTER_START: usize = AFTER_KEY + 4;
/// Where the length of a Read ends. It follows the read's index.
pub(crate) const AFTER_LENGTH: usize = AFTER_START + 2;
