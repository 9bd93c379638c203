//! What is requested next.

ghost use Rattle.std.specs.Prelude.{◌≡◌};
ghost use Rattle.ft_model.specs.Restart.{question};
ghost use Rattle.logger_wire.specs.Value.{body_of};
ghost use Rattle.plain_log.specs.Values.{wanted_in};

use ft_io::Key;
use logger_wire::Body;

/// What is requested: an entry of the log, bytes of one, or lengths of one.
#[derive(Clone, Copy)]
pub enum Wanted {
    /// The entry at this index.
    Entry { index: u16 },
    /// Bytes of the key's entry, from this offset on.
    Bytes { key: Key, offset: u32 },
    /// Lengths of the reads in the key's entry, from this read on.
    Lengths { key: Key, first: u32 },
}

/// Returns the body of the message that requests what is wanted.
pub fn question<'a>(wanted: Wanted) -> Body<'a>
    ensures { body_of result ≡ question (wanted_in wanted) }
{
    match wanted {
        Wanted::Entry { index } => Body::List { index },
        Wanted::Bytes { key, offset } => Body::Bytes { key, offset },
        Wanted::Lengths { key, first } => Body::Cuts { key, first },
    }
}
