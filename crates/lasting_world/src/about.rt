//! Which connection a packet concerns.

ghost use Rattle.std.specs.Prelude.{◌≡◌};
ghost use Rattle.ft_io.specs.declared.Key.{Key as key_type};
ghost use Rattle.forget_wire.specs.Value.{body_of as forget_body_of};
ghost use Rattle.logger_wire.specs.Value.{body_of};
ghost use Rattle.long_laws.specs.Forgetting.{named_of};
ghost use Rattle.long_laws.specs.LongTrace.{is_about};
ghost use Rattle.lasting_world.specs.Abouts.{names, key_said};

use forget_wire::{ForgetBody, read_forget};
use ft_io::Key;
use logger_wire::{Body, Grammar, read_msg_by};

/// The key that a message names, if it names one.
fn key_of_body(body: &Body<'_>) -> Option<Key>
    ensures { (key : key_type) → is_about key (body_of body.now) ≡ names result key }
{
    match body {
        Body::Hello | Body::Summary { .. } | Body::List { .. } | Body::Stale { .. } => None,
        Body::Entry { head, .. } => Some(head.key),
        Body::Bytes { key, .. }
        | Body::Part { key, .. }
        | Body::Cuts { key, .. }
        | Body::Lens { key, .. }
        | Body::Read { key, .. }
        | Body::Done { key }
        | Body::Ended { key }
        | Body::Full { key } => Some(*key),
        Body::Open(numbers) | Body::Opened(numbers) => Some(numbers.key),
        Body::Data(part) => Some(part.key),
        Body::Stable(kept) | Body::Reads(kept) => Some(kept.key),
    }
}

/// The key that a message about forgetting names.
fn key_of_forget(body: &ForgetBody) -> Key
    ensures { result ≡ (named_of (forget_body_of body.now)).key }
{
    match body {
        ForgetBody::Forget(named) | ForgetBody::Forgotten(named) => named.key,
    }
}

/// The key that a message between server and logger names, by its bytes in this grammar, if it names one.
pub(crate) fn key_of_message(grammar: Grammar, bytes: &[u8]) -> Option<Key>
    ensures { (key : key_type) → names result key ≡ key_said grammar bytes.now key }
{
    if let Ok(m) = read_msg_by(grammar, bytes) {
        return key_of_body(&m.body);
    }
    match read_forget(bytes) {
        Ok(m) => Some(key_of_forget(&m.body)),
        Err(_) => None,
    }
}
