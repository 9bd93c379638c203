//! Wrong results that the contracts of this crate exclude. Each function calls another one of the crate, and promises of its result what a wrong body would
//! make false. It is proved from the other's contract alone, so it is no longer proved once that contract lets the wrong body pass.

ghost use Rattle.std.specs.Prelude.{◌≡◌, Ok};
ghost use Rattle.long_laws.specs.Forgetting.{forget};
ghost use Rattle.long_laws.specs.ForgetGrammar.{reading, IsSpellable};
ghost use Rattle.forget_wire.specs.Value.{named_said};

use crate::LENGTH;
use crate::message::{ForgetBody, ForgetMsg, Named};
use crate::writing::write_forget;

/// A message is written with its own boot number and both numbers of its connection: the clause `read` of `write_forget`.
fn names_the_key_alone(named: Named) -> [u8; LENGTH]
    requires { IsSpellable (forget 7 (named_said named)) }
    ensures { reading result ≡ Ok (forget 7 (named_said named)) }
{
    write_forget(&ForgetMsg {
        boot: 7,
        body: ForgetBody::Forget(named),
    })
}
