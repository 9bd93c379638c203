//! Wrong results that the contracts of this crate exclude. Each function calls another one of the crate, and promises of its result what a wrong body would
//! make false. It is proved from the other's contract alone, so it is no longer proved once that contract lets the wrong body pass.

ghost use Rattle.std.specs.Prelude.{◌≡◌, [], ◌∷◌, drop, IfOk};

use crate::schedule::{ClientLine, ClientLines, Script, ServiceKind};
use ft_io::NoMemory;
use std::alloc::Global;

/// The 26th byte of a filled script is the letter `z`: the contract of `Script::bytes`, and that of `letters`, on which it stands.
#[tactic(auto, unfolding(crate::specs::Schedule::letters))]
fn fills_without_the_letter_z(alloc: Global) -> Result<Vec<u8>, NoMemory>
    ensures { IfOk result (λ bytes. drop 25 bytes.items ≡ 122 ∷ []) }
{
    let script = Script::Fill { len: 26 };
    script.bytes(alloc)
}

/// The client that is appended second stands second, so the first keeps its number: the clause `ok` of `ClientLines::push`.
fn numbers_clients_backwards(
    clients: Vec<ClientLine>,
    first: ClientLine,
    second: ClientLine,
) -> Result<ClientLines, NoMemory>
    requires { clients.items ≡ [] }
    ensures { IfOk result (λ clients. clients ≡ first ∷ second ∷ []) }
{
    let mut clients = ClientLines::new(clients);
    clients.push(first)?;
    clients.push(second)?;
    Ok(clients)
}

/// Echo has the number 1, which no other service has: the contract of `ServiceKind::number`.
fn runs_another_service() -> u8
    ensures { result ≡ 1 }
{
    ServiceKind::Echo.number()
}
