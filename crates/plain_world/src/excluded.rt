//! Wrong results that the contracts of this crate exclude. Each function calls another one of the crate, and promises of its result what a wrong body would
//! make false. It is proved from the other's contract alone, so it is no longer proved once that contract lets the wrong body pass.

ghost use Rattle.std.specs.Prelude.{◌≡◌, ◌≤◌, ◌<◌, [], false, true, length};
ghost use Rattle.ft_model.specs.Node as law;
ghost use Rattle.plain_world.specs.Values.{places_in};

use crate::client::PlainClient;
use crate::incarnation::Incarnation;
use crate::input::Input;
use crate::moves::Move;
use crate::opening::{is_asked, may_open};
use crate::place::PlainPlace;
use logger_wire::Numbers;
use segment_codec::PacketRef;
use server_trait::Service;

/// No text is accepted at or above the right edge: the contract of `PlainClient::next_text`.
#[tactic(auto, unfolding(crate::specs::Accepting::next_text))]
fn accepts_past_its_edge<'a>(client: &PlainClient, first: i64, text: &'a [u8]) -> &'a [u8]
    requires { client.now.edge ≤ length client.now.accepted }
    ensures { result.now ≡ [] }
{
    client.next_text(first, text)
}

/// Once its FIN is acknowledged a client sends no FIN, and no text either: the contract of `PlainClient::suits_phase`.
fn sends_after_its_fin(client: &PlainClient) -> bool
    requires { length client.now.script < client.now.acknowledged }
    ensures { result ≡ false }
{
    client.suits_phase(Move::Fin)
}

/// At a tick the log is asked again for a pending opening: the contract of `is_asked`.
fn isnt_asked_again_at_a_tick(who: Incarnation, numbers: &Numbers) -> bool
    ensures { (stage : law.Stage) → result ≡ true }
{
    is_asked(who, &Input::Tick, numbers)
}

/// While 64 openings are pending a SYN opens nothing: the contract of `may_open`.
fn opens_a_65th<S: Service>(
    who: Incarnation,
    segment: &PacketRef<'_>,
    places: &[PlainPlace<S>],
) -> bool
    requires { law.pending_count (places_in places.now) ≡ 64 }
    ensures { (stage : law.Stage) → result ≡ false }
{
    may_open(who, segment, places)
}
