//! Wrong results that the contracts of this crate exclude. Each function calls another one of the crate, and promises of its result what a wrong body would
//! make false. It is proved from the other's contract alone, so it is no longer proved once that contract lets the wrong body pass.

ghost use Rattle.std.specs.Prelude.{[], ◌∷◌, ◌≡◌, ◌≤◌, ◌<◌, ◌<ℤ◌, pos, false, length, take};
ghost use Rattle.seq_arith.specs.Number.{gap};
ghost use Rattle.peer_client.specs.Live.{sent_by, unread};

use crate::client::Client;
use crate::live::LiveClient;
use crate::moves::Move;
use crate::stamping::Stamping;
use segment_codec::PacketRef;
use tcp_endpoint::Outbox;

/// The first byte that is handed out is the first that wasn't handed out before: the clause `bytes` of `LiveClient::hand_out`.
fn accept_loses_a_byte(client: &mut LiveClient) -> u8
    requires { 1 ≤ length (unread client.old) }
    ensures { take 1 (unread client.old) ≡ result ∷ [] }
{
    let mut first = [0];
    client.hand_out(&mut first);
    first[0]
}

/// No value of a segment that begins past the last acknowledgement sent is echoed: the contract of `Stamping::is_timely`.
fn a_late_value_is_echoed(stamping: &Stamping, p: &PacketRef<'_>) -> bool
    requires short { length p.now.payload.now ≤ 65535 }
    requires late { pos 0 <ℤ gap p.now.head.seq.0 stamping.now.acknowledgement }
    ensures { result ≡ false }
{
    stamping.is_timely(p)
}

/// No text is accepted at or above the right edge: the contract of `Client::next_text`.
#[tactic(auto, unfolding(crate::specs::Scripted::next_text))]
fn accepts_past_its_edge<'a>(client: &Client, first: i64, text: &'a [u8]) -> &'a [u8]
    requires { client.now.edge ≤ length client.now.accepted }
    ensures { result.now ≡ [] }
{
    client.next_text(first, text)
}

/// Once its FIN is acknowledged a client sends no FIN, and no text either: the contract of `Client::suits_phase`.
fn refuses_nothing_after_its_fin(client: &Client) -> bool
    requires { length client.now.script < client.now.acknowledged }
    ensures { result ≡ false }
{
    client.suits_phase(Move::Fin)
}

/// At the end of a turn the outbox has as many packets as segments leave: the clause `sent` of `LiveClient::end_turn`.
#[tactic(auto, unfolding(tcp_endpoint::specs::Output::packets))]
fn sends_nothing(client: &mut LiveClient, out: &mut Outbox)
    requires { out.old ≡ [] }
    ensures { length out.new ≡ length (sent_by client.old) }
{
    client.end_turn(out);
}
