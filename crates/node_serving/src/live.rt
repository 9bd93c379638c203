//! The calls of a live connection: each is one turn of it, and what it gives out is sent.

ghost use Rattle.limits.specs.Limits.{largest_segment};
ghost use Rattle.std.specs.Prelude.{◌≡◌, ◌≤◌, ◌<◌, ◌^◌, Ok, IsOk, OnOk, IfOk};
ghost use Rattle.seq_arith.specs.Message.{Kept};
ghost use Rattle.seq_arith.specs.Packet.{Segment};
ghost use Rattle.seq_arith.specs.PacketGrammar.{reading};
ghost use Rattle.logger_wire.specs.Value.{message_of, IsSendableBy};
ghost use Rattle.ft_model.specs.News.News.{Comes, Logged, Ticks};
ghost use Rattle.wrapped_conn.specs.Sound.{echoed};
ghost use Rattle.node_serving.specs.Conn.{Belongs};
ghost use Rattle.node_serving.specs.Identity.{grammar_in};
ghost use Rattle.node_serving.specs.LogMessages.{IsLogged};
ghost use Rattle.node_serving.specs.Slots.{numbers_of};
ghost use Rattle.node_serving.specs.Turns.{SendsFor, ConnTurns, ConnBegins, ConnRevives};

use crate::identity::Identity;
use crate::sent::{fit, send_all};
use crate::slot::Opening;
use crate::turn::Turn;
use ft_io::{Key, NoMemory};
use logger_wire::Msg;
use server_trait::Service;
use tcp_rules::Timestamping;
use wrapped_conn::{Conn, Opened};

/// Makes a new connection, with the numbers that the log keeps, and takes its first turn.
#[tactic(auto, unfolding(crate::specs::Conn::IsSound))]
pub(crate) fn begin_live<S: Service>(
    who: Identity,
    key: Key,
    numbers: Opening,
    turn: &mut Turn,
) -> Result<Conn<S>, NoMemory>
    requires boot { 1 ≤ who.boot }
    requires least { 64 ≤ numbers.mss }
    requires most { numbers.mss ≤ largest_segment }
    ensures turn { IfOk result (λ conn. ConnBegins S.Service who numbers.timestamping (numbers_of key numbers) conn turn.old turn.new) }
    ensures alone { IfOk result (λ conn. SendsFor who key turn.old turn.new) }
    ensures sound { IfOk result (λ conn. Belongs who key conn) }
{
    fit_echo(numbers.timestamping);
    let opened = Opened {
        key,
        cisn: numbers.cisn,
        sisn: numbers.sisn,
        mss: numbers.mss,
        timestamping: numbers.timestamping,
    };
    let mut conn = Conn::open_in(
        who.profile,
        turn.alloc,
        who.boot,
        who.local,
        opened,
        who.kind,
    )?;
    turn.out.clear();
    if let Err(lack) = conn.start(turn.alloc, &mut turn.out) {
        drop(conn);
        return Err(lack);
    }
    if let Err(lack) = send_all(key, turn) {
        drop(conn);
        return Err(lack);
    }
    Ok(conn)
}

/// A fact for proofs: the value that is echoed fits its type.
fn fit_echo(timestamping: Timestamping)
    ensures { echoed timestamping < 2 ^ 32 }
{
    match timestamping {
        Timestamping::Off => {}
        Timestamping::Awaited => {}
        Timestamping::Echoes(recent) => {
            let _recent = recent;
        }
    }
}

/// Takes the first turn of a connection that a restart has put together. `key` is its client's.
#[tactic(auto, unfolding(crate::specs::Conn::IsSound))]
pub fn start_live<S: Service>(
    who: Identity,
    key: Key,
    conn: &mut Conn<S>,
    turn: &mut Turn,
) -> Result<(), NoMemory>
    requires { Belongs who key conn.old }
    ensures turn { OnOk result (ConnRevives S.Service who key conn.old conn.new turn.old turn.new) }
    ensures number { OnOk result (conn.new.endpoint.sending.iss ≡ conn.old.endpoint.sending.iss) }
    ensures delta { OnOk result (conn.new.south.delta ≡ conn.old.south.delta) }
    ensures alone { OnOk result (SendsFor who key turn.old turn.new) }
    ensures sound { OnOk result (Belongs who key conn.new) }
{
    turn.out.clear();
    conn.start(turn.alloc, &mut turn.out)?;
    send_all(key, turn)
}

/// Takes a live connection's turn at a tick.
#[tactic(auto, unfolding(crate::specs::Conn::IsSound))]
pub(crate) fn tick_live<S: Service>(
    who: Identity,
    key: Key,
    conn: &mut Conn<S>,
    turn: &mut Turn,
) -> Result<(), NoMemory>
    requires { Belongs who key conn.old }
    ensures turn { OnOk result (ConnTurns S.Service who Ticks key conn.old conn.new turn.old turn.new) }
    ensures alone { OnOk result (SendsFor who key turn.old turn.new) }
    ensures sound { OnOk result (Belongs who key conn.new) }
{
    turn.out.clear();
    conn.on_tick(&mut turn.out);
    send_all(key, turn)
}

/// Takes a live connection's turn on a segment. `packet` has its bytes.
#[tactic(auto, unfolding(crate::specs::Conn::IsSound))]
pub(crate) fn serve_live<S: Service>(
    who: Identity,
    key: Key,
    conn: &mut Conn<S>,
    packet: &mut [u8],
    turn: &mut Turn,
) -> Result<(), NoMemory>
    requires sound { Belongs who key conn.old }
    requires accepted { IsOk (reading packet.old) }
    ensures turn { OnOk result ((segment : Segment) → reading packet.old ≡ Ok segment
        → ConnTurns S.Service who (Comes segment) key conn.old conn.new turn.old turn.new) }
    ensures alone { OnOk result (SendsFor who key turn.old turn.new) }
    ensures sound { OnOk result (Belongs who key conn.new) }
{
    fit(packet);
    turn.out.clear();
    conn.on_packet(turn.alloc, packet, &mut turn.out)?;
    send_all(key, turn)
}

/// Takes a live connection's turn on a message about how much of it is logged.
#[tactic(auto, unfolding(crate::specs::Conn::IsSound))]
pub(crate) fn receive_live<S: Service>(
    who: Identity,
    key: Key,
    conn: &mut Conn<S>,
    m: &Msg<'_>,
    turn: &mut Turn,
) -> Result<(), NoMemory>
    requires sound { Belongs who key conn.old }
    requires sendable { IsSendableBy (grammar_in who) m.now }
    ensures turn { OnOk result ((kept : Kept) → IsLogged who.boot (message_of m.now) key kept
        → ConnTurns S.Service who (Logged kept) key conn.old conn.new turn.old turn.new) }
    ensures alone { OnOk result (SendsFor who key turn.old turn.new) }
    ensures sound { OnOk result (Belongs who key conn.new) }
{
    turn.out.clear();
    conn.on_msg(turn.alloc, m, &mut turn.out)?;
    send_all(key, turn)
}
