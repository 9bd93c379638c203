//! The law Opening: which segments open a connection, and which numbers the log is asked to keep.

ghost use Rattle.std.specs.Prelude.{◌≡◌, ◌≤◌, ◌^◌, ◌&&◌, ◌∷◌, [], OnOk, map, nat_lt};
ghost use Rattle.std.specs.List.{list_any};
ghost use Rattle.ft_io.specs.Key.{key_eq};
ghost use Rattle.std.specs.Option.{option_to_list};
ghost use Rattle.segment_codec.specs.Value.{segment_of};
ghost use Rattle.ft_model.specs.Node as law;
ghost use Rattle.ft_model.specs.Node.Place.{Opens};
ghost use Rattle.ft_model.specs.Opening.{is_syn as syn_lem, initial_number as initial_lem, numbers_for as numbers_lem, timestamping_for as timestamping_lem};
ghost use Rattle.ft_model.specs.ServingTurn.{is_asked as asked_lem, opens_at, is_strange as strange_lem, newcomers, refusals};
ghost use Rattle.ft_model.specs.Network.Packet.{To_client};
ghost use Rattle.ft_model.specs.Connection.{reported_by};
ghost use Rattle.seq_arith.specs.Message.Body.{OpenMsg};
ghost use Rattle.seq_arith.specs.Value.{said};
ghost use Rattle.plain_packets.specs.Sent.{Appends};
ghost use Rattle.logger_wire.specs.Records.{numbers_said};
ghost use Rattle.tcp_rules.specs.Profiles.{profile_of};
ghost use Rattle.plain_world.specs.Values.{input_in, place_in, places_in, node_of};

use crate::incarnation::Incarnation;
use crate::input::Input;
use crate::place::{Opening, PlainPlace, is_for};
use crate::refusal::as_listen;
use ft_io::{Key, NoMemory};
use limits::PENDING;
use logger_wire::{Body, Msg, Numbers};
use plain_packets::{PlainPackets, has_ack, has_rst, has_syn};
use segment_codec::{Head, PacketRef};
use seq_arith::text_size;
use server_trait::Service;
use std::alloc::Global;
use tcp_rules::{Profile, Timestamping};

/// Returns whether a segment opens a connection: a SYN without ACK and RST.
fn is_syn(segment: &PacketRef<'_>) -> bool
    ensures { result ≡ syn_lem (segment_of segment.now) }
{
    has_syn(segment) && !has_ack(segment) && !has_rst(segment)
}

/// Returns the initial sequence number of an incarnation's nth connection, counted from 0.
fn initial_number(isn: u32, n: u64) -> u32
    requires { n ≤ 2 ^ 32 }
    ensures { result ≡ initial_lem isn n }
{
    ((u64::from(isn) + 65_536 * n) % (1 << 32)) as u32
}

/// Returns the numbers of the nth connection, which a SYN requests.
fn numbers_for(profile: Profile, isn: u32, n: u64, syn: &PacketRef<'_>) -> Numbers
    requires { n ≤ 2 ^ 32 }
    ensures { numbers_said result ≡ numbers_lem (profile_of profile) isn n (segment_of syn.now) }
{
    Numbers {
        key: syn.head.sender(),
        cisn: syn.head.seq.0,
        sisn: initial_number(isn, n),
        mss: text_size(syn.head.mss, timestamping_for(profile, syn).sent()),
    }
}

/// Returns the timestamps that a SYN asks for.
fn timestamping_for(profile: Profile, syn: &PacketRef<'_>) -> Timestamping
    ensures { result ≡ timestamping_lem (profile_of profile) (segment_of syn.now) }
{
    Timestamping::asked(profile.timestamps(), syn.head.timestamps)
}

/// Returns whether the log is asked for a pending opening: at its SYN, at each retransmission of the SYN, and at each tick.
pub(crate) fn is_asked(who: Incarnation, input: &Input<'_>, numbers: &Numbers) -> bool
    ensures { (stage : law.Stage) → result ≡ asked_lem (node_of who stage) (input_in input.now) (numbers_said numbers.now) }
{
    match input {
        Input::Packet(segment) => {
            is_for(who.server, segment)
                && is_syn(segment)
                && segment.head.sender() == numbers.key
                && segment.head.seq.0 == numbers.cisn
        }
        Input::Tick => true,
        Input::Message(_) | Input::Noise => false,
    }
}

/// Asks the log to keep the numbers of an opening. After `NoMemory` the packets may only be dropped.
fn send_open(
    alloc: Global,
    who: Incarnation,
    numbers: &Numbers,
    sent: &mut PlainPackets,
) -> Result<(), NoMemory>
    ensures { OnOk result (Appends sent.old sent.new (reported_by who.boot (OpenMsg (numbers_said numbers.now)) ∷ [])) }
{
    let boot = who.boot;
    let body = Body::Open(*numbers);
    sent.send_to_logger(alloc, &Msg { boot, body })
}

impl<S: Service> PlainPlace<S> {
    /// Asks the log to keep the numbers of a pending opening, if the input calls for it. After `NoMemory` the packets may only be dropped.
    pub(crate) fn ask(
        &self,
        alloc: Global,
        who: Incarnation,
        input: &Input<'_>,
        sent: &mut PlainPackets,
    ) -> Result<(), NoMemory>
        ensures { OnOk result ((stage : law.Stage) → Appends sent.old sent.new (opens_at (node_of who stage) (input_in input.now) (place_in self.now))) }
    {
        let PlainPlace::Opens(opening) = self else {
            return Ok(());
        };
        if !is_asked(who, input, &opening.numbers) {
            return Ok(());
        }
        send_open(alloc, who, &opening.numbers, sent)
    }
}

/// Returns whether a place has a key.
fn has_key<S: Service>(places: &[PlainPlace<S>], key: Key) -> bool
    ensures { result ≡ list_any (λ place. key_eq (law.key_of (place_in place)) key) places.now }
{
    places.iter().any(|place| place.key() == key)
}

/// Returns whether there is a place for a key.
fn is_known<S: Service>(places: &[PlainPlace<S>], key: Key) -> bool
    ensures { result ≡ law.is_known key (places_in places.now) }
{
    has_key(places, key)
}

/// Returns how many openings are pending.
fn pending_count<S: Service>(places: &[PlainPlace<S>]) -> usize
    ensures { result ≡ law.pending_count (places_in places.now) }
{
    let mut count = 0;
    for place in places {
        count += usize::from(place.is_pending());
    }
    count
}

/// Returns whether a segment is for this server, and from an unknown client.
fn is_strange<S: Service>(
    who: Incarnation,
    segment: &PacketRef<'_>,
    places: &[PlainPlace<S>],
) -> bool
    ensures { (stage : law.Stage) → result ≡ strange_lem (node_of who stage) (segment_of segment.now) (places_in places.now) }
{
    is_for(who.server, segment) && !is_known(places, segment.head.sender())
}

/// Returns whether a segment makes an opening: a SYN of an unknown client, while fewer than 64 are pending.
pub(crate) fn may_open<S: Service>(
    who: Incarnation,
    segment: &PacketRef<'_>,
    places: &[PlainPlace<S>],
) -> bool
    ensures { (stage : law.Stage) → result ≡ (strange_lem (node_of who stage) (segment_of segment.now) (places_in places.now)
        && syn_lem (segment_of segment.now) && nat_lt (law.pending_count (places_in places.now)) 64) }
{
    if !is_syn(segment) {
        return false;
    }
    if !is_strange(who, segment, places) {
        return false;
    }
    pending_count(places) < PENDING
}

/// Returns the opening that a SYN of an unknown client makes, while fewer than 64 are pending.
pub(crate) fn newcomer<S: Service>(
    who: Incarnation,
    input: &Input<'_>,
    opened: u64,
    places: &[PlainPlace<S>],
) -> Option<Opening>
    requires { opened ≤ 2 ^ 32 }
    ensures { (stage : law.Stage) → map (λ n. Opens (numbers_said n.numbers) n.timestamping) (option_to_list result)
        ≡ newcomers (node_of who stage) (input_in input.now) opened (places_in places.now) }
{
    let Input::Packet(segment) = input else {
        return None;
    };
    if may_open(who, segment, places) {
        Some(Opening {
            numbers: numbers_for(who.profile, who.isn, opened, segment),
            timestamping: timestamping_for(who.profile, segment),
        })
    } else {
        None
    }
}

/// Returns the RST that refuses an acknowledgement from an unknown client, if the input is one.
pub(crate) fn refusal<S: Service>(
    who: Incarnation,
    input: &Input<'_>,
    places: &[PlainPlace<S>],
) -> Option<Head>
    ensures { (stage : law.Stage) → map (λ head. To_client (record { head = said head; payload = [] })) (option_to_list result)
        ≡ refusals (node_of who stage) (input_in input.now) (places_in places.now) }
{
    let Input::Packet(segment) = input else {
        return None;
    };
    if is_strange(who, segment, places) {
        as_listen(who.server, segment)
    } else {
        None
    }
}
