//! Connections that are brought into each of their situations, in both profiles, and get hostile datagrams there, one whose stream is filled, two whose output
//! comes to its limits, and others that are restarted from a log. The cases are in the code: it is said what was found.
#![tactic(auto)]

use ft_io::NoMemory;
use hostile::{Tally, attack};
use meter::fill_all;
use most_output::{make_all, make_unacknowledged};
use restarts::play_all;
use segment_codec::Head;
use situations::{SITUATIONS, Situation};
use std::alloc::Global;
use tcp_rules::Profile;
use test_data::Said;
use wrapped_conn::TurnOut;

mod hostile;
mod meter;
mod most_output;
mod peers;
mod restarts;
mod rules;
mod situations;

fn write_attack(profile: Profile, situation: Situation, tally: Tally, said: &mut Said) {
    let of = match profile {
        Profile::Plain => "",
        Profile::Wan => "wan, ",
    };
    let Tally {
        begun,
        datagrams,
        packets,
        answers,
        broken,
    } = tally;
    match begun {
        Some((name, stage)) => write!(said, "{of}{situation:?}: {name:?}, {stage:?}\n"),
        None => write!(said, "{of}{situation:?}: no connection\n"),
    }
    write!(
        said,
        "{of}{situation:?}: {datagrams} datagrams, {packets} of them packets\n"
    );
    let answered = if answers { "segments" } else { "no segment" };
    match broken {
        Some(rule) => write!(
            said,
            "{of}{situation:?}: {answered} left, {rule:?} is broken\n"
        ),
        None => write!(
            said,
            "{of}{situation:?}: {answered} left, no rule is broken\n"
        ),
    }
}

fn write_segment(what: &str, head: Option<Head>, said: &mut Said) {
    match head {
        Some(head) => {
            let (seq, ack, window) = (head.seq.0, head.ack.0, head.window);
            // The letters of the flags that a connection sends.
            let flags = match head.flags {
                16 => "A",
                17 => "AF",
                18 => "AS",
                _ => "others",
            };
            write!(
                said,
                "{what}: {flags} seq {seq} ack {ack} window {window}\n"
            )
        }
        None => write!(said, "{what}: no segment\n"),
    }
}

/// The attack in each situation, in this profile. Whether all rules are kept.
fn attack_all(
    alloc: Global,
    profile: Profile,
    out: &mut TurnOut,
    said: &mut Said,
) -> Result<bool, NoMemory> {
    let mut whole = true;
    for situation in SITUATIONS {
        let tally = attack(alloc, profile, situation, out)?;
        write_attack(profile, situation, tally, said);
        whole = whole && tally.broken.is_none();
    }
    Ok(whole)
}

/// The attacks in both profiles, the stream that is filled, and the limits of output. Whether all rules are kept.
fn play_turns(alloc: Global, out: &mut TurnOut, said: &mut Said) -> Result<bool, NoMemory> {
    let plain = attack_all(alloc, Profile::Plain, out, said)?;
    let wan = attack_all(alloc, Profile::Wan, out, said)?;
    let filled = fill_all(alloc, out)?;
    let inside = filled.inside;
    let (taken, answered) = (inside.taken, inside.answered);
    write!(said, "full stream: taken {taken} answered {answered}\n");
    let (read, reads) = (inside.read, inside.reads);
    write!(said, "full stream: read {read} in {reads} reads\n");
    let (una, sent) = (inside.una, inside.sent);
    write!(said, "full stream: una {una} sent {sent}\n");
    write_segment("all is logged", filled.full, said);
    write_segment("one byte more", filled.beyond, said);
    let [a, b, c, d, e] = make_unacknowledged(alloc, out)?;
    write!(
        said,
        "nothing acknowledged: {a} {b} {c} {d} reads, and {e} with one byte acknowledged\n"
    );
    let [a, b, c] = make_all(alloc, out)?;
    write!(
        said,
        "15728640 bytes made: {a} reads, {b} with one request more, {c} with two\n"
    );
    Ok(plain && wan)
}

/// Plays all cases, and says what was found. The status, which is 1 where a rule is broken.
pub fn run(alloc: Global, said: &mut Said) -> Result<u8, NoMemory> {
    let mut out = TurnOut::new(alloc)?;
    let whole = play_turns(alloc, &mut out, said)?;
    play_all(alloc, said)?;
    Ok(u8::from(!whole))
}
