//! The cases of clients: a live client and an endpoint are joined by ways that lose, repeat and reorder, from three seeds, and hostile datagrams are
//! handed to scripted and to live clients.

use ft_io::NoMemory;
use hostile::{Tally, attack_live, attack_scripted};
use joined::join;
use std::alloc::Global;
use tcp_endpoint::Outbox;
use test_data::Said;

mod hostile;
mod joined;
mod rules;

fn write_tally(who: &str, tally: Tally, said: &mut Said) {
    let (datagrams, packets) = (tally.datagrams, tally.packets);
    write!(
        said,
        "{who}: {datagrams} datagrams, {packets} of them packets\n"
    );
    match tally.broken {
        Some(rule) => write!(said, "{who}: {rule:?} is broken\n"),
        None => write!(said, "{who}: no rule is broken\n"),
    }
}

/// Plays everything, with this outbox for what is sent.
fn play(alloc: Global, out: &mut Outbox, said: &mut Said) -> Result<bool, NoMemory> {
    let mut whole = true;
    for seed in 1..4u64 {
        let joined = join(alloc, seed, out)?;
        let (accepted, read) = (joined.accepted, joined.read);
        let same = if joined.same { "the same" } else { "others" };
        write!(
            said,
            "seed {seed}: the client accepted {accepted} bytes, and the server read {read}\n"
        );
        write!(said, "seed {seed}: they are {same}, {:?}\n", joined.outcome);
        whole = whole && joined.same;
    }
    let scripted = attack_scripted(alloc)?;
    write_tally("scripted client", scripted, said);
    let live = attack_live(alloc, out)?;
    write_tally("live client", live, said);
    Ok(whole && scripted.broken.is_none() && live.broken.is_none())
}

/// Plays everything, and says two lines for each of the five. Whether nothing is lost and no rule is broken.
pub(crate) fn play_clients(alloc: Global, said: &mut Said) -> Result<bool, NoMemory> {
    let mut out = Outbox::new(alloc)?;
    play(alloc, &mut out, said)
}
