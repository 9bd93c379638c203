//! Turns of a server, by the lines of a script: it is said what it sends. The lines:
//!
//! - `# ..` is printed as it is;
//! - `boot KIND BOOT ISN EVERY` boots a server at 192.0.2.100:7 with this service (1 for Echo, 2 for Line, 3 for Transfer, 4 for Meter), which marks a
//!   connection after EVERY reads, or never without EVERY; a server that was up crashes first;
//! - `boot-wan KIND BOOT ISN EVERY` boots one with the profile `wan`;
//! - `packet HEX` and `message HEX` are datagrams from a client and from the logger, and a line of one word, `tick`, is a tick;
//! - `conn IP PORT` prints the numbers of a client's connection, or `none`; IP is a number;
//! - `attack COUNT SEED` gives COUNT datagrams that are drawn from SEED, and prints whether the server sent nothing, or else how many of its packets to
//!   clients couldn't be read, or went to a live connection and were RSTs or didn't acknowledge exactly what is taken and answered;
//! - `strike COUNT SEED KINDS SEQ ACK` gives COUNT hostile segments of one client that are drawn from SEED, of the first KINDS kinds of six, around the
//!   client's next number and the server's, and prints how many packets were sent and a digest of them; `strike-stamped` gives them with timestamps.
//!
//! A boot and a turn print `client IP PORT HEX` or `logger HEX` for each packet, `-` where there is none, and `fenced by BOOT` where a server
//! with that boot number has ended this one.
#![tactic(auto)]

use ft_io::NoMemory;
use player::Player;
use std::alloc::Global;
use test_data::Said;

mod attack;
mod player;
mod strike;

/// Plays the lines of a script, and says what came of each. The status, which is 0.
pub fn run(alloc: Global, text: &str, said: &mut Said) -> Result<u8, NoMemory> {
    let mut player = Player::new(alloc)?;
    for line in text.lines() {
        player.play(alloc, line)?;
    }
    said.add(player.said()?);
    Ok(0)
}
