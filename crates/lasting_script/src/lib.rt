//! Turns of a server that lasts and of a log whose entries may be recycled, by the lines of a script: it is said what they send. The lines:
//!
//! - `# ..` is printed as it is;
//! - `boot KIND BOOT ISN WAIT SILENCE` boots a server at 192.0.2.100:7 with this service (1 for Echo, 2 for Line, 3 for Transfer, 4 for Meter). A server that
//! was up   crashes first;
//! - `packet HEX` and `message HEX` are datagrams from a client and from the logger, and a line of one word, `tick`, is a tick;
//! - `ticks COUNT` are so many ticks; it prints `after TICKS` before the packets of each that sends any, and at last `-` where none did;
//! - `log HEX` is a datagram for the log; it prints `answer HEX`, or `-`. A line of one word, `empty`, begins with an empty log.
//!
//! A boot and a turn print `client IP PORT HEX` or `logger HEX` for each packet, `-` where there is none, and `fenced by BOOT` where a server with that boot
//! number has ended this one.
#![tactic(auto)]

use ft_io::NoMemory;
use player::Player;
use std::alloc::Global;
use test_data::Said;

mod player;

/// Plays the lines of a script, and says what came of each. The status, which is 0.
pub fn run(alloc: Global, text: &str, said: &mut Said) -> Result<u8, NoMemory> {
    let mut player = Player::new(alloc)?;
    for line in text.lines() {
        player.play(alloc, line)?;
    }
    said.add(player.said()?);
    Ok(0)
}
