//! What services write, save and answer, by the lines of a script. A SERVICE is `echo`, `line`, `transfer`, `meter` or `counter`. The lines of a script:
//!
//! - `# ..` is printed as it is;
//! - `load SERVICE HEX` loads a service, and prints the form that it then has, or `none`;
//! - `play SERVICE HEX..` gives a service these chunks, and prints whether it closes and what it writes, or how many bytes and a number that follows from them;
//!   `resume FORM HEX..` gives them to Line that is loaded from this form;
//! - `runs SERVICE COUNT SEED` plays COUNT runs of a service that are drawn from SEED, and saves it after each that hasn't closed. It prints how many have
//!   closed and how many were read back, how many forms were refused once they were damaged, and a number that follows from all forms;
//! - `mark HEX` reads a message about marks, and prints what it says, or which test it fails; after it `again` if writing it gives the same bytes;
//! - `random COUNT SEED` reads COUNT messages that are drawn from SEED, most of them damaged, and prints how many fail each test and how many are read, and a
//!   number that follows from all that is written again.
//!
//! Of the web server, to which a request is one piece of each part, in order; in TEXT, `%XX` means a byte:
//!
//! - `part N` begins the Nth part of a request, counted from 0, without pieces;
//! - `piece WEIGHT TIMES TEXT` is a piece of the last part: TIMES copies of the text. It is drawn WEIGHT times as often as a piece of weight 1;
//! - `say TEXT` is a connection with this text as its one chunk, and prints how many bytes answer it, their MD5, and whether it closes;
//! - `connections COUNT SEED` plays COUNT connections that are drawn from SEED: one request after another, some of them damaged, in chunks cut anywhere. It
//!   prints how many chunks were answered by how many bytes, how many connections closed, and the MD5 of each chunk's number followed by its answer.
//!
//! Of the receiver of mail:
//!
//! - `mail TIMES TEXT ..` is a session in which the client says TIMES copies of a text, then of a next one, and so on, in chunks of 2,048 bytes; a space is
//!   `%20`. It prints the greeting and the replies, with `|` for each line end, and whether the service has closed;
//! - `sessions COUNT SEED` plays COUNT sessions as `connections` does, with the pieces of the parts for requests. The greeting counts as the answer to a chunk.
#![tactic(auto)]

use connections::Parts;
use ft_io::NoMemory;
use mail_service::Mail;
use std::alloc::Global;
use test_data::Said;
use web_service::Web;

mod connections;
mod mail;
mod messages;
mod services;
mod web_server;

/// The count and the seed of a line.
fn count_and_seed(text: &str) -> Option<(u32, u64)> {
    let (count, seed) = text.split_once(' ')?;
    let (Ok(count), Ok(seed)) = (count.parse::<u32>(), seed.parse::<u64>()) else {
        return None;
    };
    Some((count, seed))
}

/// Plays the lines of a script, and says what each prints: a line, but for those that only set a part of a request. The status, which is 0.
pub fn run(alloc: Global, text: &str, said: &mut Said) -> Result<u8, NoMemory> {
    let mut parts = Parts::new(alloc);
    for line in text.lines() {
        let (word, rest) = line.split_once(' ').unwrap_or((line, ""));
        let played = match word {
            "#" => {
                said.add(line.as_bytes());
                Ok(())
            }
            "load" => services::load_line(alloc, rest, said),
            "play" => services::play_line(alloc, rest, said),
            "resume" => services::resume_line(alloc, rest, said),
            "runs" => services::runs_line(alloc, rest, said),
            "mark" => messages::mark_line(alloc, rest, said),
            "random" => messages::random_line(alloc, rest, said),
            "part" => parts.begin(rest.parse::<u32>().unwrap_or(0)),
            "piece" => web_server::piece_line(alloc, rest, &mut parts),
            "say" => web_server::write_line(alloc, rest, said),
            "connections" => web_server::connections_line::<Web>(alloc, rest, &parts, said),
            "mail" => mail::mail_line(alloc, rest, said),
            "sessions" => web_server::connections_line::<Mail>(alloc, rest, &parts, said),
            _ => {
                said.add(b"no such line");
                Ok(())
            }
        };
        played?;
        if word != "part" && word != "piece" {
            said.end_line();
        }
    }
    Ok(0)
}
