//! The cases of scripts, played on endpoints: a line is said for each case, `ok`, or the first line at which something else is seen; and the line at which a
//! script is refused. A script whose only word is `clients` plays the cases of clients, which are in the code, and says two lines for each. Statuses: 0 where
//! nothing differs, 1 where something does, 2 where a script is refused.
#![tactic(auto)]

use clients::play_clients;
use ft_io::NoMemory;
use play::Play;
use read::ScriptEnd;
use scene::Miss;
use script::Script;
use std::alloc::Global;
use test_data::{Said, cut};
use words::Why;

mod clients;
mod hostile;
mod joined;
mod line;
mod play;
mod read;
mod rules;
mod scene;
mod script;
mod text;
mod words;

/// The line between two scripts, with the line feed before it.
const SEAM: &[u8] = b"\nscript\n";

/// The word of the script that plays the cases of clients.
const CLIENT_CASES: &[u8] = b"clients";

/// How many cases of scripts were played, and how many cases differ; how many scripts are refused.
#[derive(Clone, Copy)]
struct Outcome {
    cases: usize,
    differ: usize,
    refused: usize,
}

/// Tells of a script's line that is refused.
fn refuse(line: u32, why: Why, outcome: &mut Outcome, said: &mut Said) {
    let why = why.text();
    outcome.refused = outcome.refused.saturating_add(1);
    write!(said, "refused line {line}: {why}\n");
}

/// Plays the cases of a script, up to a line that is refused. What a case that differs has counted is forgotten.
fn play_cases(
    alloc: Global,
    script: &Script<'_>,
    play: &mut Play,
    outcome: &mut Outcome,
    said: &mut Said,
) -> Result<(), NoMemory> {
    for (number, part) in script.parts.iter().enumerate() {
        if part.is_way {
            continue;
        }
        let (name, before) = (part.name, play.tally);
        outcome.cases = outcome.cases.saturating_add(1);
        match play.play(alloc, script, number) {
            Ok(()) => write!(said, "ok {name}\n"),
            Err(Miss::Differs(seen)) => {
                let line = play.line;
                write!(said, "differs {name}: line {line}: ");
                said.add(seen.bytes()?);
                said.end_line();
                play.tally = before;
                outcome.differ = outcome.differ.saturating_add(1);
            }
            Err(Miss::Refused(why)) => {
                refuse(play.line, why, outcome, said);
                break;
            }
            Err(Miss::NoMemory) => return Err(NoMemory),
        }
    }
    Ok(())
}

/// Reads a script and plays it.
fn read_and_play<'a>(
    alloc: Global,
    text: &'a [u8],
    script: &mut Script<'a>,
    outcome: &mut Outcome,
    said: &mut Said,
) -> Result<(), NoMemory> {
    match script.read(text) {
        Ok(()) => play_cases(alloc, script, &mut Play::new(), outcome, said),
        Err(ScriptEnd::Refused(why)) => {
            refuse(script.lines, why, outcome, said);
            Ok(())
        }
        Err(ScriptEnd::NoMemory) => Err(NoMemory),
    }
}

/// Plays a script, or the cases of clients, and tells what came of it. It counts once if anything of clients differs.
fn play_text(
    alloc: Global,
    text: &[u8],
    outcome: &mut Outcome,
    said: &mut Said,
) -> Result<(), NoMemory> {
    if text.trim_ascii() != CLIENT_CASES {
        return read_and_play(alloc, text, &mut Script::new(alloc), outcome, said);
    }
    if !play_clients(alloc, said)? {
        outcome.differ = outcome.differ.saturating_add(1);
    }
    Ok(())
}

/// Plays all scripts of a text, and says what came of each. The exit status.
pub fn run(alloc: Global, text: &[u8], said: &mut Said) -> Result<u8, NoMemory> {
    let mut outcome = Outcome {
        cases: 0,
        differ: 0,
        refused: 0,
    };
    let mut rest = Some(text);
    // Each turn but the last takes a line out of the text.
    for _turn in 0..=text.len() {
        let Some(scripts) = rest else { break };
        let (script, behind) = cut(scripts, SEAM);
        play_text(alloc, script, &mut outcome, said)?;
        rest = behind;
    }
    let (cases, differ, refused) = (outcome.cases, outcome.differ, outcome.refused);
    write!(
        said,
        "{cases} cases, {differ} differ; {refused} scripts refused\n"
    );
    Ok(match (differ, refused) {
        (0, 0) => 0,
        (_, 0) => 1,
        _ => 2,
    })
}
