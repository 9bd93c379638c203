//! Wrong results that the contracts of this crate exclude. Each function calls another one of the crate, and promises of its result what a wrong body would
//! make false. It is proved from the other's contract alone, so it is no longer proved once that contract lets the wrong body pass.

ghost use Rattle.std.specs.Prelude.{◌≡◌, ◌∷◌, [], ◌++◌, false, length, Err, OnOk, codes, Some};
ghost use Rattle.ft_model.specs.Report.{event_line, lasting_line};
ghost use Rattle.ft_model.specs.Texts.{spaced};
ghost use Rattle.ft_model.specs.Words.{words_of};
ghost use Rattle.mark_laws.specs.MarkedReport.{words_of_mark};

use crate::event_line::end_of;
use crate::event_text::put_event_line;
use crate::header_text::{put_lasting, put_profile};
use crate::line::{takes_client, takes_profile};
use crate::line_out::LineOut;
use crate::line_text::put_letters;
use crate::mark_text::put_mark;
use ft_io::{Key, NoMemory};
use ft_model::{Event, Lasting, LineWhy, Schedule};
use logger_wire::Mark;
use tcp_rules::Profile;

/// A line with a word too many is refused: the contract of `end_of`.
fn reading_ignores_further_words(words: &[u8]) -> Result<(), LineWhy>
    requires { words_of words.now ≡ codes "7" ∷ [] }
    ensures { result ≡ Err LineWhy.Count }
{
    end_of(words)
}

/// After 16 clients no client line may follow: the contract of `takes_client`.
#[tactic(auto, unfolding(ft_model::specs::Grammar::may_join))]
fn reading_takes_a_seventeenth_client(schedule: &Schedule, words: &[u8]) -> bool
    requires { length schedule.now.clients ≡ 16 }
    ensures { result ≡ false }
{
    takes_client(schedule, words)
}

/// After a line that names a profile no second one may follow: the contract of `takes_profile`.
fn reading_takes_a_second_profile(schedule: &Schedule) -> bool
    requires { schedule.now.profile ≡ Profile.Wan }
    ensures { result ≡ false }
{
    takes_profile(schedule)
}

/// The letter of ACK stands before that of SYN: the clause `ok` of `put_letters`.
fn writing_flags_in_another_order(line: &mut LineOut) -> Result<(), NoMemory>
    ensures { OnOk result (line.new.words ≡ line.old.words ++ codes "AS") }
{
    put_letters(0x12, line)
}

/// The line of event 7 has the number 7: the clause `ok` of `put_event_line`.
fn writing_numbers_events_one_too_high(line: &mut LineOut) -> Result<(), NoMemory>
    ensures { OnOk result (line.new.words ≡ line.old.words ++ event_line 7 Event.Tick) }
{
    put_event_line(7, &Event::Tick, line)
}

/// The line of the profile stands in the header: the clause `ok` of `put_profile`.
fn writing_hides_the_profile(line: &mut LineOut) -> Result<(), NoMemory>
    ensures { OnOk result (line.new.words ≡ line.old.words ++ codes "profile wan\n") }
{
    put_profile(Profile::Wan, line)
}

/// The quarantine stands before the silence: the clause `ok` of `put_lasting`.
fn writing_the_silence_before_the_quarantine(line: &mut LineOut) -> Result<(), NoMemory>
    ensures { OnOk result (line.new.words ≡ line.old.words ++ lasting_line (Some (record { wait = 2; silence = 0 }))) }
{
    let lasting = Lasting {
        wait: 2,
        silence: 0,
    };
    put_lasting(Some(lasting), line)
}

/// The words of a mark have its reads, and then its length: the clause `ok` of `put_mark`.
fn writing_the_reads_of_a_mark_as_its_length(
    key: Key,
    state: &[u8],
    line: &mut LineOut,
) -> Result<(), NoMemory>
    ensures { OnOk result (line.new.words ≡ line.old.words ++ spaced (words_of_mark key (record { reads = 2; length = 3; made = 4; state = state.now }))) }
{
    let mark = Mark {
        reads: 2,
        length: 3,
        made: 4,
        state,
    };
    put_mark(key, &mark, line)
}
