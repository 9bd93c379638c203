//! One line of a schedule: its tests in their order, which is that of `LineWhy`, and its meaning.

ghost use Rattle.std.specs.Prelude.{◌≡◌, ◌==◌, ◌&&◌, ◌||◌, ◌<◌, nat_le, not};
ghost use Rattle.std.specs.List.{list_any};
ghost use Rattle.ft_model.specs.Words.{words_of};
ghost use Rattle.ft_model.specs.Grammar.{service_line, server_line, is_taken, free_address, client_line, bare_line, profile_line, marks_line, lasting_line};
ghost use Rattle.ft_model.specs.Grammar.{line_from, verb_of, keyword_of, is_unnamed, is_misnamed, is_next, has_next_number, may_join};
ghost use Rattle.ft_model.specs.Grammar.{has_only_server, may_stand, is_printable, line_behind, line_of, begins_event};
ghost use Rattle.schedule_text.specs.ReadResult.{GivesLine};

use crate::end::LineEnd;
use crate::event_line::{
    end_of, read_client_number, read_event, read_every, read_long_number, read_silence, read_wait,
    word_of,
};
use crate::spelling::{
    NUMBER_DIGITS, read_addr, read_numeral, read_profile, read_script, read_service,
};
use crate::words::{is_text, next_word};
use ft_io::{Addr, Key};
use ft_model::{ClientLine, Draft, Keyword, Lasting, Line, LineWhy, Schedule, ServiceKind, Verb};
use std::alloc::Global;
use tcp_rules::Profile;

/// The largest number of clients in a schedule.
const CLIENT_LIMIT: usize = 16;

#[tactic(auto, unfolding(ft_model::specs::Grammar::service_line))]
fn read_service_line(words: &[u8]) -> Result<ServiceKind, LineWhy>
    ensures { result ≡ service_line (words_of words.now) }
{
    let (name, rest) = word_of(words)?;
    end_of(rest)?;
    read_service(name).ok_or(LineWhy::Word)
}

#[tactic(auto, unfolding(ft_model::specs::Grammar::server_line))]
fn read_server_line(words: &[u8]) -> Result<Addr, LineWhy>
    ensures { result ≡ server_line (words_of words.now) }
{
    let (address, rest) = word_of(words)?;
    end_of(rest)?;
    read_addr(address).ok_or(LineWhy::Address)
}

/// Returns whether a client has this address; at a server that lasts, with this initial sequence number.
fn has_client(clients: &[ClientLine], lasts: bool, addr: Addr, isn: u32) -> bool
    ensures { result ≡ list_any (λ client. (not lasts || client.isn == isn) && client.key.ip == addr.ip && client.key.port == addr.port) clients.now }
{
    clients.iter().any(|client| (!lasts || client.isn == isn)
        && client.key.ip == addr.ip
        && client.key.port == addr.port)
}

/// Returns whether the server has this address, or a client. At a server that lasts a client may have another's, with another initial sequence number.
#[tactic(auto, unfolding(ft_model::specs::Grammar::is_taken))]
fn takes_address(draft: &Draft, addr: Addr, isn: u32) -> bool
    ensures { result ≡ is_taken draft.now addr isn }
{
    match draft {
        Draft::Begun(schedule) => {
            if schedule.server.ip == addr.ip && schedule.server.port == addr.port {
                return true;
            }
            has_client(
                schedule.clients.as_slice(),
                schedule.lasting.is_some(),
                addr,
                isn,
            )
        }
        _ => false,
    }
}

#[tactic(auto, unfolding(ft_model::specs::Grammar::free_address))]
fn read_free_address(draft: &Draft, isn: u32, word: &[u8]) -> Result<Addr, LineWhy>
    ensures { result ≡ free_address draft.now isn word.now }
{
    let addr = read_addr(word).ok_or(LineWhy::Address)?;
    if takes_address(draft, addr, isn) {
        return Err(LineWhy::Address);
    }
    Ok(addr)
}

#[tactic(auto, unfolding(ft_model::specs::Grammar::client_line))]
fn read_client_line(alloc: Global, draft: &Draft, words: &[u8]) -> Result<ClientLine, LineEnd>
    ensures { GivesLine result (client_line draft.now (words_of words.now)) }
{
    let (client, rest) = word_of(words)?;
    let (address, rest) = word_of(rest)?;
    let (isn, rest) = word_of(rest)?;
    let (script, rest) = word_of(rest)?;
    end_of(rest)?;
    let _ = read_client_number(client)?;
    let isn = read_long_number(isn)?;
    let addr = read_free_address(draft, isn, address)?;
    let script = read_script(alloc, script)?.ok_or(LineWhy::Script)?;
    let key = Key {
        ip: addr.ip,
        port: addr.port,
    };
    Ok(ClientLine { key, isn, script })
}

/// Reads the line that names the server's profile.
#[tactic(auto, unfolding(ft_model::specs::Grammar::profile_line))]
fn read_profile_line(words: &[u8]) -> Result<Profile, LineWhy>
    ensures { result ≡ profile_line (words_of words.now) }
{
    let (name, rest) = word_of(words)?;
    end_of(rest)?;
    read_profile(name).ok_or(LineWhy::Word)
}

/// Reads the line that says that there are two loggers.
#[tactic(auto, unfolding(ft_model::specs::Grammar::bare_line))]
fn read_twin_line(words: &[u8]) -> Result<Line, LineWhy>
    ensures { result ≡ bare_line Line.Twin (words_of words.now) }
{
    end_of(words)?;
    Ok(Line::Twin)
}

/// Reads the line that says after how many reads the server makes a mark.
#[tactic(auto, unfolding(ft_model::specs::Grammar::marks_line))]
fn read_marks_line(words: &[u8]) -> Result<u32, LineWhy>
    ensures { result ≡ marks_line (words_of words.now) }
{
    let (every, rest) = word_of(words)?;
    end_of(rest)?;
    read_every(every)
}

/// Reads the line that says how long a server that lasts waits.
#[tactic(auto, unfolding(ft_model::specs::Grammar::lasting_line))]
fn read_lasting_line(words: &[u8]) -> Result<Lasting, LineWhy>
    ensures { result ≡ lasting_line (words_of words.now) }
{
    let (wait, rest) = word_of(words)?;
    let (silence, rest) = word_of(rest)?;
    end_of(rest)?;
    let wait = read_wait(wait)?;
    let silence = read_silence(silence)?;
    Ok(Lasting { wait, silence })
}

/// Reads the meaning of a line, from the words after its keyword.
fn read_words(alloc: Global, draft: &Draft, keyword: Keyword, words: &[u8]) -> Result<Line, LineEnd>
    ensures { GivesLine result (line_from draft.now keyword (words_of words.now)) }
{
    match keyword {
        Keyword::Service => Ok(Line::Service(read_service_line(words)?)),
        Keyword::Server => Ok(Line::Server(read_server_line(words)?)),
        Keyword::Profile => Ok(Line::Profile(read_profile_line(words)?)),
        Keyword::Twin => Ok(read_twin_line(words)?),
        Keyword::Marks => Ok(Line::Marks(read_marks_line(words)?)),
        Keyword::Lasting => Ok(Line::Lasting(read_lasting_line(words)?)),
        Keyword::Client => Ok(Line::Client(read_client_line(alloc, draft, words)?)),
        Keyword::Event(verb) => Ok(Line::Event(read_event(verb, words)?)),
    }
}

/// Returns the event that a word introduces.
#[tactic(auto, unfolding(ft_model::specs::Grammar::verb_of))]
fn read_verb(word: &[u8]) -> Option<Verb>
    ensures { result ≡ verb_of word.now }
{
    if is_text(word, "boot") {
        Some(Verb::Boot)
    } else if is_text(word, "crash") {
        Some(Verb::Crash)
    } else if is_text(word, "tick") {
        Some(Verb::Tick)
    } else if is_text(word, "deliver") {
        Some(Verb::Deliver)
    } else if is_text(word, "flip") {
        Some(Verb::Flip)
    } else if is_text(word, "open") {
        Some(Verb::Open)
    } else if is_text(word, "send") {
        Some(Verb::Send)
    } else if is_text(word, "fin") {
        Some(Verb::Fin)
    } else if is_text(word, "ack") {
        Some(Verb::Ack)
    } else if is_text(word, "reset") {
        Some(Verb::Reset)
    } else if is_text(word, "stop") {
        Some(Verb::Stop)
    } else {
        None
    }
}

/// Returns the kind of line that a word introduces.
#[tactic(auto, unfolding(ft_model::specs::Grammar::keyword_of))]
fn read_keyword(word: &[u8]) -> Option<Keyword>
    ensures { result ≡ keyword_of word.now }
{
    if is_text(word, "service") {
        Some(Keyword::Service)
    } else if is_text(word, "server") {
        Some(Keyword::Server)
    } else if is_text(word, "profile") {
        Some(Keyword::Profile)
    } else if is_text(word, "twin") {
        Some(Keyword::Twin)
    } else if is_text(word, "marks") {
        Some(Keyword::Marks)
    } else if is_text(word, "lasting") {
        Some(Keyword::Lasting)
    } else if is_text(word, "client") {
        Some(Keyword::Client)
    } else {
        Some(Keyword::Event(read_verb(word)?))
    }
}

/// Returns whether a line names a service or a profile that doesn't exist.
#[tactic(auto, unfolding(ft_model::specs::Grammar::is_misnamed))]
fn has_unknown_name(keyword: Keyword, words: &[u8]) -> bool
    ensures { result ≡ is_misnamed keyword (words_of words.now) }
{
    let Some((name, _)) = next_word(words) else {
        return false;
    };
    match keyword {
        Keyword::Service => read_service(name).is_none(),
        Keyword::Profile => read_profile(name).is_none(),
        _ => false,
    }
}

/// Returns whether the line's number is the next one, or is left to a later test.
#[tactic(auto, unfolding(ft_model::specs::Grammar::has_next_number, ft_model::specs::Grammar::is_next))]
fn fits_number(count: usize, words: &[u8]) -> bool
    ensures { result ≡ has_next_number count (words_of words.now) }
{
    match next_word(words) {
        Some((client, _)) => match read_numeral(NUMBER_DIGITS, client) {
            Some(n) => n == count as u128 + 1,
            None => true,
        },
        None => true,
    }
}

/// Returns whether another client line may follow these lines.
#[tactic(auto, unfolding(ft_model::specs::Grammar::may_join))]
pub(crate) fn takes_client(schedule: &Schedule, words: &[u8]) -> bool
    ensures { result ≡ may_join schedule.now (words_of words.now) }
{
    if schedule.events.as_slice().len() != 0 {
        return false;
    }
    let count = schedule.clients.as_slice().len();
    if count >= CLIENT_LIMIT {
        return false;
    }
    fits_number(count, words)
}

/// Returns whether a line for two loggers, for marks or for a server that lasts may follow: nothing but a profile follows the server's line yet.
#[tactic(auto, unfolding(ft_model::specs::Grammar::has_only_server))]
fn ends_with_server(schedule: &Schedule) -> bool
    ensures { result ≡ has_only_server schedule.now }
{
    if schedule.events.as_slice().len() != 0 {
        return false;
    }
    if schedule.clients.as_slice().len() != 0 {
        return false;
    }
    if schedule.twin {
        return false;
    }
    schedule.marks.is_none() && schedule.lasting.is_none()
}

/// Returns whether the line that names the server's profile may follow.
pub(crate) fn takes_profile(schedule: &Schedule) -> bool
    ensures { result ≡ (is_unnamed schedule.now.profile && has_only_server schedule.now) }
{
    match schedule.profile {
        Profile::Plain => ends_with_server(schedule),
        Profile::Wan => false,
    }
}

fn takes_line(draft: &Draft, keyword: Keyword, words: &[u8]) -> bool
    ensures { result ≡ may_stand draft.now keyword (words_of words.now) }
{
    match (draft, keyword) {
        (Draft::Empty, Keyword::Service) => true,
        (Draft::Named(_), Keyword::Server) => true,
        (Draft::Begun(schedule), Keyword::Profile) => takes_profile(schedule),
        (Draft::Begun(schedule), Keyword::Twin) => ends_with_server(schedule),
        (Draft::Begun(schedule), Keyword::Marks) => ends_with_server(schedule),
        (Draft::Begun(schedule), Keyword::Lasting) => ends_with_server(schedule),
        (Draft::Begun(schedule), Keyword::Client) => takes_client(schedule, words),
        (Draft::Begun(_), Keyword::Event(_)) => true,
        _ => false,
    }
}

/// Reads a line from the words after its keyword. It first tests the name of a service or of a profile, and then the line's place.
#[tactic(auto, unfolding(ft_model::specs::Grammar::line_behind))]
fn read_behind(
    alloc: Global,
    draft: &Draft,
    keyword: Keyword,
    words: &[u8],
) -> Result<Line, LineEnd>
    ensures { GivesLine result (line_behind draft.now keyword (words_of words.now)) }
{
    if has_unknown_name(keyword, words) {
        return Err(LineEnd::Refused(LineWhy::Word));
    }
    if !takes_line(draft, keyword, words) {
        return Err(LineEnd::Refused(LineWhy::Place));
    }
    read_words(alloc, draft, keyword, words)
}

fn is_plain(byte: u8) -> bool
    ensures { result ≡ (nat_le 32 byte && nat_le byte 126) }
{
    32 <= byte && byte <= 126
}

#[tactic(auto, unfolding(ft_model::specs::Grammar::is_printable))]
fn is_plain_text(text: &[u8]) -> bool
    ensures { result ≡ is_printable text.now }
{
    text.iter().all(|byte| is_plain(*byte))
}

/// Reads a line that follows the lines read so far, with its tests in their order.
#[tactic(auto, unfolding(ft_model::specs::Grammar::line_of))]
pub(crate) fn read_line(alloc: Global, draft: &Draft, text: &[u8]) -> Result<Line, LineEnd>
    ensures { GivesLine result (line_of draft.now text.now) }
{
    if !is_plain_text(text) {
        return Err(LineEnd::Refused(LineWhy::Character));
    }
    let Some((word, words)) = next_word(text) else {
        return Err(LineEnd::Refused(LineWhy::Word));
    };
    let Some(keyword) = read_keyword(word) else {
        return Err(LineEnd::Refused(LineWhy::Word));
    };
    read_behind(alloc, draft, keyword, words)
}

/// Returns whether the first word is an event's.
pub(crate) fn begins_with_event(text: &[u8]) -> bool
    ensures { result ≡ begins_event (words_of text.now) }
{
    match next_word(text) {
        Some((word, _)) => read_verb(word).is_some(),
        None => false,
    }
}
