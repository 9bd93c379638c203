//! The header of a report: the report's first line, and the schedule's lines before its events.

ghost use Rattle.std.specs.Prelude.{◌≡◌, ◌+◌, ◌++◌, ◌∷◌, ◌==◌, if◌then◌else◌, codes, length, OnOk, OnErr};
ghost use Rattle.hex.specs.Hex.{encode_lower};
ghost use Rattle.ft_model.specs.Texts.{address_text, service_text, script_text};
ghost use Rattle.ft_model.specs.Report.{schedule_line, schedule_lines, profile_line, twin_line, marks_line, lasting_line, header};

use crate::line_out::LineOut;
use crate::line_text::{put_address, put_digits, put_hex_digits, put_number, put_word};
use ft_io::{Addr, NoMemory};
use ft_model::{ClientLine, Lasting, Schedule, Script, ServiceKind};
use std::alloc::Global;
use tcp_rules::Profile;

/// Writes the report's name and version, and the schedule's lines before its events. After `NoMemory` `out` is unchanged.
pub fn write_header(alloc: Global, s: &Schedule, out: &mut Vec<u8>) -> Result<(), NoMemory>
    ensures ok { OnOk result (out.new.items ≡ out.old.items ++ header s.now) }
    ensures err { OnErr result (out.new.items ≡ out.old.items) }
{
    let mut line = LineOut::open(alloc, out);
    let written = put_header(s, &mut line);
    line.close(out, written)
}

#[tactic(auto, using(crate::proofs::LineLemmas::line_rules), unfolding(ft_model::specs::Report::header))]
fn put_header(s: &Schedule, line: &mut LineOut) -> Result<(), NoMemory>
    ensures ok { OnOk result (line.new.words ≡ line.old.words ++ header s.now) }
    ensures before { line.new.before ≡ line.old.before }
{
    line.append_text("ftreplay 1\nservice")?;
    put_word(service_word(s.service), line)?;
    put_server(s.server, line)?;
    put_rest(
        s.profile,
        s.twin,
        s.marks,
        s.lasting,
        s.clients.as_slice(),
        line,
    )
}

/// Appends the end of the service's line, and the server's line.
#[tactic(auto, using(crate::proofs::LineLemmas::line_rules))]
fn put_server(server: Addr, line: &mut LineOut) -> Result<(), NoMemory>
    ensures ok { OnOk result (line.new.words ≡ line.old.words ++ (codes "\nserver " ++ (address_text server.ip server.port ++ codes "\n"))) }
    ensures before { line.new.before ≡ line.old.before }
{
    line.append_text("\nserver")?;
    put_address(server.ip, server.port, line)?;
    line.push(b'\n')
}

/// Appends the line that names the server's profile, unless it is the plain one.
pub(crate) fn put_profile(profile: Profile, line: &mut LineOut) -> Result<(), NoMemory>
    ensures ok { OnOk result (line.new.words ≡ line.old.words ++ profile_line profile) }
    ensures before { line.new.before ≡ line.old.before }
{
    match profile {
        Profile::Plain => Ok(()),
        Profile::Wan => line.append_text("profile wan\n"),
    }
}

/// Appends the lines after the server's.
#[tactic(auto, using(std::proofs::Common::append_assoc))]
fn put_rest(
    profile: Profile,
    twin: bool,
    marks: Option<u32>,
    lasting: Option<Lasting>,
    clients: &[ClientLine],
    line: &mut LineOut,
) -> Result<(), NoMemory>
    ensures ok { OnOk result (line.new.words ≡ line.old.words
        ++ (profile_line profile ++ (twin_line twin ++ (marks_line marks ++ (lasting_line lasting ++ schedule_lines 1 clients.now))))) }
    ensures before { line.new.before ≡ line.old.before }
{
    put_profile(profile, line)?;
    put_loggers_and_clients(twin, marks, lasting, clients, line)
}

/// Appends the lines after those of the server and its profile.
#[tactic(auto, using(std::proofs::Common::append_assoc))]
fn put_loggers_and_clients(
    twin: bool,
    marks: Option<u32>,
    lasting: Option<Lasting>,
    clients: &[ClientLine],
    line: &mut LineOut,
) -> Result<(), NoMemory>
    ensures ok { OnOk result (line.new.words ≡ line.old.words
        ++ (twin_line twin ++ (marks_line marks ++ (lasting_line lasting ++ schedule_lines 1 clients.now)))) }
    ensures before { line.new.before ≡ line.old.before }
{
    put_twin(twin, line)?;
    put_marks(marks, line)?;
    put_lasting(lasting, line)?;
    put_clients(clients, line)
}

/// Appends the line that says that there are two loggers, if there are.
fn put_twin(twin: bool, line: &mut LineOut) -> Result<(), NoMemory>
    ensures ok { OnOk result (line.new.words ≡ line.old.words ++ twin_line twin) }
    ensures before { line.new.before ≡ line.old.before }
{
    if twin {
        line.append_text("twin\n")?;
    }
    Ok(())
}

/// Appends the line that says after how many reads the server makes a mark, if it makes marks.
#[tactic(auto, using(crate::proofs::LineLemmas::line_rules))]
fn put_marks(marks: Option<u32>, line: &mut LineOut) -> Result<(), NoMemory>
    ensures ok { OnOk result (line.new.words ≡ line.old.words ++ marks_line marks) }
    ensures before { line.new.before ≡ line.old.before }
{
    if let Some(every) = marks {
        line.append_text("marks")?;
        put_number(u64::from(every), line)?;
        line.push(b'\n')?;
    }
    Ok(())
}

/// Appends the line that says how long the server waits, if it is one that lasts.
#[tactic(auto, using(crate::proofs::LineLemmas::line_rules))]
pub(crate) fn put_lasting(lasting: Option<Lasting>, line: &mut LineOut) -> Result<(), NoMemory>
    ensures ok { OnOk result (line.new.words ≡ line.old.words ++ lasting_line lasting) }
    ensures before { line.new.before ≡ line.old.before }
{
    if let Some(waits) = lasting {
        line.append_text("lasting")?;
        put_number(u64::from(waits.wait), line)?;
        put_number(u64::from(waits.silence), line)?;
        line.push(b'\n')?;
    }
    Ok(())
}

/// Returns the name of a service.
#[tactic(auto, unfolding(ft_model::specs::Texts::service_text))]
fn service_word(kind: ServiceKind) -> &'static str
    ensures { result.now ≡ service_text kind }
{
    match kind {
        ServiceKind::Echo => "echo",
        ServiceKind::Line => "line",
        ServiceKind::Transfer => "transfer",
        ServiceKind::Meter => "meter",
    }
}

/// Appends the lines of the clients, numbered from 1.
#[tactic(auto, using(std::proofs::Common::append_assoc))]
fn put_clients(clients: &[ClientLine], line: &mut LineOut) -> Result<(), NoMemory>
    ensures ok { OnOk result (line.new.words ≡ line.old.words ++ schedule_lines 1 clients.now) }
    ensures before { line.new.before ≡ line.old.before }
{
    for (i, client) in clients.iter().enumerate() {
        put_client(i as u64 + 1, client, line)?;
    }
    Ok(())
}

/// Appends the line of client `n`.
#[tactic(auto, using(crate::proofs::LineLemmas::line_rules), unfolding(ft_model::specs::Report::schedule_line))]
fn put_client(n: u64, client: &ClientLine, line: &mut LineOut) -> Result<(), NoMemory>
    ensures ok { OnOk result (line.new.words ≡ line.old.words ++ schedule_line n client.now) }
    ensures before { line.new.before ≡ line.old.before }
{
    line.append_text("client")?;
    put_number(n, line)?;
    put_address(client.key.ip, client.key.port, line)?;
    put_number(u64::from(client.isn), line)?;
    put_script(&client.script, line)?;
    line.push(b'\n')
}

/// Appends a space, and the script of a client.
#[tactic(auto, using(std::proofs::Common::append_assoc), unfolding(ft_model::specs::Texts::script_text))]
fn put_script(script: &Script, line: &mut LineOut) -> Result<(), NoMemory>
    ensures ok { OnOk result (line.new.words ≡ line.old.words ++ 32 ∷ script_text script.now) }
    ensures before { line.new.before ≡ line.old.before }
{
    match script {
        Script::Bytes(bytes) => put_bytes(bytes.as_slice(), line),
        Script::Fill { len } => {
            put_word("fill:", line)?;
            put_digits(u64::from(*len), line)
        }
    }
}

/// Appends a space, and the bytes of a script: `-` for none, otherwise their hexadecimal after `hex:`.
#[tactic(auto, using(std::proofs::Common::append_assoc))]
fn put_bytes(bytes: &[u8], line: &mut LineOut) -> Result<(), NoMemory>
    ensures ok { OnOk result (line.new.words ≡ line.old.words ++ 32 ∷ (if length bytes.now == 0 then codes "-" else codes "hex:" ++ encode_lower bytes.now)) }
    ensures before { line.new.before ≡ line.old.before }
{
    if bytes.is_empty() {
        return put_word("-", line);
    }
    put_word("hex:", line)?;
    put_hex_digits(bytes, line)
}
