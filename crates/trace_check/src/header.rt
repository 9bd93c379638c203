//! The header of a report, line by line.

ghost use Rattle.std.specs.Prelude.{◌≡◌, ◌<◌, ◌≤◌, ◌+◌, ◌^◌, codes, [], ◌∷◌, drop, length, take, true, IfErr, IfNone, IfOk, IfSome};
ghost use Rattle.std.specs.Str.{bytes_eq};
ghost use Rattle.ft_model.specs.Legal.{machines};
ghost use Rattle.ft_model.specs.declared.line.Draft.{Draft};
ghost use Rattle.ft_model.specs.declared.line.Draft.TheVariants.{Empty, Named, Begun};
ghost use Rattle.report_laws.specs.Canonical.{schedule_bytes};
ghost use Rattle.report_laws.specs.Lines.{lines_in};
ghost use Rattle.report_laws.specs.Transitions.{is_header_line, pieces};
ghost use Rattle.report_laws.specs.Transitions.Position.{InHeader};
ghost use Rattle.trace_check.specs.After.{IsAfter};
ghost use Rattle.trace_check.specs.Leads.{Belongs, EndsHeader, IsReadTo, IsRejection, Leads};

use crate::end::CheckEnd;
use crate::lines::{belongs_to_header, between, line_end, line_length};
use ft_model::ServiceKind;
use line_check::{read_header_line, read_service_line};
use report_laws::Law;
use schedule_text::Schedule;
use server_trait::Service;
use std::alloc::Global;

/// A header, as far as it is read.
#[derive(Drop)]
pub struct Header {
    /// The schedule that it spells.
    pub schedule: Schedule,
    /// Its length in bytes.
    pub bytes: usize,
    /// Its number of lines.
    pub lines: u32,
}

fn is_name(line: &[u8]) -> bool
    ensures { result ≡ bytes_eq line.now (codes "ftreplay 1\n") }
{
    line == b"ftreplay 1\n".as_slice()
}

/// Returns the length of a report's first line.
#[tactic(auto, using(crate::proofs::Cited::read_name_lemmas))]
fn read_name<S: Service>(text: &[u8]) -> Result<usize, CheckEnd>
    ensures ok { IfOk result (λ at. (at ≤ length text.now) × (0 < at) × (take at text.now ≡ codes "ftreplay 1\n")
        × Leads (machines S.started S.after S.greeting) text.now (InHeader Empty) (drop at text.now) 1) }
    ensures rejected { IfErr result (IsRejection (machines S.started S.after S.greeting) text.now) }
{
    if text.is_empty() {
        return Err(CheckEnd::Reject {
            line: 1,
            law: Law::End,
        });
    }
    let len = line_length(text);
    if is_name(&text[..len]) {
        Ok(len)
    } else {
        Err(CheckEnd::Reject {
            line: 1,
            law: Law::Text,
        })
    }
}

/// Reads the service from a report's second line, which begins at `at`. Returns the service and the end of that line.
#[tactic(auto, using(crate::proofs::Cited::read_service_lemmas))]
fn read_service<S: Service>(text: &[u8], at: usize) -> Result<(ServiceKind, usize), CheckEnd>
    requires within { (0 < at) × (at ≤ length text.now) }
    requires name { take at text.now ≡ codes "ftreplay 1\n" }
    requires leads { Leads (machines S.started S.after S.greeting) text.now (InHeader Empty) (drop at text.now) 1 }
    ensures ok { IfOk result (λ read. IsReadTo (machines S.started S.after S.greeting) text.now (Named read.0) read.1 2) }
    ensures rejected { IfErr result (IsRejection (machines S.started S.after S.greeting) text.now) }
{
    if at == text.len() {
        return Err(CheckEnd::Reject {
            line: 2,
            law: Law::End,
        });
    }
    let end = line_end(text, at);
    match read_service_line(between(text, at, end)) {
        Some(kind) => Ok((kind, end)),
        None => Err(CheckEnd::Reject {
            line: 2,
            law: Law::Text,
        }),
    }
}

/// Reads the header's line from `at` to `end`, after `lines` lines.
#[tactic(auto, using(crate::proofs::HeaderLines::header_line_is_read, crate::proofs::HeaderLines::header_line_is_rejected))]
fn read_line<S: Service>(
    alloc: Global,
    text: &[u8],
    at: usize,
    end: usize,
    lines: u32,
) -> Result<Header, CheckEnd>
    requires within { (12 ≤ at) × (at < end) × (end ≤ length text.now) × (length text.now < 2 ^ 32) × (lines ≤ at) }
    requires line { lines_in (drop at text.now) ≡ drop at (take end text.now) ∷ lines_in (drop end text.now) }
    ensures bytes { IfOk result (λ header. header.bytes ≡ end) }
    ensures lines { IfOk result (λ header. header.lines ≡ lines + 1) }
    ensures ok { IfOk result (λ header. (draft : Draft) → IsReadTo (machines S.started S.after S.greeting) text.now draft at lines
        → Belongs draft (drop at (take end text.now))
        → IsReadTo (machines S.started S.after S.greeting) text.now (Begun header.schedule) end (lines + 1)) }
    ensures rejected { IfErr result (λ why. (draft : Draft) → IsReadTo (machines S.started S.after S.greeting) text.now draft at lines
        → Belongs draft (drop at (take end text.now))
        → IsRejection (machines S.started S.after S.greeting) text.now why) }
{
    match read_header_line(alloc, &text[..end], at) {
        Ok(Some(schedule)) => Ok(Header {
            schedule,
            bytes: end,
            lines: lines + 1,
        }),
        Ok(None) => Err(CheckEnd::Reject {
            line: lines + 1,
            law: Law::Text,
        }),
        Err(_) => Err(CheckEnd::NoMemory),
    }
}

/// Reads the header up to the server's line.
#[tactic(auto, using(crate::proofs::HeaderLines::no_server_is_rejected))]
fn read_server<S: Service>(alloc: Global, text: &[u8]) -> Result<Header, CheckEnd>
    requires { length text.now < 2 ^ 32 }
    ensures ok { IfOk result (λ header. IsReadTo (machines S.started S.after S.greeting) text.now (Begun header.schedule) header.bytes header.lines) }
    ensures rejected { IfErr result (IsRejection (machines S.started S.after S.greeting) text.now) }
{
    let name = read_name::<S>(text)?;
    let (_kind, at) = read_service::<S>(text, name)?;
    if at == text.len() {
        return Err(CheckEnd::Reject {
            line: 3,
            law: Law::End,
        });
    }
    let end = line_end(text, at);
    read_line::<S>(alloc, text, at, end, 2)
}

/// Returns the end of the next line, if it belongs to the header.
#[tactic(auto, using(crate::proofs::HeaderLines::header_ends_with_text, crate::proofs::HeaderLines::header_ends_before))]
fn next_line_end(header: &Header, text: &[u8]) -> Option<usize>
    requires { header.now.bytes ≤ length text.now }
    ensures within { IfSome result (λ end. (header.now.bytes < end) × (end ≤ length text.now)) }
    ensures line { IfSome result (λ end. lines_in (drop header.now.bytes text.now) ≡ drop header.now.bytes (take end text.now) ∷ lines_in (drop end text.now)) }
    ensures belongs { IfSome result (λ end. is_header_line header.now.schedule (pieces (drop header.now.bytes (take end text.now))) ≡ true) }
    ensures none { IfNone result (EndsHeader header.now.schedule (lines_in (drop header.now.bytes text.now))) }
{
    if header.bytes == text.len() {
        return None;
    }
    let end = line_end(text, header.bytes);
    if belongs_to_header(&header.schedule, between(text, header.bytes, end)) {
        Some(end)
    } else {
        None
    }
}

/// Reads a report's header. The line after it, if there is one, doesn't belong to the header. The text is rejected at the first line that may not follow
/// those before it.
#[tactic(auto, using(crate::proofs::HeaderLines::header_leads, crate::proofs::HeaderLines::header_size))]
pub fn read_header<S: Service>(alloc: Global, text: &[u8]) -> Result<Header, CheckEnd>
    requires { length text.now < 2 ^ 32 }
    ensures read { IfOk result (λ header. IsReadTo (machines S.started S.after S.greeting) text.now (Begun header.schedule) header.bytes header.lines) }
    ensures after { IfOk result (λ header. IsAfter (machines S.started S.after S.greeting) text.now header.schedule []
        (drop header.bytes text.now) header.lines) }
    ensures size { IfOk result (λ header. length (schedule_bytes (Begun header.schedule)) + 11 ≡ header.bytes) }
    ensures rejected { IfErr result (IsRejection (machines S.started S.after S.greeting) text.now) }
{
    let mut header = read_server::<S>(alloc, text)?;
    while let Some(end) = next_line_end(&header, text) {
        header = read_line::<S>(alloc, text, header.bytes, end, header.lines)?;
    }
    Ok(header)
}
