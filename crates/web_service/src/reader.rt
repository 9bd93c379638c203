//! The bytes of a connection, read as one request after another.

ghost use Rattle.std.specs.Prelude.{◌≡◌, ℕ, ◌+◌, ◌-◌, ◌<◌, ◌≤◌, Option, Some, None, List, [], ◌∷◌, ◌++◌, length, IfOk};
ghost use Rattle.web_service.specs.Reader.{Reading, at_start, without_return, lacks_host, reply_to, stage_after, refused, fields_follow};
ghost use Rattle.web_service.specs.Reader.{request_line_end, field_line_end, line_end, at_line_end, too_long, line_byte, read_byte};

use crate::answer::{Reply, Status};
use crate::request::{Request, Version, request_line};
use ft_io::NoMemory;
use std::alloc::Global;
use std::marker::Model;

/// The most bytes of a request line, and of all field lines together, with their line ends.
const HEAD_LIMIT: usize = 8_192;

/// What is being read.
#[derive(Clone, Copy)]
pub enum Stage {
    /// A request line.
    RequestLine,
    /// The fields of a request.
    Fields(Request),
    /// A body, of which this many bytes are still to be dropped.
    Body(u64),
}

/// What the end of a line does.
#[derive(Clone, Copy)]
pub struct LineEnd {
    /// What is read next.
    pub stage: Stage,
    /// How many bytes the field lines have so far. 0 where none are read next.
    pub size: usize,
    /// The reply that is due.
    pub due: Option<Reply>,
}

/// Reads the requests of a connection, a byte at a time.
#[derive(Drop)]
pub struct Reader {
    stage: Stage,
    // The bytes of the unfinished line.
    held: Vec<u8>,
    // How many bytes the request line has so far, or the field lines.
    size: usize,
}

impl Model for Reader {
    ghost Value = { Reading };

    ghost view = { λ reader. record { stage = reader.stage; held = reader.held.items; size = reader.size } };
}

impl Reader {
    /// A reader before the first byte.
    pub(crate) fn new(alloc: Global) -> Reader
        ensures { result ≡ at_start }
    {
        Reader {
            stage: Stage::RequestLine,
            held: Vec::new(alloc),
            size: 0,
        }
    }

    /// Reads one byte, and returns the reply that is due after it, if any.
    #[tactic(auto, unfolding(crate::specs::Reader::line_byte))]
    pub(crate) fn read(&mut self, byte: u8) -> Result<Option<Reply>, NoMemory>
        ensures next { IfOk result (λ _. self.new ≡ (read_byte self.old byte).next) }
        ensures due { IfOk result (λ due. due ≡ (read_byte self.old byte).due) }
    {
        if let Stage::Body(left) = self.stage {
            self.stage = stage_after(Some(left.saturating_sub(1)));
            return Ok(None);
        }
        if self.size >= HEAD_LIMIT {
            return Ok(self.end_line(refused(too_long(self.stage))));
        }
        self.size += 1;
        if byte == b'\n' {
            let end = line_end(self.stage, self.size, without_return(&self.held));
            return Ok(self.end_line(end));
        }
        self.held.push(byte)?;
        Ok(None)
    }

    // Continues after the end of a line.
    fn end_line(&mut self, end: LineEnd) -> Option<Reply>
        ensures next { self.new ≡ (at_line_end end).next }
        ensures due { result ≡ end.due }
    {
        self.stage = end.stage;
        self.size = end.size;
        self.held.clear();
        end.due
    }
}

// What the end of this line does, where the request line or the field lines have `size` bytes with it.
fn line_end(stage: Stage, size: usize, line: &[u8]) -> LineEnd
    ensures { result ≡ line_end stage size line.now }
{
    match stage {
        Stage::Fields(request) => field_line_end(size, request, line),
        _ => request_line_end(line),
    }
}

// What the end of a request line does.
#[tactic(auto, unfolding(crate::specs::Reader::request_line_end))]
fn request_line_end(line: &[u8]) -> LineEnd
    ensures { result ≡ request_line_end line.now }
{
    if line.is_empty() {
        return LineEnd {
            stage: Stage::RequestLine,
            size: 0,
            due: None,
        };
    }
    fields_follow(0, request_line(line))
}

// What the end of a field line does.
#[tactic(auto, unfolding(crate::specs::Reader::field_line_end))]
pub(crate) fn field_line_end(size: usize, request: Request, line: &[u8]) -> LineEnd
    ensures { result ≡ field_line_end size request line.now }
{
    if line.is_empty() {
        return LineEnd {
            stage: stage_after(request.length),
            size: 0,
            due: Some(reply_to(request)),
        };
    }
    fields_follow(size, request.with_field(line))
}

// Fields follow a valid line. An invalid one is refused.
fn fields_follow(size: usize, read: Result<Request, Status>) -> LineEnd
    ensures { result ≡ fields_follow size read }
{
    match read {
        Ok(request) => LineEnd {
            stage: Stage::Fields(request),
            size,
            due: None,
        },
        Err(status) => refused(status),
    }
}

// An invalid line is refused.
fn refused(status: Status) -> LineEnd
    ensures { result ≡ refused status }
{
    LineEnd {
        stage: Stage::RequestLine,
        size: 0,
        due: Some(Reply::Refusal(status)),
    }
}

// The status that refuses what is too long.
fn too_long(stage: Stage) -> Status
    ensures { result ≡ too_long stage }
{
    match stage {
        Stage::Fields(_) => Status::FieldsTooLarge,
        _ => Status::UriTooLong,
    }
}

// The reply to a request whose fields are complete.
fn reply_to(request: Request) -> Reply
    ensures { result ≡ reply_to request }
{
    if lacks_host(request.version, request.host) {
        return Reply::Refusal(Status::BadRequest);
    }
    if request.coding {
        return Reply::Refusal(Status::NotImplemented);
    }
    Reply::Answer(request)
}

// Whether a request lacks the Host that it must have.
fn lacks_host(version: Version, host: bool) -> bool
    ensures { result ≡ lacks_host version host }
{
    match version {
        Version::Eleven => !host,
        Version::Ten => false,
    }
}

// What follows the fields of a request whose body has this length.
fn stage_after(length: Option<u64>) -> Stage
    ensures { result ≡ stage_after length }
{
    match length {
        Some(left) if left > 0 => Stage::Body(left),
        _ => Stage::RequestLine,
    }
}

// A line without a carriage return at its end.
fn without_return(line: &[u8]) -> &[u8]
    ensures { result.now ≡ without_return line.now }
{
    match line.strip_suffix(b"\r") {
        Some(front) => front,
        None => line,
    }
}
