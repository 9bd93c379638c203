//! The answers to requests. Each is made from the request alone.

ghost use Rattle.std.specs.Prelude.{◌≡◌, ℕ, ◌+◌, ◌^◌, ◌≤◌, Bool, true, false, List, [], ◌++◌, length, OnOk, IfOk};
ghost use Rattle.web_service.specs.Answer.{status_line, connection_line, head_of, made_bytes, made_lines, content, is_found, allowed, status_of};
ghost use Rattle.web_service.specs.Answer.{body_of, sent_body, closes, closes_by_itself, answer_of};

use crate::request::{Method, Page, Request, Version};
use ft_io::NoMemory;
use itoa::Buffer;
use std::alloc::Global;

/// Byte i of `/bytes/N` is i modulo this.
const PERIOD: u32 = 251;

/// The page that describes the server.
const HOME: &[u8] =
    b"A web server whose answers are made, so that it gives the same ones again after a crash.\n/bytes/N has N bytes, and /count/N has N numbered lines.\n";

/// The status of an answer.
#[derive(Clone, Copy, PartialEq, Eq)]
pub enum Status {
    Good,
    BadRequest,
    NotFound,
    MethodNotAllowed,
    UriTooLong,
    FieldsTooLarge,
    NotImplemented,
    Unavailable,
    VersionNotSupported,
}

/// A reply that is due.
#[derive(Clone, Copy)]
pub enum Reply {
    /// The answer to a request.
    Answer(Request),
    /// A status without a body, after which the connection closes.
    Refusal(Status),
}

#[tactic(auto, unfolding(crate::specs::Answer::status_line))]
fn write_status(status: Status, out: &mut Vec<u8>) -> Result<(), NoMemory>
    ensures { OnOk result (out.new.items ≡ out.old.items ++ status_line status) }
{
    match status {
        Status::Good => out.extend_from_slice(b"HTTP/1.1 200 OK\r\n")?,
        Status::BadRequest => out.extend_from_slice(b"HTTP/1.1 400 Bad Request\r\n")?,
        Status::NotFound => out.extend_from_slice(b"HTTP/1.1 404 Not Found\r\n")?,
        Status::MethodNotAllowed => {
            out.extend_from_slice(b"HTTP/1.1 405 Method Not Allowed\r\nAllow: GET, HEAD\r\n")?
        }
        Status::UriTooLong => out.extend_from_slice(b"HTTP/1.1 414 URI Too Long\r\n")?,
        Status::FieldsTooLarge => {
            out.extend_from_slice(b"HTTP/1.1 431 Request Header Fields Too Large\r\n")?
        }
        Status::NotImplemented => out.extend_from_slice(b"HTTP/1.1 501 Not Implemented\r\n")?,
        Status::Unavailable => out.extend_from_slice(b"HTTP/1.1 503 Service Unavailable\r\n")?,
        Status::VersionNotSupported => {
            out.extend_from_slice(b"HTTP/1.1 505 HTTP Version Not Supported\r\n")?
        }
    }
    Ok(())
}

#[tactic(auto, unfolding(crate::specs::Answer::connection_line))]
fn write_connection(closes: bool, out: &mut Vec<u8>) -> Result<(), NoMemory>
    ensures { OnOk result (out.new.items ≡ out.old.items ++ connection_line closes) }
{
    if closes {
        out.extend_from_slice(b"\r\nConnection: close\r\n\r\n")?;
    } else {
        out.extend_from_slice(b"\r\nConnection: keep-alive\r\n\r\n")?;
    }
    Ok(())
}

/// Appends an answer without its body: its status line and its fields.
#[tactic(auto, using(std::proofs::Common::append_assoc), unfolding(crate::specs::Answer::head_of))]
pub(crate) fn write_head(
    status: Status,
    len: usize,
    closes: bool,
    out: &mut Vec<u8>,
) -> Result<(), NoMemory>
    ensures { OnOk result (out.new.items ≡ out.old.items ++ head_of status len closes) }
{
    write_status(status, out)?;
    let mut digits = Buffer::new();
    out.extend_from_slice(b"Content-Length: ")?;
    out.extend_from_slice(digits.format(len).as_bytes())?;
    write_connection(closes, out)
}

#[tactic(auto, using(crate::proofs::Made::bytes_more, crate::proofs::Made::bytes_none, std::proofs::Common::append_assoc))]
fn write_bytes(count: u32, out: &mut Vec<u8>) -> Result<(), NoMemory>
    ensures { OnOk result (out.new.items ≡ out.old.items ++ made_bytes count) }
{
    out.reserve(count as usize)?;
    for i in 0..count {
        out.push((i % PERIOD) as u8)?;
    }
    Ok(())
}

#[tactic(auto, using(crate::proofs::Made::lines_more, crate::proofs::Made::lines_none, std::proofs::Common::append_assoc))]
fn write_lines(count: u32, out: &mut Vec<u8>) -> Result<(), NoMemory>
    ensures { OnOk result (out.new.items ≡ out.old.items ++ made_lines count) }
{
    for i in 0..count {
        let mut digits = Buffer::new();
        out.extend_from_slice(digits.format(i + 1).as_bytes())?;
        out.push(b'\n')?;
    }
    Ok(())
}

#[tactic(auto, unfolding(crate::specs::Answer::content, crate::specs::Answer::home_text))]
fn write_content(page: Page, out: &mut Vec<u8>) -> Result<(), NoMemory>
    ensures { OnOk result (out.new.items ≡ out.old.items ++ content page) }
{
    match page {
        Page::Home => {
            out.extend_from_slice(HOME)?;
            Ok(())
        }
        Page::Bytes(count) => write_bytes(count, out),
        Page::Count(count) => write_lines(count, out),
        Page::Missing => Ok(()),
    }
}

// Whether the server has this page.
fn is_found(page: Page) -> bool
    ensures { result ≡ is_found page }
{
    match page {
        Page::Home => true,
        Page::Bytes(_) => true,
        Page::Count(_) => true,
        Page::Missing => false,
    }
}

// The status for a method, where the server has the page.
fn allowed(method: Method) -> Status
    ensures { result ≡ allowed method }
{
    match method {
        Method::Get => Status::Good,
        Method::Head => Status::Good,
        Method::Other => Status::MethodNotAllowed,
    }
}

// Appends a body, unless the method is HEAD.
pub(crate) fn send_body(method: Method, body: &[u8], out: &mut Vec<u8>) -> Result<(), NoMemory>
    ensures { OnOk result (out.new.items ≡ out.old.items ++ sent_body method body.now) }
{
    match method {
        Method::Get => out.extend_from_slice(body)?,
        Method::Head => (),
        Method::Other => out.extend_from_slice(body)?,
    }
    Ok(())
}

impl Request {
    /// The status of the answer.
    pub(crate) fn status(self) -> Status
        ensures { result ≡ status_of self.method self.page }
    {
        if is_found(self.page) {
            allowed(self.method)
        } else {
            Status::NotFound
        }
    }

    /// Appends the body whose length the answer gives, even where the body isn't sent.
    pub(crate) fn write_body(self, out: &mut Vec<u8>) -> Result<(), NoMemory>
        ensures { OnOk result (out.new.items ≡ out.old.items ++ body_of self.method self.page) }
    {
        match self.method {
            Method::Get => write_content(self.page, out),
            Method::Head => write_content(self.page, out),
            Method::Other => Ok(()),
        }
    }

    /// Whether the connection closes after the answer.
    pub(crate) fn closes(self) -> bool
        ensures { result ≡ closes self }
    {
        self.close || closes_by_itself(self.version, self.keep)
    }

    /// The complete answer.
    #[tactic(auto, using(std::proofs::Common::append_assoc), unfolding(crate::specs::Answer::answer_of))]
    pub(crate) fn answer(self, alloc: Global) -> Result<Vec<u8>, NoMemory>
        ensures { IfOk result (λ answer. answer.items ≡ answer_of self) }
    {
        let mut body = Vec::new(alloc);
        self.write_body(&mut body)?;
        let mut answer = Vec::new(alloc);
        write_head(self.status(), body.len(), self.closes(), &mut answer)?;
        send_body(self.method, &body, &mut answer)?;
        Ok(answer)
    }
}

// Whether the connection closes without a field that asks for it.
fn closes_by_itself(version: Version, keep: bool) -> bool
    ensures { result ≡ closes_by_itself version keep }
{
    match version {
        Version::Ten => !keep,
        Version::Eleven => false,
    }
}
