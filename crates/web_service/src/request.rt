//! What a request says: its request line and its fields.

ghost use Rattle.std.specs.Prelude.{◌≡◌, ℕ, ◌+◌, ◌^◌, ◌≤◌, ◌<◌, Result, Ok, Err, List, length};
ghost use Rattle.web_service.specs.Request.{is_version, version_of, method_of, path_of, page_at, page_of, request_line, with_named, with_field};
ghost use Rattle.web_service.specs.Request.{bytes_page, count_page, from_slash};

use crate::answer::Status;
use crate::text;
use memchr::memchr;

/// The most bytes that a request may ask for.
const BYTES_LIMIT: u64 = 1_000_000;

/// The most lines that a request may ask for.
const LINES_LIMIT: u64 = 100_000;

/// The start of a target that has an authority before its path.
const SCHEME: &[u8] = b"http://";

/// What a request asks to do.
#[derive(Clone, Copy, PartialEq, Eq)]
pub enum Method {
    Get,
    Head,
    Other,
}

/// What a request asks for.
#[derive(Clone, Copy)]
pub enum Page {
    /// The page that describes the server.
    Home,
    /// This many bytes.
    Bytes(u32),
    /// This many numbered lines.
    Count(u32),
    /// No page of this server.
    Missing,
}

/// HTTP/1.0 or HTTP/1.1.
#[derive(Clone, Copy, PartialEq, Eq)]
pub enum Version {
    Ten,
    Eleven,
}

/// A request, as far as its fields have been read.
#[derive(Clone, Copy)]
pub struct Request {
    /// What it asks to do.
    pub method: Method,
    /// The page at its target's path.
    pub page: Page,
    /// HTTP/1.0 or HTTP/1.1.
    pub version: Version,
    /// Whether it has a Host field.
    pub host: bool,
    /// The length of its body in bytes, where a field gives one.
    pub length: Option<u64>,
    /// Whether it asks to close the connection.
    pub close: bool,
    /// Whether it asks to keep the connection.
    pub keep: bool,
    /// Whether its body has a transfer coding.
    pub coding: bool,
}

#[tactic(auto, unfolding(crate::specs::Request::is_version))]
fn is_version(word: &[u8]) -> bool
    ensures { result ≡ is_version word.now }
{
    word.len() == 8
        && &word[..5] == b"HTTP/".as_slice()
        && word[5].is_ascii_digit()
        && word[6] == b'.'
        && word[7].is_ascii_digit()
}

#[tactic(auto, unfolding(crate::specs::Request::version_of, crate::specs::Request::is_version))]
fn version_of(word: &[u8]) -> Result<Version, Status>
    ensures { result ≡ version_of word.now }
{
    if !is_version(word) {
        return Err(Status::BadRequest);
    }
    if word[5] != b'1' {
        return Err(Status::VersionNotSupported);
    }
    Ok(if word[7] == b'0' {
        Version::Ten
    } else {
        Version::Eleven
    })
}

#[tactic(auto, unfolding(crate::specs::Request::method_of))]
fn method_of(word: &[u8]) -> Method
    ensures { result ≡ method_of word.now }
{
    if word == b"GET".as_slice() {
        Method::Get
    } else if word == b"HEAD".as_slice() {
        Method::Head
    } else {
        Method::Other
    }
}

// The bytes from the first slash on.
fn from_slash(bytes: &[u8]) -> &[u8]
    ensures { result.now ≡ from_slash bytes.now }
{
    match memchr(b'/', bytes) {
        Some(at) => &bytes[at..],
        None => &bytes[bytes.len()..],
    }
}

// The path and the query of a target.
#[tactic(auto, using(crate::proofs::Texts::short_scheme), unfolding(crate::specs::Request::path_of))]
fn path_of(target: &[u8]) -> &[u8]
    ensures { result.now ≡ path_of target.now }
{
    if target.len() < SCHEME.len() {
        return target;
    }
    let (scheme, rest) = target.split_at(SCHEME.len());
    if text::same_word(scheme, SCHEME) {
        from_slash(rest)
    } else {
        target
    }
}

// The page of as many bytes as this word says.
fn bytes_page(word: &[u8]) -> Page
    ensures { result ≡ bytes_page word.now }
{
    if text::is_number(word) {
        let count = text::number(word);
        if count <= BYTES_LIMIT {
            return Page::Bytes(count as u32);
        }
    }
    Page::Missing
}

// The page of as many lines as this word says.
fn count_page(word: &[u8]) -> Page
    ensures { result ≡ count_page word.now }
{
    if text::is_number(word) {
        let count = text::number(word);
        if count <= LINES_LIMIT {
            return Page::Count(count as u32);
        }
    }
    Page::Missing
}

// The page at a path.
#[tactic(auto, unfolding(crate::specs::Request::page_at))]
fn page_at(path: &[u8]) -> Page
    ensures { result ≡ page_at path.now }
{
    if path.is_empty() || path == b"/".as_slice() {
        return Page::Home;
    }
    if let Some(word) = path.strip_prefix(b"/bytes/") {
        return bytes_page(word);
    }
    if let Some(word) = path.strip_prefix(b"/count/") {
        return count_page(word);
    }
    Page::Missing
}

// The page of a target. The query is ignored.
#[tactic(auto, unfolding(crate::specs::Request::page_of))]
fn page_of(target: &[u8]) -> Page
    ensures { result ≡ page_of target.now }
{
    page_at(text::split_at_byte(b'?', path_of(target)).0)
}

/// Reads a request line.
#[tactic(auto, unfolding(crate::specs::Request::request_line))]
pub(crate) fn request_line(line: &[u8]) -> Result<Request, Status>
    ensures { result ≡ request_line line.now }
{
    if !text::is_plain(line) {
        return Err(Status::BadRequest);
    }
    let (method, rest) = text::split_at_byte(b' ', line);
    let (target, word) = text::split_at_byte(b' ', rest);
    let version = version_of(word)?;
    if !text::is_token(method) || target.is_empty() {
        return Err(Status::BadRequest);
    }
    Ok(Request {
        method: method_of(method),
        page: page_of(target),
        version,
        host: false,
        length: None,
        close: false,
        keep: false,
        coding: false,
    })
}

impl Request {
    /// The request with one more field line.
    #[tactic(auto, unfolding(crate::specs::Request::with_field))]
    pub(crate) fn with_field(self, line: &[u8]) -> Result<Request, Status>
        ensures { result ≡ with_field self line.now }
    {
        let (name, value) = text::split_at_byte(b':', line);
        if !text::is_plain(line) || !line.contains(&b':') || !text::is_token(name) {
            return Err(Status::BadRequest);
        }
        self.with_named(name, text::trimmed(value))
    }

    // The request with one more field, of this name and value.
    #[tactic(auto, unfolding(crate::specs::Request::with_named))]
    fn with_named(self, name: &[u8], value: &[u8]) -> Result<Request, Status>
        ensures { result ≡ with_named self name.now value.now }
    {
        if text::same_word(name, b"host") {
            if self.host || !text::is_host(value) {
                return Err(Status::BadRequest);
            }
            Ok(Request { host: true, ..self })
        } else if text::same_word(name, b"content-length") {
            if self.length.is_some() || !text::is_number(value) {
                return Err(Status::BadRequest);
            }
            Ok(Request {
                length: Some(text::number(value)),
                ..self
            })
        } else if text::same_word(name, b"transfer-encoding") {
            Ok(Request {
                coding: true,
                ..self
            })
        } else if text::same_word(name, b"connection") {
            Ok(Request {
                close: self.close || text::has_option(b"close", value),
                keep: self.keep || text::has_option(b"keep-alive", value),
                ..self
            })
        } else {
            Ok(self)
        }
    }
}
