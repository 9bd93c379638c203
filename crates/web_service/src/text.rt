//! Tests and parts of the texts in a request: tokens, numbers, lists with commas.

ghost use Rattle.std.specs.Prelude.{◌≡◌, ℕ, ◌+◌, ◌-◌, ◌*◌, ◌^◌, ◌≤◌, ◌<◌, ◌==◌, min, List, length, true};
ghost use Rattle.std.specs.Char.{is_ascii_digit};
ghost use Rattle.std.specs.List.{before_first, after_first, list_all};
ghost use Rattle.web_service.specs.Text.{is_token_byte, is_token, is_host_byte, is_host, is_plain_byte, is_plain, trimmed, same_word, has_option};
ghost use Rattle.web_service.specs.Text.{is_number, number, digit_more};

use memchr::memchr;

/// The bytes other than letters and digits that a token may have.
const TOKEN_MARKS: &[u8] = b"!#$%&'*+-.^_`|~";

/// The bytes other than letters and digits that a Host may have.
const HOST_MARKS: &[u8] = b"-._~!$&'()*+,;=%:[]";

/// The largest number that is read. Each larger one is read as this.
const NUMBER_LIMIT: u64 = 1_000_000_000_000_000_000;

fn is_token_byte(byte: u8) -> bool
    ensures { result ≡ is_token_byte byte }
{
    byte.is_ascii_alphanumeric() || TOKEN_MARKS.contains(&byte)
}

fn are_token_bytes(bytes: &[u8]) -> bool
    ensures { result ≡ list_all is_token_byte bytes.now }
{
    bytes.iter().all(|byte| is_token_byte(*byte))
}

/// Whether these bytes are a token (RFC 9110, section 5.6.2), as the name of a field is.
#[tactic(auto, unfolding(crate::specs::Text::is_token))]
pub(crate) fn is_token(word: &[u8]) -> bool
    ensures { result ≡ is_token word.now }
{
    are_token_bytes(word) && !word.is_empty()
}

fn is_host_byte(byte: u8) -> bool
    ensures { result ≡ is_host_byte byte }
{
    byte.is_ascii_alphanumeric() || HOST_MARKS.contains(&byte)
}

/// Whether these bytes may be the value of a Host.
#[tactic(auto, unfolding(crate::specs::Text::is_host))]
pub(crate) fn is_host(word: &[u8]) -> bool
    ensures { result ≡ is_host word.now }
{
    word.iter().all(|byte| is_host_byte(*byte))
}

fn is_plain_byte(byte: u8) -> bool
    ensures { result ≡ is_plain_byte byte }
{
    byte == b'\t' || !byte.is_ascii_control()
}

/// Whether a line has no control character except tabs.
#[tactic(auto, unfolding(crate::specs::Text::is_plain))]
pub(crate) fn is_plain(line: &[u8]) -> bool
    ensures { result ≡ is_plain line.now }
{
    line.iter().all(|byte| is_plain_byte(*byte))
}

/// The bytes before the first `byte`, and the bytes after it. Where there is no such byte, all bytes, and none.
#[tactic(auto, using(crate::proofs::Texts::place_found, crate::proofs::Texts::place_none))]
pub fn split_at_byte(byte: u8, bytes: &[u8]) -> (&[u8], &[u8])
    ensures front { result.0.now ≡ before_first (λ b. b == byte) bytes.now }
    ensures back { result.1.now ≡ after_first (λ b. b == byte) bytes.now }
{
    match memchr(byte, bytes) {
        Some(at) => (&bytes[..at], &bytes[at + 1..]),
        None => (bytes, &bytes[bytes.len()..]),
    }
}

/// The bytes without the white space at both ends.
pub(crate) fn trimmed(bytes: &[u8]) -> &[u8]
    ensures { result.now ≡ trimmed bytes.now }
{
    bytes.trim_ascii()
}

/// Whether two words are equal, whatever the case of their letters.
pub fn same_word(a: &[u8], b: &[u8]) -> bool
    ensures { result ≡ same_word a.now b.now }
{
    a.eq_ignore_ascii_case(b)
}

/// Whether a comma-separated list has this word.
#[tactic(auto, using(crate::proofs::Texts::option_last), unfolding(crate::specs::Text::has_option))]
pub(crate) fn has_option(word: &[u8], value: &[u8]) -> bool
    ensures { result ≡ has_option word.now value.now }
{
    let mut rest = value;
    while let Some(at) = memchr(b',', rest) {
        if same_word(trimmed(&rest[..at]), word) {
            return true;
        }
        rest = &rest[at + 1..];
    }
    same_word(trimmed(rest), word)
}

fn are_digits(bytes: &[u8]) -> bool
    ensures { result ≡ list_all is_ascii_digit bytes.now }
{
    bytes.iter().all(|byte| byte.is_ascii_digit())
}

/// Whether these bytes are one digit or more.
#[tactic(auto, unfolding(crate::specs::Text::is_number))]
pub fn is_number(word: &[u8]) -> bool
    ensures { result ≡ is_number word.now }
{
    are_digits(word) && !word.is_empty()
}

// A number with one more digit.
fn digit_more(number: u64, byte: u8) -> u64
    requires { number ≤ 10 ^ 18 }
    ensures { result ≡ digit_more number byte }
{
    let more = number * 10 + u64::from(byte.saturating_sub(b'0'));
    more.min(NUMBER_LIMIT)
}

/// The number that digits spell.
#[tactic(auto, unfolding(crate::specs::Text::number))]
pub fn number(word: &[u8]) -> u64
    ensures value { result ≡ number word.now }
{
    let mut number = 0;
    for byte in word {
        number = digit_more(number, *byte);
    }
    number
}
