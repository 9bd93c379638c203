//! The words of a schedule: numbers, addresses, services, profiles and scripts. Each is accepted only in its spelling.

ghost use Rattle.limits.specs.Limits.{longest_stream};
ghost use Rattle.std.specs.Prelude.{◌≡◌, ◌+◌, ◌*◌, ◌%◌, ◌<◌, ◌≤◌, ◌^◌, true, length, option_map, IsTrue, IfOk, IfSome};
ghost use Rattle.std.specs.List.{list_all};
ghost use Rattle.ft_model.specs.declared.schedule.Script.TheVariants.{Fill};
ghost use Rattle.std.specs.Char.{digit_value, is_ascii_digit, is_ascii_hexdigit};
ghost use Rattle.std.specs.Str.Parse.{digits_value};
ghost use Rattle.ft_model.specs.Spelling.{numeral, within, number_of, short_number_of, octet_of, host_of, addr_of, service_of, profile_named};
ghost use Rattle.ft_model.specs.Spelling.{script_of, is_hex, hex_bytes};

use crate::words::{is_text, last_piece, next_piece};
use ft_io::{Addr, NoMemory, Octets};
use ft_model::{Script, ServiceKind};
use std::alloc::Global;
use tcp_rules::Profile;

/// The largest number of digits in a number.
pub(crate) const NUMBER_DIGITS: usize = 20;

/// The largest number of digits in a number of an address.
const ADDRESS_DIGITS: usize = 5;

/// The largest size of a script, in bytes.
const SCRIPT_LIMIT: usize = limits::STREAM as usize;

fn is_digit(byte: u8) -> bool
    ensures { result ≡ is_ascii_digit byte }
{
    byte.is_ascii_digit()
}

fn all_digits(word: &[u8]) -> bool
    ensures { result ≡ list_all is_ascii_digit word.now }
{
    word.iter().all(|byte| is_digit(*byte))
}

/// Returns the number that digits spell.
fn value_of(word: &[u8]) -> u128
    requires digits { list_all is_ascii_digit word.now ≡ true }
    requires short { length word.now ≤ 20 }
    ensures { result ≡ digits_value 10 word.now }
{
    let mut value = 0;
    for byte in word {
        value = value * 10 + u128::from(*byte - b'0');
    }
    value
}

/// Reads the number that one to `digits` decimal digits spell.
#[tactic(auto, unfolding(ft_model::specs::Spelling::numeral))]
pub(crate) fn read_numeral(digits: usize, word: &[u8]) -> Option<u128>
    requires { digits ≤ 20 }
    ensures { result ≡ numeral digits word.now }
{
    if word.is_empty() || word.len() > digits {
        return None;
    }
    if !all_digits(word) {
        return None;
    }
    Some(value_of(word))
}

fn brought_within(least: u64, most: u64, n: u128) -> Option<u64>
    ensures value { result ≡ within least most n }
    ensures range { IfSome result (λ n. (least ≤ n) × (n ≤ most)) }
{
    if u128::from(least) <= n && n <= u128::from(most) {
        Some(n as u64)
    } else {
        None
    }
}

/// Reads a number from `least` to `most`: 1 to 20 decimal digits, leading zeros allowed.
#[tactic(auto, unfolding(ft_model::specs::Spelling::number_of))]
pub fn read_number(word: &[u8], least: u64, most: u64) -> Option<u64>
    ensures value { result ≡ number_of least most word.now }
    ensures range { IfSome result (λ n. (least ≤ n) × (n ≤ most)) }
{
    brought_within(least, most, read_numeral(NUMBER_DIGITS, word)?)
}

/// Reads a number of an address.
#[tactic(auto, unfolding(ft_model::specs::Spelling::short_number_of))]
fn read_short(word: &[u8], least: u64, most: u64) -> Option<u64>
    ensures value { result ≡ short_number_of least most word.now }
    ensures range { IfSome result (λ n. (least ≤ n) × (n ≤ most)) }
{
    brought_within(least, most, read_numeral(ADDRESS_DIGITS, word)?)
}

fn read_octet(word: &[u8]) -> Option<u32>
    ensures value { result ≡ octet_of word.now }
    ensures range { IfSome result (λ n. n ≤ 255) }
{
    Some(read_short(word, 0, 255)? as u32)
}

/// Reads the four octets of an IPv4 address.
#[tactic(auto, unfolding(ft_model::specs::Spelling::host_of))]
fn read_host(word: &[u8]) -> Option<u32>
    ensures { result ≡ host_of word.now }
{
    let (first, rest) = next_piece(word, b'.')?;
    let (second, rest) = next_piece(rest, b'.')?;
    let (third, rest) = next_piece(rest, b'.')?;
    let fourth = last_piece(rest, b'.')?;
    let first = read_octet(first)?;
    let second = read_octet(second)?;
    let third = read_octet(third)?;
    let fourth = read_octet(fourth)?;
    Some(16_777_216 * first + 65_536 * second + 256 * third + fourth)
}

/// Reads an IPv4 address and a port, such as `192.0.2.1:40000`.
#[tactic(auto, unfolding(ft_model::specs::Spelling::addr_of))]
pub fn read_addr(word: &[u8]) -> Option<Addr>
    ensures { result ≡ addr_of word.now }
{
    let (host, rest) = next_piece(word, b':')?;
    let port = last_piece(rest, b':')?;
    let ip = read_host(host)?;
    let port = read_short(port, 1, 65_535)? as u16;
    Some(Addr { ip, port })
}

/// Reads the name of a service.
#[tactic(auto, unfolding(ft_model::specs::Spelling::service_of))]
pub fn read_service(word: &[u8]) -> Option<ServiceKind>
    ensures { result ≡ service_of word.now }
{
    if is_text(word, "echo") {
        Some(ServiceKind::Echo)
    } else if is_text(word, "line") {
        Some(ServiceKind::Line)
    } else if is_text(word, "transfer") {
        Some(ServiceKind::Transfer)
    } else if is_text(word, "meter") {
        Some(ServiceKind::Meter)
    } else {
        None
    }
}

/// Reads the name of a profile.
#[tactic(auto, unfolding(ft_model::specs::Spelling::profile_named))]
pub fn read_profile(word: &[u8]) -> Option<Profile>
    ensures { result ≡ profile_named word.now }
{
    if is_text(word, "wan") {
        Some(Profile::Wan)
    } else {
        None
    }
}

fn is_hex_byte(byte: u8) -> bool
    ensures { result ≡ is_ascii_hexdigit byte }
{
    byte.is_ascii_hexdigit()
}

fn all_hex_digits(digits: &[u8]) -> bool
    ensures { result ≡ list_all is_ascii_hexdigit digits.now }
{
    digits.iter().all(|byte| is_hex_byte(*byte))
}

/// Returns whether these are pairs of hexadecimal digits: at least one pair, and no more pairs than a script may have bytes.
#[tactic(auto, unfolding(ft_model::specs::Spelling::is_hex))]
fn is_hex_text(digits: &[u8]) -> bool
    ensures value { result ≡ is_hex digits.now }
    ensures digits { IsTrue result → list_all is_ascii_hexdigit digits.now ≡ true }
    ensures pairs { IsTrue result → length digits.now % 2 ≡ 0 }
{
    if !all_hex_digits(digits) {
        return false;
    }
    if digits.len() % 2 != 0 {
        return false;
    }
    2 <= digits.len() && digits.len() <= 2 * SCRIPT_LIMIT
}

/// Returns the bytes that pairs of hexadecimal digits spell.
#[tactic(auto, using(crate::proofs::Hex::digits_read))]
fn bytes_of_hex(alloc: Global, digits: &[u8]) -> Result<Vec<u8>, NoMemory>
    requires digits { list_all is_ascii_hexdigit digits.now ≡ true }
    requires pairs { length digits.now % 2 ≡ 0 }
    ensures { IfOk result (λ bytes. bytes.items ≡ hex_bytes digits.now) }
{
    // All are digits, in pairs: so only an allocation can fail.
    hex::decode(alloc, digits).map_err(|_| NoMemory)
}

/// Reads a client's script: `-`, `hex:` and pairs of hexadecimal digits, or `fill:` and a number of bytes.
#[tactic(auto, unfolding(ft_model::specs::Spelling::script_of))]
pub fn read_script(alloc: Global, word: &[u8]) -> Result<Option<Script>, NoMemory>
    ensures { IfOk result (λ script. script ≡ script_of word.now) }
{
    if is_text(word, "-") {
        return Ok(Some(Script::Bytes(Octets::new(Vec::new(alloc)))));
    }
    if word.starts_with(b"hex:") {
        let digits = &word[4..];
        if !is_hex_text(digits) {
            return Ok(None);
        }
        return Ok(Some(Script::Bytes(Octets::new(bytes_of_hex(alloc, digits)?))));
    }
    if word.starts_with(b"fill:") {
        return Ok(read_fill(&word[5..]));
    }
    Ok(None)
}

fn read_fill(word: &[u8]) -> Option<Script>
    ensures { result ≡ option_map Fill (number_of 1 longest_stream word.now) }
{
    let len = read_number(word, 1, SCRIPT_LIMIT as u64)? as u32;
    Some(Script::Fill { len })
}
