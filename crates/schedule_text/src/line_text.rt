//! The words of a report's line, appended one by one: each value in its one spelling. After `NoMemory` the line may be incomplete; `close` cuts it off.

ghost use Rattle.std.specs.Prelude.{◌≡◌, ◌<◌, ◌≤◌, ◌∷◌, [], ◌++◌, ◌+◌, ◌/◌, ◌%◌, codes, decimal, length, take, drop, OnOk};
ghost use Rattle.hex.specs.Hex.{encode_lower};
ghost use Rattle.ft_model.specs.Texts.{or_dash, behind_commas, hex_text, list_text, address_text, letter_if, flag_letters, flags_text, mss_text, bit_text};
ghost use Rattle.ft_model.specs.Texts.{spaced, way_text};
ghost use Rattle.ft_model.specs.Report.{timestamps_words};

use crate::line_out::LineOut;
use ft_io::NoMemory;
use ft_model::Way;
use itoa::Buffer;
use seq_arith::Timestamps;

/// How many bytes are turned into hexadecimal at a time.
const HEX_BYTES: usize = 64;

/// Appends a number in decimal, with nothing before it.
#[inline]
#[tactic(auto, using(crate::proofs::Digits::by_fours, std::proofs::Common::append_assoc))]
pub(crate) fn put_digits(n: u64, line: &mut LineOut) -> Result<(), NoMemory>
    ensures ok { OnOk result (line.new.words ≡ line.old.words ++ decimal n) }
    ensures before { line.new.before ≡ line.old.before }
{
    // Most numbers have at most eight digits.
    if n < 10_000 {
        return put_short(n as u16, line);
    }
    if n < 100_000_000 {
        put_short((n / 10_000) as u16, line)?;
        return line.append_first(&four_digits((n % 10_000) as u16), 4);
    }
    let mut buffer = Buffer::new();
    line.append(buffer.format(n).as_bytes())
}

/// Appends a number of at most four digits in decimal.
#[inline]
fn put_short(n: u16, line: &mut LineOut) -> Result<(), NoMemory>
    requires { n < 10000 }
    ensures ok { OnOk result (line.new.words ≡ line.old.words ++ decimal n) }
    ensures before { line.new.before ≡ line.old.before }
{
    let (digits, count) = short_digits(n);
    line.append_first(&digits, count)
}

/// Returns the digits of a number of at most four, from the first on, and how many there are.
#[inline]
#[tactic(auto, using(crate::proofs::Digits::one, crate::proofs::Digits::two, crate::proofs::Digits::three, crate::proofs::Digits::four))]
fn short_digits(n: u16) -> ([u8; 4], usize)
    requires { n < 10000 }
    ensures digits { take result.1 result.0 ≡ decimal n }
    ensures count { result.1 ≤ 4 }
{
    if n < 10 {
        return ([b'0' + n as u8, 0, 0, 0], 1);
    }
    if n < 100 {
        return ([digit(n / 10), digit(n), 0, 0], 2);
    }
    if n < 1_000 {
        return ([digit(n / 100), digit(n / 10), digit(n), 0], 3);
    }
    (four_digits(n), 4)
}

/// Returns the last four digits of a number, with zeros in front.
#[inline]
fn four_digits(n: u16) -> [u8; 4]
    ensures { result ≡ (48 + n / 1000 % 10) ∷ (48 + n / 100 % 10) ∷ (48 + n / 10 % 10) ∷ (48 + n % 10) ∷ [] }
{
    [digit(n / 1_000), digit(n / 100), digit(n / 10), digit(n)]
}

/// Returns a number's last digit.
#[inline]
fn digit(n: u16) -> u8
    ensures { result ≡ 48 + n % 10 }
{
    b'0' + (n % 10) as u8
}

/// Appends a space and a word.
#[inline]
pub(crate) fn put_word(word: &str, line: &mut LineOut) -> Result<(), NoMemory>
    ensures ok { OnOk result (line.new.words ≡ line.old.words ++ 32 ∷ word.now) }
    ensures before { line.new.before ≡ line.old.before }
{
    line.push(b' ')?;
    line.append_text(word)
}

/// Appends a space and a number.
#[inline]
pub(crate) fn put_number(n: u64, line: &mut LineOut) -> Result<(), NoMemory>
    ensures ok { OnOk result (line.new.words ≡ line.old.words ++ 32 ∷ decimal n) }
    ensures before { line.new.before ≡ line.old.before }
{
    line.push(b' ')?;
    put_digits(n, line)
}

/// Appends a field's name with its spaces, and then its number.
#[inline]
pub(crate) fn put_field(name: &str, n: u64, line: &mut LineOut) -> Result<(), NoMemory>
    ensures ok { OnOk result (line.new.words ≡ line.old.words ++ (name.now ++ decimal n)) }
    ensures before { line.new.before ≡ line.old.before }
{
    line.append_text(name)?;
    put_digits(n, line)
}

/// Appends a field's name with its spaces, and then 1 or 0.
#[inline]
#[tactic(auto, using(std::proofs::Common::append_assoc), unfolding(ft_model::specs::Texts::bit_text))]
pub(crate) fn put_bit(name: &str, bit: bool, line: &mut LineOut) -> Result<(), NoMemory>
    ensures ok { OnOk result (line.new.words ≡ line.old.words ++ (name.now ++ bit_text bit)) }
    ensures before { line.new.before ≡ line.old.before }
{
    line.append_text(name)?;
    line.push(if bit { b'1' } else { b'0' })
}

/// Appends a dash if nothing follows the first `start` bytes.
#[inline]
#[tactic(auto, using(crate::proofs::Dashes::dash_for_none, crate::proofs::Dashes::itself_for_some))]
pub(crate) fn put_dash(start: usize, line: &mut LineOut) -> Result<(), NoMemory>
    requires { start ≤ length line.old.words }
    ensures ok { OnOk result (line.new.words ≡ take start line.old.words ++ or_dash (drop start line.old.words)) }
    ensures before { line.new.before ≡ line.old.before }
{
    if line.len() == start {
        line.push(b'-')?;
    }
    Ok(())
}

/// Appends a space, and bytes in hexadecimal.
#[tactic(auto, using(crate::proofs::Dashes::seams), unfolding(ft_model::specs::Texts::hex_text))]
pub(crate) fn put_hex(bytes: &[u8], line: &mut LineOut) -> Result<(), NoMemory>
    ensures ok { OnOk result (line.new.words ≡ line.old.words ++ 32 ∷ hex_text bytes.now) }
    ensures before { line.new.before ≡ line.old.before }
{
    line.push(b' ')?;
    let start = line.len();
    put_hex_digits(bytes, line)?;
    put_dash(start, line)
}

/// Appends bytes in hexadecimal, with nothing before them.
#[tactic(auto, using(crate::proofs::Hex::part_written, crate::proofs::Hex::all_written))]
pub(crate) fn put_hex_digits(bytes: &[u8], line: &mut LineOut) -> Result<(), NoMemory>
    ensures ok { OnOk result (line.new.words ≡ line.old.words ++ encode_lower bytes.now) }
    ensures before { line.new.before ≡ line.old.before }
{
    let mut rest = bytes;
    while !rest.is_empty() {
        let (part, behind) = rest.split_at(rest.len().min(HEX_BYTES));
        let mut digits = [0u8; 2 * HEX_BYTES];
        let room = &mut digits[..2 * part.len()];
        let Ok(()) = hex::encode_to_slice(part, room) else {
            unreachable!()
        };
        line.append(room)?;
        rest = behind;
    }
    Ok(())
}

/// Appends a space, and numbers joined by commas.
#[tactic(auto, using(crate::proofs::Lengths::no_numbers, crate::proofs::Lengths::numbers_cons, std::proofs::Common::append_assoc))]
pub(crate) fn put_list(numbers: &[u16], line: &mut LineOut) -> Result<(), NoMemory>
    ensures ok { OnOk result (line.new.words ≡ line.old.words ++ 32 ∷ list_text numbers.now) }
    ensures before { line.new.before ≡ line.old.before }
{
    let Some((first, others)) = numbers.split_first() else {
        return put_word("-", line);
    };
    put_number(u64::from(*first), line)?;
    put_others(others, line)
}

/// Appends numbers in decimal, each after a comma.
#[tactic(auto, using(std::proofs::Common::append_assoc))]
fn put_others(numbers: &[u16], line: &mut LineOut) -> Result<(), NoMemory>
    ensures ok { OnOk result (line.new.words ≡ line.old.words ++ behind_commas numbers.now) }
    ensures before { line.new.before ≡ line.old.before }
{
    for number in numbers {
        line.push(b',')?;
        put_digits(u64::from(*number), line)?;
    }
    Ok(())
}

/// Appends a space, and an IPv4 address with a port.
#[tactic(auto, using(std::proofs::Common::append_assoc), unfolding(ft_model::specs::Texts::address_text))]
pub(crate) fn put_address(ip: u32, port: u16, line: &mut LineOut) -> Result<(), NoMemory>
    ensures ok { OnOk result (line.new.words ≡ line.old.words ++ 32 ∷ address_text ip port) }
    ensures before { line.new.before ≡ line.old.before }
{
    line.push(b' ')?;
    put_part(ip / 0x100_0000, b'.', line)?;
    put_part(ip / 0x1_0000 % 256, b'.', line)?;
    put_part(ip / 0x100 % 256, b'.', line)?;
    put_part(ip % 256, b':', line)?;
    put_digits(u64::from(port), line)
}

/// Appends a number, and the byte `mark` after it.
#[inline]
#[tactic(auto, using(std::proofs::Common::append_assoc))]
fn put_part(n: u32, mark: u8, line: &mut LineOut) -> Result<(), NoMemory>
    ensures ok { OnOk result (line.new.words ≡ line.old.words ++ (decimal n ++ mark ∷ [])) }
    ensures before { line.new.before ≡ line.old.before }
{
    put_digits(u64::from(n), line)?;
    line.push(mark)
}

/// Appends a space, and the letters of the flags that are set.
#[tactic(auto, using(crate::proofs::Dashes::seams), unfolding(ft_model::specs::Texts::flags_text))]
pub(crate) fn put_flags(flags: u8, line: &mut LineOut) -> Result<(), NoMemory>
    ensures ok { OnOk result (line.new.words ≡ line.old.words ++ 32 ∷ flags_text flags) }
    ensures before { line.new.before ≡ line.old.before }
{
    line.push(b' ')?;
    let start = line.len();
    put_letters(flags, line)?;
    put_dash(start, line)
}

/// Appends the letters of the flags that are set.
#[tactic(auto, using(std::proofs::Common::append_assoc))]
pub(crate) fn put_letters(flags: u8, line: &mut LineOut) -> Result<(), NoMemory>
    ensures ok { OnOk result (line.new.words ≡ line.old.words ++ flag_letters flags) }
    ensures before { line.new.before ≡ line.old.before }
{
    put_letter(flags, 0x80, b'C', line)?;
    put_letter(flags, 0x40, b'E', line)?;
    put_letter(flags, 0x20, b'U', line)?;
    put_letter(flags, 0x10, b'A', line)?;
    put_letter(flags, 0x08, b'P', line)?;
    put_letter(flags, 0x04, b'R', line)?;
    put_letter(flags, 0x02, b'S', line)?;
    put_letter(flags, 0x01, b'F', line)
}

/// Appends a flag's letter if the flag is set.
#[inline]
fn put_letter(flags: u8, flag: u8, letter: u8, line: &mut LineOut) -> Result<(), NoMemory>
    requires { 0 < flag }
    ensures ok { OnOk result (line.new.words ≡ line.old.words ++ letter_if flag (letter ∷ []) flags) }
    ensures before { line.new.before ≡ line.old.before }
{
    if flags / flag % 2 == 1 {
        line.push(letter)?;
    }
    Ok(())
}

/// Appends the name of the MSS option and its value, each after a space.
#[inline]
#[tactic(auto, using(std::proofs::Common::append_assoc), unfolding(ft_model::specs::Texts::mss_text))]
pub(crate) fn put_mss(mss: Option<u16>, line: &mut LineOut) -> Result<(), NoMemory>
    ensures ok { OnOk result (line.new.words ≡ line.old.words ++ 32 ∷ (codes "mss" ++ 32 ∷ mss_text mss)) }
    ensures before { line.new.before ≡ line.old.before }
{
    match mss {
        None => line.append_text(" mss -"),
        Some(mss) => put_field(" mss ", u64::from(mss), line),
    }
}

/// Appends timestamps, if a segment has them: their name, TSval and TSecr, each after a space.
#[inline]
#[tactic(auto, using(crate::proofs::LineLemmas::line_rules))]
pub(crate) fn put_timestamps(
    timestamps: Option<Timestamps>,
    line: &mut LineOut,
) -> Result<(), NoMemory>
    ensures ok { OnOk result (line.new.words ≡ line.old.words ++ spaced (timestamps_words timestamps)) }
    ensures before { line.new.before ≡ line.old.before }
{
    match timestamps {
        None => Ok(()),
        Some(timestamps) => {
            put_field(" ts ", u64::from(timestamps.value), line)?;
            put_number(u64::from(timestamps.echo), line)
        }
    }
}

/// Appends a space, and a packet's direction.
#[inline]
#[tactic(auto, using(std::proofs::Common::append_assoc), unfolding(ft_model::specs::Texts::way_text))]
pub(crate) fn put_way(way: Way, line: &mut LineOut) -> Result<(), NoMemory>
    ensures ok { OnOk result (line.new.words ≡ line.old.words ++ 32 ∷ way_text way) }
    ensures before { line.new.before ≡ line.old.before }
{
    match way {
        Way::ClientToServer(n) => {
            put_number(u64::from(n), line)?;
            line.append_text(">S")
        }
        Way::ServerToClient(n) => {
            put_word("S>", line)?;
            put_digits(u64::from(n), line)
        }
        Way::ServerToLogger => put_word("S>L", line),
        Way::LoggerToServer => put_word("L>S", line),
        Way::HeadToTail => put_word("H>T", line),
        Way::TailToHead => put_word("T>H", line),
    }
}
