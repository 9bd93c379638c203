//! The words of a line, and what they spell.

use crate::script::{Segment, Text};
use ft_io::Addr;
use seq_arith::{ACK, CWR, ECE, FIN, PSH, RST, SYN, URG};
use std::net::SocketAddrV4;
use tcp_endpoint::{State, StateName};

/// Why a line is refused.
#[derive(Clone, Copy)]
pub(crate) enum Why {
    /// It isn't UTF-8.
    Encoding,
    /// It has a word where none or another is allowed.
    Word,
    /// A word is missing.
    Missing,
    /// A number is misspelled or out of its range.
    Number,
    /// An address is misspelled.
    Address,
    /// Flags are misspelled.
    Flags,
    /// No state has this name.
    State,
    /// A text is misspelled or too long.
    Text,
    /// No way of this name was defined before, or one was already.
    Way,
    /// It isn't allowed here: outside a way and a case, or a beginning after another step.
    Place,
    /// No endpoint was opened.
    NoEndpoint,
}

impl Why {
    pub(crate) fn text(self) -> &'static str {
        match self {
            Why::Encoding => "not UTF-8",
            Why::Word => "a wrong word",
            Why::Missing => "a word is missing",
            Why::Number => "no such number",
            Why::Address => "no address",
            Why::Flags => "no flags",
            Why::State => "no state",
            Why::Text => "no text",
            Why::Way => "no such way, or a second one",
            Why::Place => "not here",
            Why::NoEndpoint => "no endpoint",
        }
    }
}

/// The words of a line that aren't read yet, which spaces separate, and why the line is refused, if it is. What is read after that is of no account: `end`
/// reports the refusal. So what reads words has no error of its own to return.
#[derive(Clone, Copy)]
pub(crate) struct Words<'a> {
    rest: &'a str,
    why: Option<Why>,
}

impl<'a> Words<'a> {
    pub(crate) fn new(line: &'a str) -> Words<'a> {
        Words {
            rest: line,
            why: None,
        }
    }

    /// The line is refused, unless it is already.
    pub(crate) fn refuse(&mut self, why: Why) {
        self.why = self.why.or(Some(why));
    }

    /// The next word, where there is one.
    pub(crate) fn next(&mut self) -> Option<&'a str> {
        let rest = self.rest.trim_start();
        if rest.is_empty() {
            return None;
        }
        let (word, behind) = rest.split_once(' ').unwrap_or((rest, ""));
        self.rest = behind;
        Some(word)
    }

    /// The next word, which may not be missing.
    pub(crate) fn word(&mut self) -> &'a str {
        match self.next() {
            Some(word) => word,
            None => {
                self.refuse(Why::Missing);
                ""
            }
        }
    }

    /// The only word that is left.
    pub(crate) fn only(&mut self) -> Result<&'a str, Why> {
        let word = self.word();
        self.end()?;
        Ok(word)
    }

    /// All words that are left, of which there must be one.
    pub(crate) fn all(self) -> Result<&'a str, Why> {
        let all = self.rest.trim();
        if all.is_empty() {
            Err(Why::Missing)
        } else {
            Ok(all)
        }
    }

    /// This word comes next.
    pub(crate) fn key(&mut self, key: &str) {
        if self.word() != key {
            self.refuse(Why::Word);
        }
    }

    /// Whether this word comes next. Only then it is passed over.
    pub(crate) fn has(&mut self, key: &str) -> bool {
        let mut ahead = *self;
        let found = ahead.next() == Some(key);
        if found {
            *self = ahead;
        }
        found
    }

    /// No word may be left, and the line may not be refused.
    pub(crate) fn end(self) -> Result<(), Why> {
        if let Some(why) = self.why {
            return Err(why);
        }
        if self.rest.trim_start().is_empty() {
            Ok(())
        } else {
            Err(Why::Word)
        }
    }

    /// A decimal number of 32 bits.
    pub(crate) fn number(&mut self) -> u32 {
        match self.word().parse::<u32>() {
            Ok(number) => number,
            Err(_) => {
                self.refuse(Why::Number);
                0
            }
        }
    }

    /// The decimal number of 32 bits after this word, which comes next.
    pub(crate) fn number_after(&mut self, key: &str) -> u32 {
        self.key(key);
        self.number()
    }

    /// A decimal number of 16 bits.
    pub(crate) fn short(&mut self) -> u16 {
        match self.word().parse::<u16>() {
            Ok(number) => number,
            Err(_) => {
                self.refuse(Why::Number);
                0
            }
        }
    }

    /// The decimal number of 16 bits after this word, which comes next.
    pub(crate) fn short_after(&mut self, key: &str) -> u16 {
        self.key(key);
        self.short()
    }

    /// The decimal number of 16 bits after this word, where it comes next.
    pub(crate) fn short_if(&mut self, key: &str) -> Option<u16> {
        if self.has(key) {
            return Some(self.short());
        }
        None
    }

    /// `A.B.C.D:PORT`.
    pub(crate) fn address(&mut self) -> Addr {
        match self.word().parse::<SocketAddrV4>() {
            Ok(at) => Addr {
                ip: at.ip().to_bits(),
                port: at.port(),
            },
            Err(_) => {
                self.refuse(Why::Address);
                Addr { ip: 0, port: 0 }
            }
        }
    }

    /// `yes` or `no`.
    pub(crate) fn answer(&mut self) -> bool {
        match self.word() {
            "yes" => true,
            "no" => false,
            _ => {
                self.refuse(Why::Word);
                false
            }
        }
    }

    /// Control bits by their first letters, each at most once, or `-` for none.
    fn flags(&mut self) -> u8 {
        let word = self.word();
        let mut all = 0u8;
        if word == "-" {
            return all;
        }
        for letter in word.as_bytes() {
            let one = flag(*letter);
            if one == 0 || all & one != 0 {
                self.refuse(Why::Flags);
            }
            all |= one;
        }
        all
    }

    /// A state by its name in RFC 9293.
    pub(crate) fn state_name(&mut self) -> StateName {
        match self.word() {
            "CLOSED" => StateName::Closed,
            "LISTEN" => StateName::Listen,
            "SYN-SENT" => StateName::SynSent,
            "SYN-RECEIVED" => StateName::SynReceived,
            "ESTABLISHED" => StateName::Established,
            "FIN-WAIT-1" => StateName::FinWait1,
            "FIN-WAIT-2" => StateName::FinWait2,
            "CLOSE-WAIT" => StateName::CloseWait,
            "CLOSING" => StateName::Closing,
            "LAST-ACK" => StateName::LastAck,
            "TIME-WAIT" => StateName::TimeWait,
            _ => {
                self.refuse(Why::State);
                StateName::Closed
            }
        }
    }

    /// A state, and `reset` after it where the peer has reset the connection.
    pub(crate) fn state(&mut self) -> State {
        let name = self.state_name();
        let reset = self.has("reset");
        State { name, reset }
    }

    /// `hex:` and pairs of digits, `fill:COUNT` or `fill:COUNT@PLACE`, `-` for nothing, or the letters themselves.
    pub(crate) fn text(&mut self) -> Text<'a> {
        let word = self.word();
        if let Some(size) = word.strip_prefix("fill:") {
            return self.fill(size);
        }
        let (text, fits) = match word.strip_prefix("hex:") {
            Some(digits) => (Text::Hex(digits), are_pairs(digits)),
            None if word == "-" => (Text::Word(""), true),
            None => (Text::Word(word), word.len() <= limits::BUFFER as usize),
        };
        if !fits {
            self.refuse(Why::Text);
        }
        text
    }

    /// `COUNT` or `COUNT@PLACE`.
    fn fill(&mut self, size: &'a str) -> Text<'a> {
        let (count, place) = size.split_once('@').unwrap_or((size, "0"));
        if let (Ok(count), Ok(place)) = (count.parse::<u16>(), place.parse::<u32>()) {
            return Text::Fill { count, place };
        }
        self.refuse(Why::Number);
        Text::Word("")
    }

    /// `FLAGS seq N ack N win N`, then `mss N` and `data TEXT` where the segment has them.
    pub(crate) fn segment(&mut self) -> Segment<'a> {
        Segment {
            flags: self.flags(),
            seq: self.number_after("seq"),
            ack: self.number_after("ack"),
            window: self.short_after("win"),
            mss: self.short_if("mss"),
            text: if self.has("data") {
                self.text()
            } else {
                Text::Word("")
            },
        }
    }
}

/// The flag of a letter, or 0 where it has none.
fn flag(letter: u8) -> u8 {
    match letter {
        b'C' => CWR,
        b'E' => ECE,
        b'U' => URG,
        b'A' => ACK,
        b'P' => PSH,
        b'R' => RST,
        b'S' => SYN,
        b'F' => FIN,
        _ => 0,
    }
}

/// Whether these are pairs of hexadecimal digits, of at most 65,535 bytes.
fn are_pairs(digits: &str) -> bool {
    let all = digits
        .as_bytes()
        .iter()
        .all(|digit| digit.is_ascii_hexdigit());
    all && digits.len() % 2 == 0 && digits.len() <= 131_070
}
