//! What a script says: text, bytes as they are, and lines of words.

use crate::hashing::hashed;
use ft_io::{Addr, Failed, NoMemory};
use std::alloc::Global;
use std::fmt::Display;
use std::io::Write;

/// Up to how many bytes are said in full.
const SHOWN: usize = 256;

/// What was said so far. Where memory is refused, that is noted, and what is said from then on is lost: `bytes` reports it. So what speaks has no error of its
/// own to return, and `write!` gives none.
#[derive(Drop)]
pub struct Said {
    alloc: Global,
    bytes: Vec<u8>,
    /// The unfinished line has a word.
    is_begun: bool,
    is_lost: bool,
}

impl Said {
    pub fn new(alloc: Global) -> Said {
        Said {
            alloc,
            bytes: Vec::new(alloc),
            is_begun: false,
            is_lost: false,
        }
    }

    /// All that was said, unless memory was refused.
    pub fn bytes(&self) -> Result<&[u8], NoMemory> {
        if self.is_lost {
            return Err(NoMemory);
        }
        Ok(self.bytes.as_slice())
    }

    /// How many bytes were said.
    pub fn len(&self) -> usize {
        self.bytes.len()
    }

    /// Forgets all but the first bytes, also that memory was refused.
    pub fn cut(&mut self, len: usize) {
        self.bytes.truncate(len);
        self.is_lost = false;
    }

    /// Notes that memory was refused, if it was.
    pub fn note(&mut self, done: Result<(), NoMemory>) {
        self.is_lost = self.is_lost || done.is_err();
    }

    /// Adds bytes as they are.
    pub fn add(&mut self, bytes: &[u8]) {
        self.is_lost = self.is_lost || self.bytes.extend_from_slice(bytes).is_err();
    }

    /// Adds a format: `write!` calls it.
    pub fn write_fmt<D: Display + Drop>(&mut self, text: D) {
        self.is_lost = self.is_lost || self.bytes.write_fmt(text).is_err();
    }

    /// Adds bytes in hexadecimal.
    pub fn digits(&mut self, bytes: &[u8]) {
        match hex::encode(self.alloc, bytes) {
            Ok(digits) => self.add(digits.as_bytes()),
            Err(_) => self.is_lost = true,
        }
    }

    /// Adds bytes in hexadecimal, or `-` where there are none.
    pub fn hex(&mut self, bytes: &[u8]) {
        if bytes.is_empty() {
            self.add(b"-");
        } else {
            self.digits(bytes);
        }
    }

    /// Adds bytes in hexadecimal, or how many they are and their hash where they are over 256.
    pub fn brief(&mut self, bytes: &[u8]) {
        if bytes.len() <= SHOWN {
            self.digits(bytes);
        } else {
            let (len, hash) = (bytes.len(), hashed(0, bytes));
            write!(self, "{len} bytes {hash}");
        }
    }

    /// Adds a text on one line: `|` stands for each CR LF.
    pub fn on_one_line(&mut self, text: &[u8]) {
        for byte in text {
            match *byte {
                b'\r' => (),
                b'\n' => self.add(b"|"),
                other => self.add(&[other]),
            }
        }
    }

    /// Adds an address.
    pub fn address(&mut self, at: Addr) {
        let [a, b, c, d] = at.ip.to_be_bytes();
        let port = at.port;
        write!(self, "{a}.{b}.{c}.{d}:{port}");
    }

    /// Adds a text, and ends the line.
    pub fn line(&mut self, text: &str) {
        self.add(text.as_bytes());
        self.end_line();
    }

    /// Ends the line.
    pub fn end_line(&mut self) {
        self.add(b"\n");
        self.is_begun = false;
    }

    /// Begins a word of the line: adds a space where it has one.
    pub fn begin_word(&mut self) {
        if self.is_begun {
            self.add(b" ");
        }
        self.is_begun = true;
    }

    /// Adds a word to the line, `-` where it has no bytes.
    pub fn word(&mut self, word: &[u8]) {
        self.begin_word();
        self.add(if word.is_empty() { b"-" } else { word });
    }

    /// Adds a value to the line as a word.
    pub fn value<D: Display + Drop>(&mut self, value: D) {
        self.begin_word();
        self.write_fmt(value);
    }

    /// Adds what a call gave to the line, or `failed`.
    pub fn given<D: Display + Drop>(&mut self, given: Result<D, Failed>) {
        match given {
            Ok(value) => self.value(value),
            Err(Failed) => self.word(b"failed"),
        }
    }

    /// Adds `done` or `failed` to the line.
    pub fn done(&mut self, is_done: bool) {
        self.word(if is_done { b"done" } else { b"failed" });
    }
}
