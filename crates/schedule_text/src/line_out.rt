//! A line that is being appended to a text. It is written to the text at once, and cut off again where an allocation fails.

ghost use Rattle.std.specs.Prelude.{◌≡◌, ◌∷◌, [], ◌++◌, ◌≤◌, length, take, OnOk, OnErr};

use ft_io::NoMemory;
use std::alloc::Global;
use std::marker::Model;
use std::mem;

/// A text, and after its first `start` bytes the part of the line written so far.
#[derive(Drop)]
pub(crate) struct LineOut {
    bytes: Vec<u8>,
    start: usize,
}

impl Model for LineOut {
    ghost use Rattle.std.specs.Prelude.{◌≤◌, length, take, drop};
    ghost use Rattle.schedule_text.specs.Line.{Written};

    ghost Value = { Written };

    ghost view = { λ l. record { before = take l.start l.bytes.items; words = drop l.start l.bytes.items } };

    ghost invariant = { λ l. l.start ≤ length l.bytes.items };
}

#[tactic(auto, using(crate::proofs::LineLemmas::line_grows))]
impl LineOut {
    /// Begins a line at the end of a text, which is moved out of `out` until `close`.
    #[inline]
    pub(crate) fn open(alloc: Global, out: &mut Vec<u8>) -> LineOut
        ensures before { result.before ≡ out.old.items }
        ensures words { result.words ≡ [] }
    {
        let bytes = mem::replace(out, Vec::new(alloc));
        let start = bytes.len();
        LineOut { bytes, start }
    }

    /// Puts the text back into `out`: with the line, or, where an allocation failed, without any of it.
    #[inline]
    pub(crate) fn close(
        self,
        out: &mut Vec<u8>,
        written: Result<(), NoMemory>,
    ) -> Result<(), NoMemory>
        ensures same { result ≡ written }
        ensures ok { OnOk result (out.new.items ≡ self.before ++ self.words) }
        ensures err { OnErr result (out.new.items ≡ self.before) }
    {
        let LineOut { mut bytes, start } = self;
        if written.is_err() {
            bytes.truncate(start);
        }
        *out = bytes;
        written
    }

    /// Returns how many bytes of the line are written.
    #[inline]
    pub(crate) fn len(&self) -> usize
        ensures { result ≡ length self.now.words }
    {
        self.bytes.len() - self.start
    }

    /// Appends a byte to the line.
    #[inline]
    pub(crate) fn push(&mut self, byte: u8) -> Result<(), NoMemory>
        ensures ok { OnOk result (self.new.words ≡ self.old.words ++ byte ∷ []) }
        ensures before { self.new.before ≡ self.old.before }
    {
        self.bytes.push(byte)?;
        Ok(())
    }

    /// Appends bytes to the line.
    #[inline]
    pub(crate) fn append(&mut self, bytes: &[u8]) -> Result<(), NoMemory>
        ensures ok { OnOk result (self.new.words ≡ self.old.words ++ bytes.now) }
        ensures before { self.new.before ≡ self.old.before }
    {
        self.bytes.extend_from_slice(bytes)?;
        Ok(())
    }

    /// Appends the first `count` of four bytes. All four are written, and the others cut off again: that takes less time than to copy so few.
    #[inline]
    #[tactic(auto, using(crate::proofs::LineLemmas::line_grows, crate::proofs::Digits::first_appended))]
    pub(crate) fn append_first(&mut self, bytes: &[u8; 4], count: usize) -> Result<(), NoMemory>
        requires { count ≤ 4 }
        ensures ok { OnOk result (self.new.words ≡ self.old.words ++ take count bytes.now) }
        ensures before { self.new.before ≡ self.old.before }
    {
        let end = self.bytes.len() + count;
        self.bytes.extend_from_slice(bytes)?;
        self.bytes.truncate(end);
        Ok(())
    }

    /// Appends a text to the line.
    #[inline]
    pub(crate) fn append_text(&mut self, text: &str) -> Result<(), NoMemory>
        ensures ok { OnOk result (self.new.words ≡ self.old.words ++ text.now) }
        ensures before { self.new.before ≡ self.old.before }
    {
        self.append(text.as_bytes())
    }
}
