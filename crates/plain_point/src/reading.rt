//! The law Reads: how much the service reads next, and whether it may.

ghost use Rattle.std.specs.Prelude.{◌≡◌, ◌≤◌, ◌+◌, OnOk, IfSome, max, sum, length, take, drop};

use crate::point::PlainPoint;
use ft_io::NoMemory;
use limits::BUFFER;
use plain_packets::part;

/// The longest read, in bytes.
const LONGEST_READ: u64 = 2_048;

/// The most output, in bytes, of a service that may still read: the longest stream less the output of one read.
const MOST_MADE: u64 = limits::STREAM as u64 - (1 << 20);

/// The number of unanswered reads at which a service may no longer read.
const UNANSWERED: usize = 32;

impl PlainPoint {
    ghost use Rattle.ft_model.specs.Reads.{next_length as length_lem, with_read};
    ghost use Rattle.plain_point.specs.Turn.{may_read_at};

    /// Returns how many reads are known to be logged.
    pub fn reads_answered(&self) -> usize
        ensures { result ≡ self.now.reads_answered }
    {
        self.reads_answered
    }

    /// Returns the length of the next read, if there is anything to read; 0 for the closing read.
    #[tactic(auto, unfolding(ft_model::specs::Reads::next_length))]
    pub fn next_length(&self) -> Option<u16>
        ensures value { result ≡ length_lem self.now }
        ensures within { IfSome result (λ n. n ≤ 2048) }
    {
        let taken = self.taken.len() as u64;
        if self.read < self.fetched {
            Some((self.fetched - self.read).min(LONGEST_READ) as u16)
        } else if self.read < taken {
            Some((taken - self.read).min(LONGEST_READ) as u16)
        } else if self.fin && !self.closed {
            Some(0)
        } else {
            None
        }
    }

    /// Returns whether the service may read on, after all its reads have made `made` bytes of output, and the answered ones `released` bytes.
    pub fn may_read(&self, made: u64, released: u64) -> bool
        ensures { result ≡ may_read_at made released self.now }
    {
        let room = released.min(self.una.saturating_add(u64::from(BUFFER)));
        made <= room && made <= MOST_MADE && self.lengths.len() - self.reads_answered < UNANSWERED
    }

    /// Returns the first `len` bytes that aren't read yet.
    pub fn unread(&self, len: u16) -> &[u8]
        ensures { result.now ≡ take len (drop (sum self.now.lengths) self.now.taken) }
    {
        part(&self.taken, self.read, u64::from(len))
    }

    /// Adds a read of `len` bytes, which are there to be read. After `NoMemory` the point may only be dropped.
    pub fn add_read(&mut self, len: u16) -> Result<(), NoMemory>
        requires { sum self.old.lengths + len ≤ max self.old.fetched (length self.old.taken) }
        ensures { OnOk result (self.new ≡ with_read len self.old) }
    {
        self.lengths.push(len)?;
        self.read += u64::from(len);
        if len == 0 {
            self.closed = true;
        }
        Ok(())
    }
}
