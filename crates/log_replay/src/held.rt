//! Bytes that wait to be replayed.

ghost use Rattle.std.specs.Prelude.{◌≡◌, ℕ, ◌≤◌, List, [], ◌++◌, length, take, drop, OnOk};

use ft_io::NoMemory;
use std::alloc::Global;
use std::marker::Model;

/// Bytes that are replayed from the beginning and added at the end. Those replayed are removed from the buffer when more are added.
#[derive(Drop)]
pub(crate) struct Held {
    /// Those that are replayed, as far as they aren't removed yet, and after them those that wait.
    bytes: Vec<u8>,
    /// How many of them are replayed.
    at: usize,
}

impl Model for Held {
    ghost use Rattle.std.specs.Prelude.{ℕ, List, drop, ◌≤◌, vec_len};

    ghost Value = { List ℕ };

    ghost view = { λ h. drop h.at h.bytes.items };

    ghost invariant = { λ h. h.at ≤ vec_len h.bytes };
}

impl Held {
    pub(crate) fn new(alloc: Global) -> Held
        ensures { result ≡ [] }
    {
        Held {
            bytes: Vec::new(alloc),
            at: 0,
        }
    }

    pub(crate) fn len(&self) -> usize
        ensures { result ≡ length self.now }
    {
        self.bytes.len() - self.at
    }

    pub(crate) fn front(&self, n: usize) -> &[u8]
        requires { n ≤ length self.now }
        ensures { result.now ≡ take n self.now }
    {
        &self.bytes[self.at..self.at + n]
    }

    pub(crate) fn skip(&mut self, n: usize)
        requires { n ≤ length self.old }
        ensures { self.new ≡ drop n self.old }
    {
        self.at += n;
    }

    /// Moves the waiting bytes to the beginning of the buffer.
    fn forget(&mut self)
        ensures { self.new ≡ self.old }
    {
        drop_front(&mut self.bytes, self.at);
        self.at = 0;
    }

    pub(crate) fn push(&mut self, bytes: &[u8]) -> Result<(), NoMemory>
        ensures { OnOk result (self.new ≡ self.old ++ bytes.now) }
    {
        self.forget();
        self.bytes.extend_from_slice(bytes)?;
        Ok(())
    }

    pub(crate) fn into_vec(self) -> Vec<u8>
        ensures { result.items ≡ self }
    {
        let Held { mut bytes, at } = self;
        drop_front(&mut bytes, at);
        bytes
    }
}

/// Removes the first `n` bytes.
fn drop_front(bytes: &mut Vec<u8>, n: usize)
    requires { n ≤ length bytes.old.items }
    ensures { bytes.new.items ≡ drop n bytes.old.items }
{
    if n == 0 {
        return;
    }
    let left = bytes.len() - n;
    bytes.rotate_left(n);
    bytes.truncate(left);
}
