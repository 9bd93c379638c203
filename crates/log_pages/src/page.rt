//! One page of a client's bytes.

ghost use Rattle.std.specs.Prelude.{[], ◌≡◌, ◌≤◌, ◌+◌, ◌++◌, IfOk, length};

use ft_io::NoMemory;
use std::alloc::Global;
use std::marker::Model;

/// The bytes of a full page.
pub const PAGE: usize = 4_096;

/// A page of at most 4,096 bytes, with room for all of them.
#[derive(Drop)]
pub struct Page {
    /// Its capacity, for a full page, is allocated once.
    bytes: Vec<u8>,
}

impl Model for Page {
    ghost use Rattle.std.specs.Prelude.{ℕ, ◌≤◌, List, length, vec_capacity};

    ghost Value = { List ℕ };

    ghost view = { λ p. p.bytes.items };

    ghost invariant = { λ p. (length p.bytes.items ≤ 4096) × (4096 ≤ vec_capacity p.bytes) };
}

impl Page {
    /// An empty page. All its room is allocated here.
    pub fn new(alloc: Global) -> Result<Page, NoMemory>
        ensures { IfOk result (λ page. page ≡ []) }
    {
        let bytes = Vec::with_capacity(alloc, PAGE)?;
        Ok(Page { bytes })
    }

    /// How many bytes there are, at most 4,096.
    pub fn len(&self) -> usize
        ensures value { result ≡ length self.now }
        ensures within { result ≤ 4096 }
    {
        self.bytes.len()
    }

    /// The bytes, in order.
    pub fn as_slice(&self) -> &[u8]
        ensures value { result.now ≡ self.now }
        ensures within { length result.now ≤ 4096 }
    {
        self.bytes.as_slice()
    }

    /// Appends bytes. There must be room for them.
    pub fn add(&mut self, bytes: &[u8])
        requires { length self.old + length bytes.now ≤ 4096 }
        ensures { self.new ≡ self.old ++ bytes.now }
    {
        self.bytes.extend_from_slice(bytes).unwrap();
    }
}
