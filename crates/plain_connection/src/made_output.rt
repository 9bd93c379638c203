//! A service with all that it has made: its whole output, and how far the output extends after each read. The answered reads are the first ones. So the
//! output that may be sent is a prefix of the whole, and the table of ends gives its length without a second run.

ghost use Rattle.std.specs.Prelude.{◌≡◌, ◌≤◌, ◌+◌, ℕ, List, [], ◌∷◌, ◌++◌, length, sum, slice_get, take, drop, Some, IfOk, OnOk};
ghost use Rattle.server_trait.specs.Service.{machine, reference};
ghost use Rattle.ft_model.specs.Offset.{one_if};
ghost use Rattle.plain_connection.specs.Made.{nothing_made, after_read, made_of, end_of};

use ft_io::NoMemory;
use server_trait::{Next, Service};
use std::alloc::Global;
use std::marker::Model;

/// How many bytes of output there are after a number of reads, and whether the service has closed by then.
#[derive(Clone, Copy)]
pub struct End {
    pub output: u64,
    pub closed: bool,
}

/// A service with its output, and with the end after each number of reads, beginning with none, where the output is the greeting.
#[derive(Drop)]
pub struct Made<S: Service> {
    service: S,
    output: Vec<u8>,
    closed: bool,
    ends: Vec<End>,
}

impl<S: Service> Model for Made<S> {
    ghost use Rattle.plain_connection.specs.Made.{Made};

    ghost Value = { Made S };

    ghost view = { λ m. record { run = record { state = m.service; output = m.output.items; closed = m.closed }; ends = m.ends.items } };
}

impl<S: Service> Made<S> {
    /// Creates a service of this kind that has read nothing, and has written its greeting.
    pub fn new(alloc: Global, kind: u8) -> Result<Made<S>, NoMemory>
        ensures { IfOk result (λ m. m ≡ nothing_made (machine (S.started kind) S.after S.greeting)) }
    {
        let service = S::fresh(alloc, kind);
        let mut output = Vec::new(alloc);
        output.extend_from_slice(service.greeting())?;
        let mut ends = Vec::new(alloc);
        ends.push(End {
            output: output.len() as u64,
            closed: false,
        })?;
        Ok(Made {
            service,
            output,
            closed: false,
            ends,
        })
    }

    /// Makes one more read. A service that has closed adds nothing to its output.
    pub fn read(&mut self, chunk: &[u8]) -> Result<(), NoMemory>
        requires { length chunk.now ≤ 2048 }
        ensures { (kind : ℕ) → OnOk result (self.new ≡ after_read (machine (S.started kind) S.after S.greeting) self.old chunk.now) }
    {
        if !self.closed {
            self.closed = self.service.take(chunk, &mut self.output)? == Next::Close;
        }
        let end = End {
            output: self.output.len() as u64,
            closed: self.closed,
        };
        self.ends.push(end)?;
        Ok(())
    }

    /// Returns the whole output.
    pub fn output(&self) -> &[u8]
        ensures { result.now ≡ self.now.run.output }
    {
        self.output.as_slice()
    }

    /// Returns how many units of output there are: the bytes, and one more if the service has closed.
    pub fn units(&self) -> u64
        ensures { result ≡ length self.now.run.output + one_if self.now.run.closed }
    {
        self.output.len() as u64 + u64::from(self.closed)
    }

    /// Returns the end after so many reads, if there were as many.
    pub fn end(&self, reads: usize) -> Option<End>
        ensures { result ≡ slice_get self.now.ends reads }
    {
        self.ends.as_slice().get(reads).copied()
    }
}

/// After reads of these lengths, the kth end is that of the reference run over the first k of them, whose output is a prefix of the whole.
pub fn ends_are_the_references<S: Service>()
    ensures ends { (kind k : ℕ) (bytes lengths : List ℕ) → k ≤ length lengths
        → slice_get (made_of (machine (S.started kind) S.after S.greeting) bytes lengths).ends k
        ≡ Some (end_of (reference (machine (S.started kind) S.after S.greeting) bytes (take k lengths))) }
    ensures prefixes { (kind k : ℕ) (bytes lengths : List ℕ)
        → take (end_of (reference (machine (S.started kind) S.after S.greeting) bytes (take k lengths))).output
        (made_of (machine (S.started kind) S.after S.greeting) bytes lengths).run.output
        ≡ (reference (machine (S.started kind) S.after S.greeting) bytes (take k lengths)).output }
    ensures whole { (kind : ℕ) (bytes lengths : List ℕ)
        → (made_of (machine (S.started kind) S.after S.greeting) bytes lengths).run ≡ reference (machine (S.started kind) S.after S.greeting) bytes lengths }
    // One more read is one more call of `read`.
    ensures one_more { (kind n : ℕ) (bytes lengths : List ℕ)
        → made_of (machine (S.started kind) S.after S.greeting) bytes (lengths ++ n ∷ [])
        ≡ after_read (machine (S.started kind) S.after S.greeting) (made_of (machine (S.started kind) S.after S.greeting) bytes lengths)
        (take n (drop (sum lengths) bytes)) }
{}
