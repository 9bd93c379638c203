//! The effect of a segment's text and FIN on a stream. The rules apply in the order of the functions here.

ghost use Rattle.std.specs.Prelude.{◌≡◌, ◌<◌, ◌+◌, ◌^◌, pos, ◌+ℤ◌, IfOk, OnOk, length};
ghost use Rattle.tcp_rules.specs.Coming.{Early, nothing_came, ahead as ahead_lem, new_text as new_lem, comes};

use crate::arrival::{part, place_of};
use crate::held::Held;
use ft_io::NoMemory;
use std::alloc::Global;
use std::marker::Model;
use tcp_rules::below;

/// The bytes that a segment adds to those taken, what is held afterwards, and whether the FIN is taken.
#[derive(Drop)]
pub struct Coming {
    pub added: Vec<u8>,
    pub held: Held,
    pub fin: bool,
}

impl Model for Coming {
    ghost use Rattle.tcp_rules.specs.Coming.{Came};

    ghost Value = { Came };

    ghost view = { λ c. record { added = c.added.items; early = c.held; fin = c.fin } };
}

/// Returns how far past the end of the bytes taken a text begins.
fn ahead(n: u64, first: i64) -> u64
    ensures value { result ≡ ahead_lem n first }
    ensures within { result < 2 ^ 63 }
{
    if first >= 0 {
        (first as u64).saturating_sub(n)
    } else {
        0
    }
}

impl Coming {
    ghost use Rattle.tcp_rules.specs.Coming.{with_text, holds_fin as holds_lem, with_fin, continued, with_fin_taken};

    /// Returns the state before the first rule: nothing is added, and what was held is held.
    fn nothing(alloc: Global, held: Held, fin: bool) -> Coming
        ensures { result ≡ nothing_came held fin }
    {
        Coming {
            added: Vec::new(alloc),
            held,
            fin,
        }
    }

    /// Returns the new text of a segment: from the end of the bytes taken up to the edge below which text counts.
    #[tactic(auto, unfolding(tcp_rules::specs::Coming::new_text))]
    fn new_text<'a>(&self, n: u64, edge: u64, first: i64, text: &'a [u8]) -> &'a [u8]
        requires { n < 2 ^ 63 }
        ensures { result.now ≡ new_lem n edge self.now.fin self.now.early first text.now }
    {
        let edge = self.held.text_edge(n, edge, self.fin);
        let room = edge.saturating_sub(n + ahead(n, first));
        part(text, below(n, first), room)
    }

    /// Takes new text that begins where the bytes taken end, and no longer holds anything in its places. Holds other new text.
    #[tactic(auto, unfolding(tcp_rules::specs::Coming::with_text))]
    fn take_text(
        &mut self,
        alloc: Global,
        n: u64,
        edge: u64,
        first: i64,
        text: &[u8],
    ) -> Result<(), NoMemory>
        requires { n < 2 ^ 63 }
        ensures { OnOk result (self.new ≡ with_text n edge first text.now self.old) }
    {
        let new = self.new_text(n, edge, first, text);
        let ahead = ahead(n, first);
        if ahead > 0 {
            return self.held.hold(ahead as usize, new);
        }
        self.held.text.drop_front(new.len());
        self.added = Vec::from_slice(alloc, new)?;
        Ok(())
    }

    /// Returns whether a FIN at this place may be held: it isn't before the end of the bytes taken, it is below the receive edge, no text at or past it is
    /// held, and no FIN is held or taken.
    #[tactic(auto, unfolding(tcp_rules::specs::Coming::holds_fin))]
    fn holds_fin(&self, n: u64, edge: u64, place: u64) -> bool
        requires { n < 2 ^ 63 }
        ensures { result ≡ holds_lem n edge (pos place) self.now }
    {
        let end = n + self.added.len() as u64;
        place < edge
            && end <= place
            && !self.held.text.hold_some_from(place - end)
            && self.held.fin.is_none()
            && !self.fin
    }

    /// Holds the segment's FIN, which is `len` past `first`, if the rules allow it.
    #[tactic(auto, using(crate::proofs::Fins::none_before), unfolding(tcp_rules::specs::Coming::with_fin))]
    fn hold_fin(&mut self, n: u64, edge: u64, first: i64, len: u64, has_fin: bool)
        requires n { n < 2 ^ 63 }
        requires len { len < 2 ^ 63 }
        ensures { self.new ≡ with_fin n edge (first +ℤ pos len) has_fin self.old }
    {
        if !has_fin {
            return;
        }
        let Some(place) = place_of(first, len) else {
            return;
        };
        if self.holds_fin(n, edge, place) {
            self.held.fin = Some(place);
        }
    }

    /// Takes the held bytes that follow the bytes taken without a gap.
    #[tactic(auto, unfolding(tcp_rules::specs::Coming::continued))]
    fn take_held(&mut self) -> Result<(), NoMemory>
        ensures { OnOk result (self.new ≡ continued self.old) }
    {
        self.held.text.take_front(&mut self.added)
    }

    /// Takes a FIN that is held at the end of the bytes taken.
    #[tactic(auto, unfolding(tcp_rules::specs::Coming::with_fin_taken))]
    fn take_fin(&mut self, n: u64)
        requires { n < 2 ^ 63 }
        ensures { self.new ≡ with_fin_taken n self.old }
    {
        let end = n + self.added.len() as u64;
        if let Some(offset) = self.held.fin
            && offset == end
        {
            self.held.fin = None;
            self.fin = true;
        }
    }

    /// Returns the effect of a segment on a stream, given the out-of-order data held. The segment's text begins at `first`, and `has_fin` says whether its
    /// FIN follows the text.
    #[tactic(auto, unfolding(tcp_rules::specs::Coming::comes))]
    pub fn of(
        alloc: Global,
        stream: Stream,
        held: Held,
        first: i64,
        text: &[u8],
        has_fin: bool,
    ) -> Result<Coming, NoMemory>
        requires { stream.taken < 2 ^ 63 }
        ensures { IfOk result (λ c. c ≡ comes stream.taken stream.edge stream.fin held first text.now has_fin) }
    {
        let (n, edge) = (stream.taken, stream.edge);
        let mut coming = Coming::nothing(alloc, held, stream.fin);
        coming.take_text(alloc, n, edge, first, text)?;
        coming.hold_fin(n, edge, first, text.len() as u64, has_fin);
        coming.take_held()?;
        coming.take_fin(n);
        Ok(coming)
    }
}

/// A stream before a segment: how many bytes are taken, the receive edge, and whether the FIN is taken.
#[derive(Clone, Copy)]
pub struct Stream {
    pub taken: u64,
    pub edge: u64,
    pub fin: bool,
}
