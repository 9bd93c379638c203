//! Out-of-order data: text after a gap, and a FIN.

ghost use Rattle.std.specs.Prelude.{◌≡◌, ◌==◌, OnOk, is_none, length};
ghost use Rattle.tcp_rules.specs.Coming.{nothing_early, text_edge as edge_lem};

use crate::places::Places;
use ft_io::NoMemory;
use std::alloc::Global;
use std::marker::Model;

/// Out-of-order data: text after the bytes taken, place by place, and at most one FIN, by its offset in the stream.
#[derive(Drop)]
pub struct Held {
    pub(crate) text: Places,
    pub(crate) fin: Option<u64>,
}

impl Model for Held {
    ghost use Rattle.tcp_rules.specs.Coming.{Early};

    ghost Value = { Early };

    ghost view = { λ h. record { text = h.text; fin = h.fin } };
}

impl Held {
    ghost use Rattle.std.specs.Prelude.{ℕ};
    ghost use Rattle.tcp_rules.specs.Early.{held_with};

    /// Creates an empty value: nothing is held. Allocates nothing.
    pub fn new(alloc: Global) -> Held
        ensures { result ≡ nothing_early }
    {
        Held {
            text: Places::new(alloc),
            fin: None,
        }
    }

    /// Returns whether no text is held.
    pub fn has_no_text(&self) -> bool
        ensures { result ≡ (length self.now.text == 0) }
    {
        self.text.is_empty()
    }

    /// Returns whether no FIN is held.
    pub fn has_no_fin(&self) -> bool
        ensures { result ≡ is_none self.now.fin }
    {
        self.fin.is_none()
    }

    /// Returns the offset below which text counts: the receive edge, or an earlier FIN that is held or taken.
    pub(crate) fn text_edge(&self, n: u64, edge: u64, fin: bool) -> u64
        ensures { result ≡ edge_lem n edge fin self.now }
    {
        if fin {
            return n;
        }
        match self.fin {
            Some(offset) => offset.min(edge),
            None => edge,
        }
    }

    /// Holds bytes from a place on, unless that would make more than sixteen runs. After `NoMemory` it may only be dropped.
    pub(crate) fn hold(&mut self, at: usize, bytes: &[u8]) -> Result<(), NoMemory>
        ensures { OnOk result (self.new ≡ record self.old { text = held_with at bytes.now self.old.text }) }
    {
        self.text.hold(at, bytes)
    }
}
