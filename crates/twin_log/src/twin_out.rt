//! What a logger sends in one turn, in room that is allocated once.

ghost use Rattle.std.specs.Prelude.{[], ◌≡◌, ◌≤◌, ◌<◌, ◌+◌, ◌++◌, ◌∷◌, true, Some, length, option_map, slice_get, slice_set, IfOk};
ghost use Rattle.seq_arith.specs.TwinGrammar.{spelling, has_length, kind_of, behind_of};
ghost use Rattle.twin_laws.specs.declared.part.Side.TheVariants as sides;
ghost use Rattle.logger_wire.specs.TwinValue.{said_by};

use crate::datagram::Datagram;
use ft_io::NoMemory;
use limits::WAITING;
use logger_wire::TwinMsg;
use std::alloc::Global;
use std::marker::Model;
use twin_laws::Side;

/// The datagrams that a logger sends in one turn, at most 64, in order. In contracts they are a list, each with its addressee.
#[derive(Drop)]
pub struct TwinOut {
    /// Room for 64.
    datagrams: Vec<Datagram>,
    /// How many of them are sent.
    count: usize,
}

impl Model for TwinOut {
    ghost use Rattle.std.specs.Prelude.{ℕ, ◌≡◌, ◌≤◌, List, take, length};
    ghost use Rattle.twin_laws.specs.declared.part.Side.{Side};

    ghost Value = { List (Side × List ℕ) };

    ghost view = { λ o. take o.count o.datagrams.items };

    ghost invariant = { λ o. (o.count ≤ 64) × (length o.datagrams.items ≡ 64) };
}

/// Makes room for `count` datagrams.
fn make_room(alloc: Global, count: usize) -> Result<Vec<Datagram>, NoMemory>
    ensures { IfOk result (λ datagrams. length datagrams.items ≡ count) }
{
    let mut datagrams = Vec::with_capacity(alloc, count)?;
    for _more in 0..count {
        datagrams.push(Datagram::blank())?;
    }
    Ok(datagrams)
}

/// Puts an answer to the server at the place `i`.
fn answer_at(datagrams: &mut [Datagram], i: usize, bytes: &[u8])
    requires within { i < length datagrams.old }
    requires size { length bytes.now ≤ 2048 }
    ensures { datagrams.new ≡ slice_set datagrams.old i (sides.Server, bytes.now) }
{
    datagrams[i].answer(bytes);
}

/// Puts a datagram for the other logger at the place `i`.
fn put_at(datagrams: &mut [Datagram], i: usize, m: &TwinMsg<'_>)
    requires within { i < length datagrams.old }
    requires fits { has_length (kind_of (said_by m.now)) (16 + length (behind_of (said_by m.now))) ≡ true }
    ensures { datagrams.new ≡ slice_set datagrams.old i (sides.Other, spelling (said_by m.now)) }
{
    datagrams[i].put(m);
}

impl TwinOut {
    /// Room for 64 datagrams, and no datagram yet.
    pub fn new(alloc: Global) -> Result<TwinOut, NoMemory>
        ensures { IfOk result (λ out. out ≡ []) }
    {
        Ok(TwinOut {
            datagrams: make_room(alloc, WAITING)?,
            count: 0,
        })
    }

    /// How many datagrams there are.
    #[tactic(auto, using(crate::proofs::Fronts::taken))]
    pub fn len(&self) -> usize
        ensures { result ≡ length self.now }
    {
        self.count
    }

    /// Datagram `i`, counted from 0.
    fn at(&self, i: usize) -> &Datagram
        requires { i < length self.now }
        ensures { slice_get self.now i ≡ Some result.now }
    {
        &self.datagrams[i]
    }

    /// The addressee of datagram `i`, counted from 0.
    pub fn to(&self, i: usize) -> Side
        requires { i < length self.now }
        ensures { option_map (λ d. d.0) (slice_get self.now i) ≡ Some result }
    {
        self.at(i).to()
    }

    /// The bytes of datagram `i`, counted from 0.
    pub fn bytes(&self, i: usize) -> &[u8]
        requires { i < length self.now }
        ensures { option_map (λ d. d.1) (slice_get self.now i) ≡ Some result.now }
    {
        self.at(i).bytes()
    }

    /// Removes all datagrams.
    pub fn clear(&mut self)
        ensures { self.new ≡ [] }
    {
        self.count = 0;
    }

    /// Appends an answer to the server.
    #[tactic(auto, using(std::proofs::lemmas::List::take_more_set))]
    pub(crate) fn answer(&mut self, bytes: &[u8])
        requires room { length self.old < 64 }
        requires size { length bytes.now ≤ 2048 }
        ensures { self.new ≡ self.old ++ (sides.Server, bytes.now) ∷ [] }
    {
        answer_at(&mut self.datagrams, self.count, bytes);
        self.count += 1;
    }

    /// Appends a datagram for the other logger.
    #[tactic(auto, using(std::proofs::lemmas::List::take_more_set))]
    pub(crate) fn put(&mut self, m: &TwinMsg<'_>)
        requires room { length self.old < 64 }
        requires fits { has_length (kind_of (said_by m.now)) (16 + length (behind_of (said_by m.now))) ≡ true }
        ensures { self.new ≡ self.old ++ (sides.Other, spelling (said_by m.now)) ∷ [] }
    {
        put_at(&mut self.datagrams, self.count, m);
        self.count += 1;
    }
}
