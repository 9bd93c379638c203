//! A link in memory, for tests. It gives the datagrams that it was made with and records its calls. It fails where it was made to fail, and where an allocation
//! fails; from then on `reported` returns `None`.

ghost use Rattle.std.specs.Prelude.{◌≡◌, ◌≤◌, ◌<◌, ◌⊎◌, length, false, true, Some, None, IfSome, IfOk, OnOk, OnErr};
ghost use Rattle.ft_io.specs.declared.link_call.LinkCall.TheVariants.{Bound, Missed, Handed};
ghost use Rattle.ft_io.specs.Faults.{Rose};
ghost use Rattle.ft_system.specs.NumberedCalls.{IsNextListed};
ghost use Rattle.ft_io.specs.Reported.{Reports};
ghost use Rattle.ft_io.specs.Link.{bind_reported, send_reported, recv_reported, received_as, HasAtMost};
ghost use Rattle.ft_system.specs.Arrival.{arriving};
ghost use Rattle.ft_system.specs.MemLink.{fresh_link, failing_binds, BindFails, reported_of, noted, failed, starved, at_bind, binding, sending};
ghost use Rattle.ft_system.specs.MemLink.{receiving, without_arrival};

use crate::mem_source::copy_front;
use crate::numbered::NumberedCalls;
use ft_io::{Addr, Failed, Link, LinkCall, Octets, Receipt};
use std::alloc::Global;
use std::marker::Model;

/// What a receive will give.
#[derive(Drop)]
pub enum Arrival {
    /// A datagram from `from`.
    Datagram { from: Addr, bytes: Octets },
    /// No datagram: the receive times out.
    Nothing,
}

/// A link that gives listed datagrams, and some of whose calls fail.
#[derive(Drop)]
pub struct MemLink {
    alloc: Global,
    arrivals: Vec<Arrival>,
    at: usize,
    binds: NumberedCalls,
    sends: NumberedCalls,
    recvs: NumberedCalls,
    bind_fails: bool,
    calls: Vec<LinkCall>,
    faults: u64,
    bind_faults: u64,
    starved: u64,
}

impl Model for MemLink {
    ghost use Rattle.std.specs.Prelude.{◌≤◌, drop, vec_len};
    ghost use Rattle.ft_system.specs.MemLink.{LinkState};

    ghost Value = { LinkState };

    ghost view = { λ link. record {
      arrivals = drop link.at link.arrivals.items;
      binds = link.binds;
      sends = link.sends;
      recvs = link.recvs;
      bind_fails = link.bind_fails;
      calls = link.calls.items;
      faults = link.faults;
      bind_faults = link.bind_faults;
      starved = link.starved;
    } };

    ghost invariant = { λ link. (link.at ≤ vec_len link.arrivals) × (link.starved ≤ link.faults) };
}

impl MemLink {
    /// Makes a link at which these datagrams arrive, one at each receive, and none after them. The sends and the receives fail whose numbers, each counted
    /// from 1, are in `send_fails` and `recv_fails`, and every bind where `bind_fails`. A receive that fails uses up no arrival. Nothing is allocated yet.
    pub fn new(
        alloc: Global,
        arrivals: Vec<Arrival>,
        send_fails: Vec<u32>,
        recv_fails: Vec<u32>,
        bind_fails: bool,
    ) -> MemLink
        ensures { result ≡ fresh_link arrivals.items send_fails.items recv_fails.items bind_fails }
    {
        MemLink {
            alloc,
            arrivals,
            at: 0,
            binds: NumberedCalls::new(Vec::new(alloc)),
            sends: NumberedCalls::new(send_fails),
            recvs: NumberedCalls::new(recv_fails),
            bind_fails,
            calls: Vec::new(alloc),
            faults: 0,
            bind_faults: 0,
            starved: 0,
        }
    }

    /// Makes the same link, but those binds fail whose numbers, counted from 1, are in `bind_fails`, for a test of retried binds.
    pub fn with_bind_fails(
        alloc: Global,
        arrivals: Vec<Arrival>,
        send_fails: Vec<u32>,
        recv_fails: Vec<u32>,
        bind_fails: Vec<u32>,
    ) -> MemLink
        ensures { result ≡ failing_binds
            (fresh_link arrivals.items send_fails.items recv_fails.items false) bind_fails.items }
    {
        let mut link = MemLink::new(alloc, arrivals, send_fails, recv_fails, false);
        link.binds = NumberedCalls::new(bind_fails);
        link
    }

    /// Returns how many calls failed because an allocation failed. The count never falls, and each of them counts among the faults too.
    pub fn starved(&self) -> u64
        ensures count { result ≡ self.now.starved }
        ensures among_faults { result ≤ self.now.faults }
    {
        self.starved
    }

    /// Returns the calls so far, the oldest first, or `None` once an allocation has failed in a call.
    pub fn reported(&self) -> Option<&[LinkCall]>
        ensures some { IfSome result (λ calls. reported_of self.now ≡ Some calls.now) }
        ensures none { result ≡ None → reported_of self.now ≡ None }
    {
        if self.starved == 0 {
            Some(self.calls.as_slice())
        } else {
            None
        }
    }

    fn fail(&mut self) -> Failed
        ensures { self.new ≡ failed self.old }
    {
        self.faults = self.faults.saturating_add(1);
        Failed
    }

    fn starve(&mut self) -> Failed
        ensures { self.new ≡ starved self.old }
    {
        self.faults = self.faults.saturating_add(1);
        self.starved = self.starved.saturating_add(1);
        Failed
    }

    /// Records a call, or fails where an allocation does.
    fn note(&mut self, call: LinkCall) -> Result<(), Failed>
        ensures ok { OnOk result (self.new ≡ noted self.old call) }
        ensures err { OnErr result (self.new ≡ starved self.old) }
    {
        if self.calls.push(call).is_err() {
            return Err(self.starve());
        }
        Ok(())
    }

    /// Moves on to the next arrival.
    #[tactic(auto, using(crate::proofs::Arrivals::drop_next))]
    fn use_up(&mut self)
        requires { 0 < length self.old.arrivals }
        ensures { self.new ≡ without_arrival self.old }
    {
        self.at += 1;
    }

    /// Moves the next arrival to `buf`, and records it. Only that uses it up.
    fn receive(&mut self, buf: &mut [u8]) -> Result<Receipt, Failed>
        ensures within { IfOk result (λ receipt. HasAtMost receipt (length buf.new)) }
        ensures receipt { IfOk result (λ receipt.
            received_as receipt buf.new ≡ arriving (length buf.new) self.old.arrivals) }
        ensures ok { OnOk result
            (self.new ≡ noted (without_arrival self.old) (arriving (length buf.new) self.old.arrivals)) }
        ensures err { OnErr result (self.new ≡ starved self.old) }
    {
        match self.arrivals.get(self.at) {
            None => {
                self.note(LinkCall::Silent)?;
                Ok(Receipt::Nothing)
            }
            Some(Arrival::Nothing) => {
                self.note(LinkCall::Silent)?;
                self.use_up();
                Ok(Receipt::Nothing)
            }
            Some(Arrival::Datagram { from, bytes }) => {
                let from = *from;
                let len = copy_front(bytes.as_slice(), buf);
                let Ok(moved) = buf[..len].to_vec(self.alloc) else {
                    return Err(self.starve());
                };
                self.note(LinkCall::Came(from, Octets::new(moved)))?;
                self.use_up();
                Ok(Receipt::Got { len, from })
            }
        }
    }
}

impl Link for MemLink {
    ghost reported = { reported_of };

    ghost fault_count = { λ link. link.faults };

    ghost bind_fault_count = { λ link. link.bind_faults };

    fn faults(&self) -> u64 {
        self.faults
    }

    fn bind_faults(&self) -> u64 {
        self.bind_faults
    }

    fn bind(&mut self, at: Addr) -> Result<(), Failed>
        // It fails exactly where it was made to fail, or where an allocation fails.
        ensures bound { OnOk result ((BindFails self.old → ⊥)
            × (self.new ≡ noted (binding self.old) (Bound at))) }
        ensures failed { OnErr result ((BindFails self.old
            × (self.new ≡ at_bind (failed (binding self.old))))
            ⊎ (self.new ≡ at_bind (starved (binding self.old)))) }

        // What every link promises.
        ensures reported { Reports (reported_of self.old) (reported_of self.new) (bind_reported at result) }
        ensures cause { OnErr result (Rose self.old.faults self.new.faults) }
        ensures bind_cause { OnErr result (Rose self.old.bind_faults self.new.bind_faults) }
        ensures no_fault { OnOk result (self.new.faults ≡ self.old.faults) }
        ensures no_bind_fault { OnOk result (self.new.bind_faults ≡ self.old.bind_faults) }
        ensures never_falls { self.old.faults ≤ self.new.faults }
        ensures bind_never_falls { self.old.bind_faults ≤ self.new.bind_faults }
    {
        let is_listed = self.binds.next_fails();
        let bound = if is_listed || self.bind_fails {
            Err(self.fail())
        } else {
            self.note(LinkCall::Bound(at))
        };
        if bound.is_err() {
            self.bind_faults = self.bind_faults.saturating_add(1);
        }
        bound
    }

    fn send(&mut self, to: Addr, bytes: &[u8]) -> Result<(), Failed>
        // It fails exactly where its call is listed so, or where an allocation fails.
        ensures sent { OnOk result ((IsNextListed self.old.sends → ⊥)
            × (self.new ≡ noted (sending self.old) (Handed to bytes.now false))) }
        ensures failed { OnErr result ((IsNextListed self.old.sends
            × (self.new ≡ failed (noted (sending self.old) (Handed to bytes.now true))))
            ⊎ (self.new ≡ starved (sending self.old))) }

        // What every link promises.
        ensures reported { Reports (reported_of self.old) (reported_of self.new) (send_reported to bytes.now result) }
        ensures cause { OnErr result (Rose self.old.faults self.new.faults) }
        ensures no_fault { OnOk result (self.new.faults ≡ self.old.faults) }
        ensures never_falls { self.old.faults ≤ self.new.faults }
        ensures no_bind_fault { self.new.bind_faults ≡ self.old.bind_faults }
    {
        let fails = self.sends.next_fails();
        let Ok(copy) = bytes.to_vec(self.alloc) else {
            return Err(self.starve());
        };
        self.note(LinkCall::Handed(to, Octets::new(copy), fails))?;
        if fails {
            return Err(self.fail());
        }
        Ok(())
    }

    fn recv(&mut self, buf: &mut [u8]) -> Result<Receipt, Failed>
        requires { 2048 ≤ length buf.old }

        // It fails exactly where its call is listed so, or where an allocation fails, and gives the next arrival.
        ensures receipt { IfOk result (λ receipt.
            received_as receipt buf.new ≡ arriving (length buf.new) self.old.arrivals) }
        ensures received { OnOk result ((IsNextListed self.old.recvs → ⊥)
            × (self.new ≡ noted (without_arrival (receiving self.old)) (arriving (length buf.new) self.old.arrivals))) }
        ensures failed { OnErr result ((IsNextListed self.old.recvs
            × (self.new ≡ failed (noted (receiving self.old) Missed)))
            ⊎ (self.new ≡ starved (receiving self.old))) }

        // What every link promises.
        ensures within { IfOk result (λ receipt. HasAtMost receipt (length buf.new)) }
        ensures reported { Reports (reported_of self.old) (reported_of self.new) (recv_reported result buf.new) }
        ensures cause { OnErr result (Rose self.old.faults self.new.faults) }
        ensures no_fault { OnOk result (self.new.faults ≡ self.old.faults) }
        ensures never_falls { self.old.faults ≤ self.new.faults }
        ensures no_bind_fault { self.new.bind_faults ≡ self.old.bind_faults }
    {
        if self.recvs.next_fails() {
            self.note(LinkCall::Missed)?;
            return Err(self.fail());
        }
        self.receive(buf)
    }
}
