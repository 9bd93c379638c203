//! Wrong results that the contracts of this crate exclude. Each function calls another one of the crate, and promises of its result what a wrong body would
//! make false. It is proved from the other's contract alone, so it is no longer proved once that contract lets the wrong body pass.

ghost use Rattle.std.specs.Prelude.{◌≡◌, ◌≤◌, ◌∷◌, [], length, true};
ghost use Rattle.ft_io.specs.declared.link_call.LinkCall.TheVariants.{Handed};
ghost use Rattle.ft_io.specs.Reported.{Reports};
ghost use Rattle.ft_system.specs.MemLink.{reported_of};

use crate::{MemLink, UdpLink};
use ft_io::{Addr, Link};
use std::net::Net;
use std::time::Clock;

/// A send that fails is recorded as failed: the clauses `failed` and `reported` of `MemLink::send`.
fn failed_send_is_reported_as_done(link: &mut MemLink, to: Addr, bytes: &[u8]) -> bool
    ensures { result ≡ true → Reports (reported_of link.old) (reported_of link.new) (Handed to bytes.now true ∷ []) }
{
    link.send(to, bytes).is_err()
}

/// A receive that succeeds leaves the count of faults as it was: the clauses `no_fault` and `never_falls` of `Link::recv`.
fn good_receive_resets_the_count<R: Net + Clock>(link: &mut UdpLink<R>, buf: &mut [u8]) -> bool
    requires { 2048 ≤ length buf.old }
    ensures { result ≡ true → link.new.faults ≡ link.old.faults }
{
    link.recv(buf).is_ok()
}
