//! Wrong results that the contracts of this crate exclude. Each function calls another one of the crate, and promises of its result what a wrong body would
//! make false. It is proved from the other's contract alone, so it is no longer proved once that contract lets the wrong body pass.

ghost use Rattle.limits.specs.Limits.{most_units};
ghost use Rattle.std.specs.Prelude.{◌≡◌, ◌+◌, ◌^◌, ◌≤◌, max, false, length, IfOk};
ghost use Rattle.north_wrap.specs.NorthState.{answered};

use crate::north::North;
use ft_io::NoMemory;
use server_trait::Service;
use socket_layer::Socket;
use std::alloc::Global;

/// A greeting may be sent before the first read: the contract of `North::new`.
fn greeting_isnt_counted<S: Service>(alloc: Global, kind: u8) -> Result<North<S>, NoMemory>
    ensures { IfOk result (λ north. north.last.made ≡ length (S.greeting (S.started kind))) }
{
    North::new(alloc, kind)
}

/// No read is made while 32 aren't known to be logged: the contract of `North::is_free_to_read`.
fn a_thirty_third_read<S: Service>(north: &North<S>, una: u32) -> bool
    requires una { una ≤ most_units }
    requires unanswered { length north.now.reads ≡ 32 }
    ensures { result ≡ false }
{
    north.is_free_to_read(una)
}

/// No read past the logger's count becomes known to be logged: the clause `state` of `North::note_reads`.
#[tactic(auto, unfolding(crate::specs::NorthState::answered_on))]
fn answers_all_reads<S: Service>(north: &mut North<S>, count: u32)
    ensures { answered north.new ≤ max (answered north.old) count }
{
    north.note_reads(count);
}

/// Where no read known to be logged has closed the service, the socket stays open: the clauses `state` and `socket` of `North::close`.
fn closes_unlogged<S: Service, K: Socket>(north: &mut North<S>, sock: &mut K)
    requires { north.old.last.closed ≡ false }
    ensures state { north.new.shut ≡ north.old.shut }
    ensures socket { sock.new ≡ sock.old }
{
    north.close(sock);
}
