//! Wrong results that the contracts of this crate exclude. Each function calls another one of the crate, and promises of its result what a wrong body would
//! make false. It is proved from the other's contract alone, so it is no longer proved once that contract lets the wrong body pass.

ghost use Rattle.std.specs.Prelude.{◌≡◌, ◌<◌, ◌+◌, true, false, None, Some, IfOk, IfSome, length, option_map};
ghost use Rattle.wrapped_conn.specs.Sound.{IsSound};

use crate::marking::Marking;
use ft_io::NoMemory;
use server_trait::{Saved, Service};
use wrapped_conn::{Conn, Quiet};

/// The state in a mark that is made is the form of the service's state, and nothing of the last mark stands before it: the clause `state` of
/// `Marking::advance`.
fn adds_the_state_to_the_last_one<S: Saved>(
    marking: &mut Marking,
    every: u32,
    conn: &Conn<S>,
) -> Result<bool, NoMemory>
    requires { IsSound conn.now }
    ensures { IfOk result (λ made. made ≡ true → option_map (λ mark. mark.state) marking.new.outstanding ≡ Some (S.form conn.now.north.run.service)) }
{
    marking.advance(every, conn)
}

/// An answer with fewer reads than the outstanding mark leaves that mark outstanding: the contract of `Marking::receive`.
fn an_older_answer_ends_the_mark(marking: &mut Marking, reads: u32)
    requires { IfSome marking.old.outstanding (λ mark. reads < mark.reads) }
    ensures { marking.new.outstanding ≡ marking.old.outstanding }
{
    marking.receive(reads);
}

/// No mark is due before `every` reads were made after the last one, however many were made in all: the contract of `Marking::due`.
fn counts_from_the_first_read<S: Service>(
    marking: &Marking,
    every: u32,
    conn: &Conn<S>,
) -> Option<Quiet>
    requires { conn.now.north.count < marking.now.last + every }
    ensures { result ≡ None }
{
    marking.due(every, conn)
}

/// No mark is made if the form of the service's state is longer than the 1,100 bytes that a message can hold: the clause `made` of `Marking::advance`.
fn sends_a_form_that_no_message_holds<S: Saved>(
    marking: &mut Marking,
    every: u32,
    conn: &Conn<S>,
) -> Result<bool, NoMemory>
    requires sound { IsSound conn.now }
    requires long { 1100 < length (S.form conn.now.north.run.service) }
    ensures { IfOk result (λ made. made ≡ false) }
{
    marking.advance(every, conn)
}
