//! The marks of one key that are sent in its turn.

ghost use Rattle.std.specs.Prelude.{◌≡◌, ◌≤◌, ℕ, length, OnOk};
ghost use Rattle.ft_model.specs.Point.{Point};
ghost use Rattle.server_trait.specs.Service.{AreBytes};
ghost use Rattle.mark_laws.specs.Marking.{outstanding_in};
ghost use Rattle.conn_marks.specs.KeyMarks.{marking_in, every_for};
ghost use Rattle.node_serving.specs.Conn.{IsSound, IsOursAt};
ghost use Rattle.node_serving.specs.Identity.{service_of, grammar_in};
ghost use Rattle.conn_marks.specs.MarkSends.{SendsMarks};
ghost use Rattle.conn_marks.specs.Settled.{MarksNew};
ghost use Rattle.node_serving.specs.MarkedAlone.{MarksOnly};
ghost use Rattle.node_serving.specs.Markers.{saving, marker_of};

use crate::identity::Identity;
use crate::out_packet::To;
use crate::turn::Turn;
use conn_marks::Marks;
use ft_io::{Key, NoMemory};
use logger_wire::write_mark;
use server_trait::Saved;
use wrapped_conn::Conn;

/// Sends the outstanding mark of a key, if there is one. If n of the packets after the first `from` say that a connection is done, the mark is inserted before
/// the last n packets of the turn.
pub(crate) fn send_outstanding(
    who: Identity,
    key: Key,
    marks: &Marks,
    from: usize,
    turn: &mut Turn,
) -> Result<(), NoMemory>
    requires boot { 1 ≤ who.boot }
    requires from { from ≤ length turn.old.sent.items }
    ensures { OnOk result (SendsMarks (grammar_in who) who.boot key from (outstanding_in (marking_in marks.now key)) turn.old.sent.items turn.new.sent.items) }
{
    let Some(message) = marks.message(who.boot, key) else {
        return Ok(());
    };
    let behind = turn.sent.dones_from(who.profile.grammar(), from);
    let mut text = [0; 2_048];
    let len = write_mark(&message, &mut text);
    turn.sent.put(turn.alloc, behind, To::Logger, &text[..len])
}

/// Makes a key's next mark after a turn of its connection other than a tick, if one is due, and sends it at the same place as `send_outstanding`. In whatever
/// state the connection is, only marks of this key are sent.
pub fn send_new<S: Saved>(
    who: Identity,
    key: Key,
    conn: &Conn<S>,
    marks: &mut Marks,
    from: usize,
    turn: &mut Turn,
) -> Result<(), NoMemory>
    requires boot { 1 ≤ who.boot }
    requires sound { IsSound conn.now }
    requires from { from ≤ length turn.old.sent.items }
    ensures alone { OnOk result (MarksOnly who.boot key marks.old marks.new turn.old.sent.items turn.new.sent.items) }
    ensures law { OnOk result ((every : ℕ) (p : Point) → marks.old.every ≡ every_for S.is_savable every
        → IsOursAt (service_of S.Service who) who.local who.boot conn.now p → AreBytes p.taken
        → MarksNew (marker_of S.Service (saving S.form S.state_of S.is_savable) who every)
        (grammar_in who) who.boot key p marks.old marks.new from turn.old.sent.items turn.new.sent.items) }
{
    let waits = marks.message(who.boot, key).is_some();
    marks.advance(turn.alloc, key, conn)?;
    if waits {
        return Ok(());
    }
    send_outstanding(who, key, marks, from, turn)
}
