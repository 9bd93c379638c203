//! The answers about a mark, each written as a message into the room for one answer.

ghost use Rattle.limits.specs.Limits.{longest_stream, most_units};
ghost use Rattle.std.specs.Prelude.{◌≡◌, ◌≤◌, ◌<◌, ◌+◌, ◌^◌, length, Some};
ghost use Rattle.seq_arith.specs.Mark.MarkBody.{MarkedMsg, HeldMsg};
ghost use Rattle.seq_arith.specs.Message.Body.{StaleMsg};
ghost use Rattle.seq_arith.specs.MarkGrammar.{IsSpellable, spelling};
ghost use Rattle.logger_wire.specs.MarkValue.{mark_said, message_of};
ghost use Rattle.logger_store.specs.StoreState.{answer_bytes_by};
ghost use Rattle.mark_laws.specs.MarkedLog.{about_mark};
ghost use Rattle.mark_store.specs.Bytes.{reply_bytes};

use ft_io::Key;
use logger_store::MsgOut;
use logger_wire::{Body, Grammar, Mark, MarkBody, MarkMsg, Msg, write_mark};

/// Replaces the content of `out` by a message about marks.
fn put_mark(m: &MarkMsg<'_>, out: &mut MsgOut)
    requires { IsSpellable (message_of m.now) }
    ensures { out.new ≡ spelling (message_of m.now) }
{
    let mut bytes = [0; 2_048];
    let len = write_mark(m, &mut bytes);
    out.put_mark(&bytes[..len]);
}

/// Writes Marked into `out`: the key's mark lies after `reads` reads.
#[tactic(auto, unfolding(seq_arith::specs::MarkGrammar::has_length, seq_arith::specs::MarkGrammar::is_sound))]
pub(crate) fn answer_marked(boot: u64, key: Key, reads: u32, out: &mut MsgOut)
    requires boot { 1 ≤ boot }
    requires reads { reads ≤ most_units }
    ensures { out.new ≡ reply_bytes (Some (about_mark boot (MarkedMsg key reads))) }
{
    let body = MarkBody::Marked { key, reads };
    put_mark(&MarkMsg { boot, body }, out);
}

/// Writes Held into `out`: the key's mark itself.
#[tactic(auto, unfolding(seq_arith::specs::MarkGrammar::has_length, seq_arith::specs::MarkGrammar::is_sound))]
pub(crate) fn answer_held(boot: u64, key: Key, mark: &Mark<'_>, out: &mut MsgOut)
    requires boot { 1 ≤ boot }
    requires reads { mark.now.reads ≤ most_units }
    requires length { mark.now.length ≤ longest_stream }
    requires made { mark.now.made ≤ longest_stream }
    requires state { length mark.now.state.now ≤ 1100 }
    ensures { out.new ≡ reply_bytes (Some (about_mark boot (HeldMsg key (mark_said mark.now)))) }
{
    let body = MarkBody::Held { key, mark: *mark };
    put_mark(&MarkMsg { boot, body }, out);
}

/// Writes Stale into `out`, the answer to a message of boot `boot`: a server with the larger boot number `newer` has started.
#[tactic(auto, unfolding(seq_arith::specs::MessageGrammar::has_length, seq_arith::specs::MessageGrammar::is_sound_by))]
pub(crate) fn answer_stale(grammar: Grammar, boot: u64, newer: u64, out: &mut MsgOut)
    requires boot { 1 ≤ boot }
    requires newer { boot < newer }
    ensures { out.new ≡ answer_bytes_by grammar (Some (record { boot = boot; body = StaleMsg newer })) }
{
    let body = Body::Stale { newer };
    out.put_by(grammar, &Msg { boot, body });
}
