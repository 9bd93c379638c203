//! Answers that wait for a commit.

ghost use Rattle.std.specs.Prelude.{◌≡◌, length};
ghost use Rattle.link_parts.specs.Counts.{HasRoom};
ghost use Rattle.journal_parts.specs.RoundParts.{HandsOver, HasAnswered};

use disk::Desk;
use forget_store::AnswerOut;
use ft_io::Addr;
use link_parts::Counts;

/// An answer and its addressee, to be sent once its round is on the disk; or no bytes.
#[derive(Drop)]
pub struct Answer {
    /// The addressee.
    pub to: Addr,
    /// The answer, or no bytes.
    pub out: AnswerOut,
}

/// Hands an answer to send, if it has bytes.
fn reply<K: Desk>(desk: &mut K, answer: &Answer, counts: &mut Counts)
    requires { HasRoom 1 counts.old }
    ensures handed { HandsOver answer.now (K.reported desk.old) (K.reported desk.new) counts.old counts.new }
    ensures no_disk_fault { K.fault_count desk.new ≡ K.fault_count desk.old }
    ensures no_bind_fault { (K.beside desk.new).bind_faults ≡ (K.beside desk.old).bind_faults }
    ensures no_receive { (K.beside desk.new).waits ≡ (K.beside desk.old).waits }
{
    let bytes = answer.out.bytes();
    if bytes.is_empty() {
        return;
    }
    let sent = desk.send(answer.to, bytes);
    counts.note_sent(&sent);
}

/// Hands answers to send, in their order.
pub(crate) fn reply_to_all<K: Desk>(desk: &mut K, answers: &[Answer], counts: &mut Counts)
    requires { HasRoom (length answers.now) counts.old }
    ensures answered { HasAnswered answers.now (K.reported desk.old) (K.reported desk.new) counts.old counts.new }
    ensures no_disk_fault { K.fault_count desk.new ≡ K.fault_count desk.old }
    ensures no_bind_fault { (K.beside desk.new).bind_faults ≡ (K.beside desk.old).bind_faults }
    ensures no_receive { (K.beside desk.new).waits ≡ (K.beside desk.old).waits }
{
    for answer in answers {
        reply(desk, answer, counts);
    }
}
