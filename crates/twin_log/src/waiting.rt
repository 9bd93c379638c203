//! The messages that the head has forwarded and the tail hasn't confirmed.

ghost use Rattle.std.specs.Prelude.{[], ◌≡◌, ◌≤◌, ◌<◌, ◌+◌, ◌^◌, ◌++◌, ◌∷◌, true, Some, length, drop, slice_get, IfOk};
ghost use Rattle.std.specs.List.{list_any};
ghost use Rattle.std.specs.Str.{bytes_eq};
ghost use Rattle.std.specs.VecDeque.{deque_capacity};
ghost use Rattle.twin_laws.specs.StoredState.{forwards_sent};
ghost use Rattle.twin_laws.specs.Twin.{is_among};
ghost use Rattle.twin_log.specs.Outbox.{is_forwardable, AreForwardable, texts_of};

use crate::twin_out::TwinOut;
use ft_io::NoMemory;
use limits::WAITING;
use logger_wire::TwinMsg;
use std::alloc::Global;
use std::collections::VecDeque;
use std::marker::Model;

/// At most 64 messages in order, as the bytes in which they arrived. The queue's capacity is allocated once.
#[derive(Drop)]
pub(crate) struct Waiting {
    messages: VecDeque<Vec<u8>>,
}

impl Model for Waiting {
    ghost use Rattle.std.specs.Prelude.{ℕ, ◌≤◌, List, length};
    ghost use Rattle.std.specs.VecDeque.{deque_capacity};
    ghost use Rattle.twin_log.specs.Outbox.{AreForwardable, texts_of};

    ghost Value = { List (List ℕ) };

    ghost view = { λ w. texts_of w.messages.items };

    ghost invariant = { λ w. (length w.messages.items ≤ 64) × (64 ≤ deque_capacity w.messages) × AreForwardable (texts_of w.messages.items) };
}

/// Removes the first `count` messages, or all if there are fewer.
fn drop_messages(messages: &mut VecDeque<Vec<u8>>, count: usize)
    ensures items { messages.new.items ≡ drop count messages.old.items }
    ensures capacity { deque_capacity messages.new ≡ deque_capacity messages.old }
{
    for _more in 0..count {
        messages.pop_front();
    }
}

/// The bytes of message `i`, counted from 0.
fn text_at(messages: &VecDeque<Vec<u8>>, i: usize) -> &[u8]
    requires { i < length messages.now.items }
    ensures { slice_get (texts_of messages.now.items) i ≡ Some result.now }
{
    &messages[i]
}

/// Whether one of the messages has these bytes.
fn has_text(messages: &VecDeque<Vec<u8>>, bytes: &[u8]) -> bool
    ensures { result ≡ list_any (λ message. bytes_eq message.items bytes.now) messages.now.items }
{
    messages.iter().any(|message| message.as_slice() == bytes)
}

/// Forwards each message. The first has the number after `confirmed`.
fn forward(messages: &VecDeque<Vec<u8>>, confirmed: u64, out: &mut TwinOut)
    requires fit { AreForwardable (texts_of messages.now.items) }
    requires room { length out.old + length messages.now.items ≤ 64 }
    requires numbers { confirmed + length messages.now.items < 2 ^ 64 }
    ensures { out.new ≡ out.old ++ forwards_sent confirmed (texts_of messages.now.items) }
{
    for i in 0..messages.len() {
        let message = text_at(messages, i);
        let number = confirmed + i as u64 + 1;
        out.put(&TwinMsg::Forward { number, message });
    }
}

impl Waiting {
    /// No messages, and room for 64.
    pub(crate) fn new(alloc: Global) -> Result<Waiting, NoMemory>
        ensures { IfOk result (λ w. w ≡ []) }
    {
        Ok(Waiting {
            messages: VecDeque::with_capacity(alloc, WAITING)?,
        })
    }

    /// How many messages there are, at most 64.
    #[tactic(auto, using(crate::proofs::Fronts::mapped))]
    pub(crate) fn len(&self) -> usize
        ensures value { result ≡ length self.now }
        ensures most { result ≤ 64 }
    {
        self.messages.len()
    }

    /// Whether one of the messages has these bytes.
    #[tactic(auto, using(crate::proofs::Fronts::any_mapped))]
    pub(crate) fn has(&self, bytes: &[u8]) -> bool
        ensures { result ≡ is_among bytes.now self.now }
    {
        has_text(&self.messages, bytes)
    }

    /// Appends a message.
    #[tactic(auto, using(crate::proofs::Fronts::mapped))]
    pub(crate) fn push(&mut self, message: Vec<u8>)
        requires fits { is_forwardable message.items ≡ true }
        requires room { length self.old < 64 }
        ensures { self.new ≡ self.old ++ message.items ∷ [] }
    {
        self.messages.push_back(message).unwrap();
    }

    /// Removes the first `count` messages, or all if there are fewer.
    #[tactic(auto, using(crate::proofs::Fronts::mapped))]
    pub(crate) fn drop_front(&mut self, count: usize)
        ensures { self.new ≡ drop count self.old }
    {
        drop_messages(&mut self.messages, count);
    }

    /// Forwards each message. The first has the number after `confirmed`.
    #[tactic(auto, using(crate::proofs::Fronts::mapped))]
    pub(crate) fn forward(&self, confirmed: u64, out: &mut TwinOut)
        requires empty { out.old ≡ [] }
        requires numbers { confirmed + length self.now < 2 ^ 64 }
        ensures { out.new ≡ forwards_sent confirmed self.now }
    {
        forward(&self.messages, confirmed, out);
    }
}
