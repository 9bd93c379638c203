//! A head and a tail, and what each of them ever sent to the other.

use ft_io::NoMemory;
use logger_wire::Grammar;
use std::alloc::Global;
use twin_log::{Part, Side, TwinLog, TwinOut};

#[derive(Drop)]
pub(crate) struct Pair {
    grammar: Grammar,
    head: TwinLog,
    tail: TwinLog,
    from_head: Vec<Vec<u8>>,
    from_tail: Vec<Vec<u8>>,
    stopped: Option<Part>,
    /// The place of the next datagram in order among those sent to the head, and among those sent to the tail.
    passed: (usize, usize),
}

impl Pair {
    /// Two loggers of a server whose messages have this grammar.
    pub(crate) fn new(alloc: Global, grammar: Grammar) -> Result<Pair, NoMemory> {
        Ok(Pair {
            grammar,
            head: TwinLog::new_by(alloc, grammar, Part::Head)?,
            tail: TwinLog::new_by(alloc, grammar, Part::Tail)?,
            from_head: Vec::new(alloc),
            from_tail: Vec::new(alloc),
            stopped: None,
            passed: (0, 0),
        })
    }

    pub(crate) fn grammar(&self) -> Grammar {
        self.grammar
    }

    pub(crate) fn logger(&self, part: Part) -> &TwinLog {
        match part {
            Part::Head => &self.head,
            Part::Tail => &self.tail,
        }
    }

    /// The part that has stopped.
    pub(crate) fn stopped(&self) -> Option<Part> {
        self.stopped
    }

    /// What the other of a part has sent to it.
    pub(crate) fn sent_to(&self, part: Part) -> &[Vec<u8>] {
        match part {
            Part::Head => &self.from_tail,
            Part::Tail => &self.from_head,
        }
    }

    /// The place of the next datagram that was sent to a part, in order, after this many that are lost, and at most `last`.
    pub(crate) fn pass(&mut self, part: Part, lost: usize, last: usize) -> usize {
        let passed = match part {
            Part::Head => &mut self.passed.0,
            Part::Tail => &mut self.passed.1,
        };
        let place = passed.saturating_add(lost).min(last);
        *passed = place.saturating_add(1);
        place
    }

    /// Delivers a datagram to a part. One that has stopped does nothing.
    pub(crate) fn deliver(
        &mut self,
        alloc: Global,
        part: Part,
        from: Side,
        bytes: &[u8],
        out: &mut TwinOut,
    ) -> Result<(), NoMemory> {
        if self.stopped == Some(part) {
            out.clear();
            return Ok(());
        }
        match part {
            Part::Head => {
                self.head.deliver(alloc, from, bytes, out)?;
                keep_sent(alloc, out, &mut self.from_head)
            }
            Part::Tail => {
                self.tail.deliver(alloc, from, bytes, out)?;
                keep_sent(alloc, out, &mut self.from_tail)
            }
        }
    }

    /// Delivers what the other of a part has sent to it at a place, from 1; nothing where it has sent less.
    pub(crate) fn deliver_sent(
        &mut self,
        alloc: Global,
        part: Part,
        place: usize,
        out: &mut TwinOut,
    ) -> Result<(), NoMemory> {
        out.clear();
        if place == 0 {
            return Ok(());
        }
        let Some(sent) = self.sent_to(part).get(place - 1) else {
            return Ok(());
        };
        let bytes = sent.to_vec(alloc)?;
        self.deliver(alloc, part, Side::Other, bytes.as_slice(), out)
    }

    /// Stops a part and informs the other, unless one has stopped before.
    pub(crate) fn stop(&mut self, part: Part) {
        if self.stopped.is_some() {
            return;
        }
        self.stopped = Some(part);
        match part {
            Part::Head => leave_alone(&mut self.tail),
            Part::Tail => leave_alone(&mut self.head),
        }
    }
}

/// Tells a logger that the other has stopped.
fn leave_alone(logger: &mut TwinLog) {
    if !logger.is_alone() {
        logger.alone();
    }
}

/// Stores what is sent to the other part.
fn keep_sent(alloc: Global, out: &TwinOut, sent: &mut Vec<Vec<u8>>) -> Result<(), NoMemory> {
    for i in 0..out.len() {
        if out.to(i) == Side::Other {
            sent.push(out.bytes(i).to_vec(alloc)?)?;
        }
    }
    Ok(())
}
