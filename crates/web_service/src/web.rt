//! The web server as a service: it answers each request where the request's fields end.

ghost use Rattle.std.specs.Prelude.{◌≡◌, ℕ, ◌^◌, ◌≤◌, List, [], ◌++◌, length, true, IfOk};
ghost use Rattle.server_trait.specs.Service.{Served, next_of};
ghost use Rattle.sample_servers.specs.Stream.{each_byte};
ghost use Rattle.web_service.specs.Answer.{head_of};
ghost use Rattle.web_service.specs.Web.{WebState, answered, web_byte};

use crate::answer::{Reply, Status, write_head};
use crate::reader::Reader;
use crate::request::Request;
use ft_io::NoMemory;
use server_trait::{Next, Saved, Service};
use std::alloc::Global;
use std::marker::Model;

/// The most bytes of answers to one chunk. There is room for a refusal after them.
const ANSWER_ROOM: usize = (1 << 20) - 256;

/// The web server. It answers `GET` and `HEAD`.
#[derive(Drop)]
pub struct Web {
    alloc: Global,
    reader: Reader,
    // How many bytes of answers are left for this chunk.
    room: usize,
}

impl Model for Web {
    ghost Value = { WebState };

    ghost view = { λ web. record { reading = web.reader; room = web.room } };
}

impl Web {
    // Takes bytes up to the one that closes.
    #[tactic(auto, using(crate::proofs::Bytes::each_at, crate::proofs::Bytes::each_end, std::proofs::Common::append_assoc))]
    fn take_bytes(&mut self, bytes: &[u8], out: &mut Vec<u8>) -> Result<Next, NoMemory>
        ensures state { IfOk result (λ _. self.new ≡ (each_byte web_byte self.old bytes.now).next) }
        ensures output { IfOk result (λ _. out.new.items ≡ out.old.items ++ (each_byte web_byte self.old bytes.now).output) }
        ensures closed { IfOk result (λ next. next ≡ next_of (each_byte web_byte self.old bytes.now).closed) }
    {
        for byte in bytes {
            if self.take_byte(*byte, out)? == Next::Close {
                return Ok(Next::Close);
            }
        }
        Ok(Next::Go)
    }

    // Takes one byte, and gives the reply that is due after it.
    #[tactic(auto, unfolding(crate::specs::Web::refused))]
    fn take_byte(&mut self, byte: u8, out: &mut Vec<u8>) -> Result<Next, NoMemory>
        ensures state { IfOk result (λ _. self.new ≡ (web_byte self.old byte).next) }
        ensures output { IfOk result (λ _. out.new.items ≡ out.old.items ++ (web_byte self.old byte).output) }
        ensures closed { IfOk result (λ next. next ≡ next_of (web_byte self.old byte).closed) }
    {
        match self.reader.read(byte)? {
            None => Ok(Next::Go),
            Some(Reply::Refusal(status)) => refuse(status, out),
            Some(Reply::Answer(request)) => self.answer(request, out),
        }
    }

    // Answers a request, if there is room.
    #[tactic(auto, unfolding(crate::specs::Web::answered, crate::specs::Web::refused))]
    pub(crate) fn answer(&mut self, request: Request, out: &mut Vec<u8>) -> Result<Next, NoMemory>
        ensures state { IfOk result (λ _. self.new ≡ (answered self.old request).next) }
        ensures output { IfOk result (λ _. out.new.items ≡ out.old.items ++ (answered self.old request).output) }
        ensures closed { IfOk result (λ next. next ≡ next_of (answered self.old request).closed) }
    {
        let answer = request.answer(self.alloc)?;
        if answer.len() > self.room {
            return refuse(Status::Unavailable, out);
        }
        out.extend_from_slice(&answer)?;
        self.room -= answer.len();
        Ok(if request.closes() {
            Next::Close
        } else {
            Next::Go
        })
    }
}

// Answers without a body, after which the connection closes.
fn refuse(status: Status, out: &mut Vec<u8>) -> Result<Next, NoMemory>
    ensures output { IfOk result (λ _. out.new.items ≡ out.old.items ++ head_of status 0 true) }
    ensures closed { IfOk result (λ next. next ≡ Next.Close) }
{
    write_head(status, 0, true, out)?;
    Ok(Next::Close)
}

impl Service for Web {
    ghost use Rattle.std.proofs.Common.{rules};
    ghost use Rattle.server_trait.specs.Service.{short_greeting};
    ghost use Rattle.web_service.specs.Web.{web_started, web_after};
    ghost use Rattle.web_service.specs.Laws.{length-web_after-le, bytes-web};

    ghost started = { λ _. web_started };

    ghost after = { web_after };

    fn greeting(&self) -> &[u8] {
        &[]
    }

    fn fresh(alloc: Global, _kind: u8) -> Web {
        Web {
            alloc,
            reader: Reader::new(alloc),
            room: 0,
        }
    }

    fn take(&mut self, chunk: &[u8], out: &mut Vec<u8>) -> Result<Next, NoMemory> {
        if chunk.is_empty() {
            return Ok(Next::Close);
        }
        self.room = ANSWER_ROOM;
        self.take_bytes(chunk, out)
    }

    ghost closes = { λ _. Prim.search rules };

    ghost greets_shortly = { short_greeting };

    ghost is_short = { length-web_after-le };

    ghost writes_bytes = { λ _. bytes-web };
}

/// Its states aren't saved: no form is defined for a request that is read in part.
impl Saved for Web {
    ghost use Rattle.std.specs.Prelude.{false};
    ghost use Rattle.server_trait.specs.Saved.{no_form, no_state, unsaved_reads_back, unsaved_one_form};
    ghost use Rattle.server_trait.specs.Service.{silent};
    ghost use Rattle.web_service.specs.Web.{web_started, web_after};

    ghost is_savable = { false };

    ghost form = { no_form };

    ghost state_of = { no_state };

    fn savable() -> bool {
        false
    }

    fn save(&self, _out: &mut Vec<u8>) -> Result<(), NoMemory> {
        Ok(())
    }

    fn load(_alloc: Global, _kind: u8, _bytes: &[u8]) -> Result<Option<Web>, NoMemory> {
        Ok(None)
    }

    ghost reads_back = { unsaved_reads_back (λ _. silent web_started web_after) };

    ghost one_form = { unsaved_one_form };
}
