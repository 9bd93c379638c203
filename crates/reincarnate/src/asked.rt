//! The first step of a restart.

ghost use Rattle.std.specs.Prelude.{◌≡◌, ◌≤◌, ◌&&◌, false, [], Ok, IfOk};
ghost use Rattle.seq_arith.specs.Message.Body.{HelloMsg};
ghost use Rattle.seq_arith.specs.declared.kinds.Grammar.{Grammar};
ghost use Rattle.logger_wire.specs.Value.{message_of, IsSendableBy};
ghost use Rattle.reincarnate.specs.Questions.{begun_fetching};
ghost use Rattle.reincarnate.specs.Refinement.{StandsSoFar};
ghost use Rattle.server_trait.specs.Service.{machine};

use crate::fetching::Fetching;
use crate::lost::LostIn;
use crate::marks::Marks;
use crate::ranges::fit_boot;
use logger_wire::{Body, Msg};
use server_trait::Saved;
use std::alloc::Global;
use std::marker::Model;

/// A server that has started, and asks the logger how many entries it has. In contracts it is its boot number.
#[derive(Drop)]
pub struct Asked {
    /// The server's boot number.
    boot: u64,
}

impl Model for Asked {
    ghost use Rattle.std.specs.Prelude.{ℕ, ◌≤◌};

    ghost Value = { ℕ };

    ghost view = { λ a. a.boot };

    ghost invariant = { λ a. 1 ≤ a.boot };
}

impl Asked {
    /// The first step of a restart, with this boot number, which is at least 1.
    pub fn new(boot: u64) -> Asked
        requires { 1 ≤ boot }
        ensures { result ≡ boot }
    {
        Asked { boot }
    }

    /// The question: Hello.
    pub fn question(&self) -> Msg<'_>
        ensures value { message_of result ≡ record { boot = self.now; body = HelloMsg } }
        ensures sendable { (grammar : Grammar) → IsSendableBy grammar result }
    {
        fit_boot(self.boot);
        Msg {
            boot: self.boot,
            body: Body::Hello,
        }
    }

    /// Begins the next step, once it is known that the log has `count` entries. `kind` is the service's kind. If `marks` is set and the service's states can be
    /// saved, the restart asks for the marks of entries and begins at them.
    pub fn on_summary<S: Saved>(
        self,
        alloc: Global,
        kind: u8,
        count: u16,
        marks: bool,
    ) -> Result<Fetching<S>, LostIn>
        requires { count ≤ 64 }
        ensures value { result ≡ Ok (begun_fetching self kind count (marks && S.is_savable)) }
        // Nothing is fetched yet.
        ensures law { IfOk result (λ f. StandsSoFar (machine (S.started kind) S.after S.greeting) (record { entries = []; awaits_mark = false }) f) }
    {
        let marks = Marks::used_if(marks && S::savable());
        Ok(Fetching::begin(alloc, self.boot, kind, count, marks))
    }
}
