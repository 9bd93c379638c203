//! A service: the deterministic state machine that a fault-tolerant server runs. Its input is the client's byte stream, cut into
//! chunks by the lengths of the server's reads, and its output is the server's byte stream.
#![tactic(auto)]

ghost use Rattle.std.specs.Prelude.{◌≡◌, ℕ, ◌^◌, ◌≤◌, Bool, true, List, [], ◌++◌, length, IfOk, OnOk, OnErr, Option};

use ft_io::NoMemory;
use std::alloc::Global;

/// The largest chunk that a service is given, in bytes.
pub const CHUNK_LIMIT: usize = 2_048;

/// Whether a service continues after a chunk.
#[derive(Clone, Copy, PartialEq, Eq)]
pub enum Next {
    /// It waits for the next chunk.
    Go,
    /// It has closed: no further chunk adds anything.
    Close,
}

/// A deterministic service. An empty chunk is the end of input.
pub trait Service: Drop {
    ghost use Rattle.server_trait.specs.Service.{Served, machine, no_greeting, WritesBytes, next_of};

    /// The state in which a service of this kind starts.
    ghost started: { ℕ → Self };

    /// What a chunk does: the next state, the output, and whether the service closes.
    ghost after: { Self → List ℕ → Served Self };

    /// The greeting of a service that starts in this state: its output before the first chunk. Most services have none.
    ghost greeting: { Self → List ℕ } = { no_greeting };

    /// Returns the greeting of a service in its first state.
    fn greeting(&self) -> &[u8]
        ensures { result.now ≡ greeting self.now };

    /// Returns a service of this kind in its first state. Allocates nothing.
    fn fresh(alloc: Global, kind: u8) -> Self
        ensures { result ≡ started kind };

    /// Takes one chunk and appends its output. After `NoMemory` the service and `out` may only be dropped.
    fn take(&mut self, chunk: &[u8], out: &mut Vec<u8>) -> Result<Next, NoMemory>
        requires { length chunk.now ≤ 2048 }
        ensures state { IfOk result (λ _. self.new ≡ (after self.old chunk.now).next) }
        ensures output { IfOk result (λ _. out.new.items ≡ out.old.items ++ (after self.old chunk.now).output) }
        ensures closed { IfOk result (λ next. next ≡ next_of (after self.old chunk.now).closed) };

    /// An empty chunk, the end of input, closes the service.
    ghost closes: { (s : Self) → (after s []).closed ≡ true };

    /// The output of one chunk is at most a mebibyte.
    ghost is_short: { (s : Self) (chunk : List ℕ) → length chunk ≤ 2048 → length (after s chunk).output ≤ 2 ^ 20 };

    /// A greeting is at most 65,535 bytes: all of it fits into the send buffer.
    ghost greets_shortly: { (s : Self) → length (greeting s) ≤ 65535 };

    /// A service of any kind that is given bytes from its start on writes bytes.
    ghost writes_bytes: { (kind : ℕ) → WritesBytes (machine (started kind) after greeting) };
}

/// A service whose state can be saved as bytes, its form, and restored from them. Any service can implement this trait: one whose states aren't to be saved
/// isn't savable, and has `no_form` and `no_state`.
pub trait Saved: Service {
    ghost use Rattle.server_trait.specs.Service.{machine};
    ghost use Rattle.server_trait.specs.Saved.{writing, ReadsBack, HasOneForm};

    /// Whether its states can be saved.
    ghost is_savable: { Bool };

    /// The form of a state: the bytes that it is saved as. A run that has closed is never saved, so the states after its close need no form.
    ghost form: { Self → List ℕ };

    /// The state of a service of this kind whose form these bytes are, if there is one.
    ghost state_of: { ℕ → List ℕ → Option Self };

    /// Returns whether its states can be saved.
    fn savable() -> bool
        ensures { result ≡ is_savable };

    /// Appends the form of the state of a service that hasn't closed. After `NoMemory` `out` is as before.
    fn save(&self, out: &mut Vec<u8>) -> Result<(), NoMemory>
        ensures ok { OnOk result (out.new.items ≡ out.old.items ++ form self.now) }
        ensures err { OnErr result (out.new.items ≡ out.old.items) };

    /// Returns the service of this kind whose form is these bytes, or `None` if they are the form of none.
    fn load(alloc: Global, kind: u8, bytes: &[u8]) -> Result<Option<Self>, NoMemory>
        ensures { IfOk result (λ loaded. loaded ≡ state_of kind bytes.now) };

    /// Where states can be saved, each state that a run reaches before it closes is read back, and its form is at most 1,100 bytes.
    ghost reads_back: { is_savable ≡ true → (kind : ℕ) → ReadsBack (machine (Self.started kind) Self.after Self.greeting) (writing form (state_of kind)) };

    /// Bytes that are read as a state are its form.
    ghost one_form: { (kind : ℕ) → HasOneForm (writing form (state_of kind)) };
}
