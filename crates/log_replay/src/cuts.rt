//! What is known of the fetched reads, as far as it decides which reads may follow.

ghost use Rattle.limits.specs.Limits.{longest_stream};
ghost use Rattle.std.specs.Prelude.{◌≡◌, ◌≤◌, ◌+◌, ◌^◌, length, sum, false, Some, None, IfSome, if◌then◌else◌};
ghost use Rattle.seq_arith.specs.MessageGrammar.{lens_in};
ghost use Rattle.log_replay.specs.ReadLengths.{may_cut, cut_on, cuts_through, HaveBytes};

use logger_wire::len_at;

/// How many reads are fetched, how many bytes they took, and whether the closing one, of length 0, is among them.
#[derive(Clone, Copy)]
pub struct Cuts {
    /// How many reads are fetched.
    pub count: u32,
    /// How many bytes they took.
    pub sum: u32,
    /// Whether the closing one, of length 0, is among them.
    pub ended: bool,
}

impl Cuts {
    /// No read.
    pub const NONE: Cuts = Cuts {
        count: 0,
        sum: 0,
        ended: false,
    };

    /// The reads below a mark. The closing one isn't among them.
    pub fn below(count: u32, sum: u32) -> Cuts
        ensures { result ≡ record { count = count; sum = sum; ended = false } }
    {
        Cuts {
            count,
            sum,
            ended: false,
        }
    }

    /// Returns these reads and one more, if the log's rule lets it follow in a stream of `len` bytes, whose FIN is logged if `fin`.
    fn with(self, n: u16, len: u32, fin: bool) -> Option<Cuts>
        requires len { len ≤ longest_stream }
        requires bytes { HaveBytes self }
        ensures value { result ≡ (if may_cut len fin self n then Some (cut_on self n) else None) }
        ensures bytes { IfSome result (λ cuts. HaveBytes cuts) }
        ensures within { IfSome result (λ cuts. cuts.sum ≤ len) }
    {
        let n = u32::from(n);
        if self.ended || len < self.sum || len - self.sum < n {
            return None;
        }
        if n == 0 && !(fin && self.sum == len) {
            return None;
        }
        Some(Cuts {
            count: self.count + 1,
            sum: self.sum + n,
            ended: n == 0,
        })
    }

    /// Returns these reads and those of the lengths `lens`, two bytes for each length, if all of these may follow.
    #[tactic(auto, using(crate::proofs::Cited::through_lemmas))]
    pub fn through(self, lens: &[u8], len: u32, fin: bool) -> Option<Cuts>
        requires len { len ≤ longest_stream }
        requires bytes { HaveBytes self }
        requires within { self.sum ≤ len }
        ensures value { result ≡ cuts_through len fin self (lens_in lens.now) }
        ensures bytes { IfSome result (λ cuts. HaveBytes cuts) }
        ensures within { IfSome result (λ cuts. cuts.sum ≤ len) }
        ensures sum { IfSome result (λ cuts. cuts.sum ≡ self.sum + sum (lens_in lens.now)) }
    {
        let mut cuts = self;
        for i in 0..lens.len() / 2 {
            cuts = cuts.with(len_at(lens, i), len, fin)?;
        }
        Some(cuts)
    }
}
