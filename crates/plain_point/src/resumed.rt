//! The point of a connection that a restart fetched from the log.

ghost use Rattle.std.specs.Prelude.{◌≡◌, ◌≤◌, ◌^◌, length};
ghost use Rattle.logger_wire.specs.Records.{numbers_said};
ghost use Rattle.tcp_rules.specs.Profiles.{profile_of};
ghost use Rattle.plain_point.specs.Resumed.{point_fetched, with_output_from};

use crate::point::PlainPoint;
use logger_wire::Numbers;
use std::alloc::Global;
use tcp_rules::{Profile, Timestamping};

impl PlainPoint {
    /// Creates the point of a connection whose logged bytes and FIN are taken and known to be logged. One acknowledgement has counted, with window 0.
    /// Nothing is read yet. Allocates nothing.
    pub fn fetched(
        alloc: Global,
        profile: Profile,
        numbers: &Numbers,
        bytes: Vec<u8>,
        fin: bool,
    ) -> PlainPoint
        requires { length bytes.items ≤ 2 ^ 32 }
        ensures { result ≡ point_fetched (profile_of profile) (numbers_said numbers.now) bytes.items fin }
    {
        let len = bytes.len() as u64;
        PlainPoint {
            fetched: len,
            taken: bytes,
            fin,
            answered: len + u64::from(fin),
            wl1: len as i64,
            syn_acked: true,
            timestamping: Timestamping::resumed(profile.timestamps(), numbers.mss),
            ..PlainPoint::opened(alloc, profile, Timestamping::Off, numbers)
        }
    }

    /// Records that all reads made are known to be logged, that they make `units` units of output, and that the output continues from the offset `at` on.
    pub fn resume_at(&mut self, at: u64, units: u64)
        ensures { self.new ≡ with_output_from at units self.old }
    {
        self.fetched_output = units;
        self.reads_answered = self.lengths.len();
        self.una = at;
        self.sent = at;
        self.edge = at;
        self.wl2 = at;
    }
}
