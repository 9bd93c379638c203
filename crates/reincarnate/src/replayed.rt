//! A connection whose service is where the log ends.

ghost use Rattle.limits.specs.Limits.{longest_stream};
ghost use Rattle.std.specs.Prelude.{◌≡◌, ◌+◌, ◌^◌, ◌<◌, ◌≤◌, length, min, IfOk, IfErr};
ghost use Rattle.tcp_rules.specs.Profiles.{profile_of};
ghost use Rattle.server_trait.specs.Service.{machine};
ghost use Rattle.ft_model.specs.Offset.{one_if};
ghost use Rattle.ft_model.specs.Log.{Entry};
ghost use Rattle.ft_model.specs.Restart.{IsSoundEntry};
ghost use Rattle.south_wrap.specs.SouthState.{resumed_south};
ghost use Rattle.reincarnate.specs.Refinement.{IsReplayed};
ghost use Rattle.reincarnate.specs.Splice.{spliced_from, spliced_from_in, EntryNumbersFit, IsSpliced, IsSplicedIn};
ghost use Rattle.log_replay.specs.ReadLengths.{HaveBytes};
ghost use Rattle.logger_wire.specs.Records.{head_said};
ghost use Rattle.log_replay.specs.LoggedHead.{IsSegmentSize, has_end};

use crate::lost::{LostIn, Stage};
use crate::spliced::Spliced;
use ft_io::Addr;
use log_replay::{Cuts, Replay, has_end, spliced_endpoint};
use logger_wire::EntryHead;
use seq_arith::Seq;
use server_trait::Service;
use south_wrap::{Fetched, South};
use std::alloc::Global;
use std::marker::Model;
use tcp_rules::{Profile, Timestamping};

/// An entry of the log whose reads are all replayed.
#[derive(Drop)]
pub struct Replayed<S: Service> {
    /// The entry without its bytes and lengths.
    head: EntryHead,
    /// What is known of all its reads.
    cuts: Cuts,
    /// The service, with the bytes that no read took.
    replay: Replay<S>,
}

impl<S: Service> Model for Replayed<S> {
    ghost use Rattle.limits.specs.Limits.{longest_stream};
    ghost use Rattle.std.specs.Prelude.{◌≡◌, ◌+◌, ◌^◌, ◌≤◌, length};
    ghost use Rattle.log_replay.specs.ReadLengths.{HaveBytes};
    ghost use Rattle.logger_wire.specs.Records.{head_said};
    ghost use Rattle.reincarnate.specs.Progress.{ReplayedState};
    ghost use Rattle.log_replay.specs.LoggedHead.{IsSegmentSize};

    ghost Value = { ReplayedState S };

    ghost view = { λ r. record { head = head_said r.head; cuts = r.cuts; replay = r.replay } };

    ghost invariant = { λ r. (r.head.length ≤ longest_stream) × IsSegmentSize r.head.mss × HaveBytes r.cuts
        × (r.cuts.sum + length r.replay.held ≡ r.head.length) };
}

impl<S: Service> Replayed<S> {
    pub(crate) fn new(head: EntryHead, cuts: Cuts, replay: Replay<S>) -> Replayed<S>
        requires stream { head.length ≤ longest_stream }
        requires segments { IsSegmentSize head.mss }
        requires have { HaveBytes cuts }
        requires whole { cuts.sum + length replay.held ≡ head.length }
        ensures { result ≡ record { head = head_said head; cuts = cuts; replay = replay } }
    {
        Replayed { head, cuts, replay }
    }

    /// Returns the entry without its bytes and lengths.
    pub fn head(&self) -> EntryHead
        ensures { head_said result ≡ self.now.head }
    {
        self.head
    }

    /// Returns the output that the client hasn't acknowledged.
    pub fn pending(&self) -> &[u8]
        ensures { result.now ≡ self.now.replay.pending }
    {
        self.replay.pending()
    }

    /// Puts a fresh TCP with the initial sequence number `isn` between the wrappers. All three continue at the end of the entry.
    pub fn splice(
        self,
        alloc: Global,
        boot: u64,
        local: Addr,
        isn: Seq,
    ) -> Result<Spliced<S>, LostIn>
        requires { 1 ≤ boot }
        ensures value { IfOk result (λ s. s ≡ spliced_from boot local isn.0 self) }
        ensures lost { IfErr result (λ e. e.stage ≡ Stage.Replayed) }
        ensures law { IfOk result (λ s. (fresh : S) (e : Entry) → IsReplayed (machine fresh S.after S.greeting) e self
            → IsSoundEntry (machine fresh S.after S.greeting) e
            → IsSpliced (machine fresh S.after S.greeting) e isn.0 s) }
    {
        self.splice_in(Profile::Plain, alloc, boot, local, isn)
    }

    /// The same of a server with this profile. TCP measures round trips anew if the profile measures them.
    pub fn splice_in(
        self,
        profile: Profile,
        alloc: Global,
        boot: u64,
        local: Addr,
        isn: Seq,
    ) -> Result<Spliced<S>, LostIn>
        requires { 1 ≤ boot }
        ensures value { IfOk result (λ s. s ≡ spliced_from_in (profile_of profile) boot local isn.0 self) }
        ensures lost { IfErr result (λ e. e.stage ≡ Stage.Replayed) }
        ensures law { IfOk result (λ s. (fresh : S) (e : Entry) → IsReplayed (machine fresh S.after S.greeting) e self
            → IsSoundEntry (machine fresh S.after S.greeting) e
            → IsSplicedIn (profile_of profile) (machine fresh S.after S.greeting) e isn.0 s) }
    {
        self.join(profile, alloc, boot, local, isn)
    }

    fn join(
        self,
        profile: Profile,
        alloc: Global,
        boot: u64,
        local: Addr,
        isn: Seq,
    ) -> Result<Spliced<S>, LostIn>
        requires { 1 ≤ boot }
        ensures value { IfOk result (λ s. s ≡ spliced_from_in (profile_of profile) boot local isn.0 self) }
        ensures lost { IfErr result (λ e. e.stage ≡ Stage.Replayed) }
        ensures fits { EntryNumbersFit self isn.0 }
    {
        let Replayed { head, cuts, replay } = self;
        // The log has no timestamps. If the client's segments carry them, the first that comes in time is echoed.
        let south = south_behind(
            &head,
            cuts,
            replay.made(),
            replay.has_closed(),
            isn,
        ).with_timestamps(Timestamping::resumed(profile.timestamps(), head.mss));
        let endpoint = match spliced_endpoint(alloc, &head, local, isn, profile.measures()) {
            Ok(endpoint) => endpoint,
            Err(_) => {
                drop(replay);
                return Err(LostIn {
                    stage: Stage::Replayed,
                });
            }
        };
        Ok(Spliced {
            profile,
            boot,
            key: head.key,
            local,
            south,
            endpoint,
            north: replay.into_north(cuts),
        })
    }
}

/// A south wrapper that continues where the entry ends. Its service has made `made` bytes of output, and `closed` says whether it has closed: an earlier
/// incarnation may have sent all of this.
pub(crate) fn south_behind(head: &EntryHead, cuts: Cuts, made: u32, closed: bool, isn: Seq) -> South
    requires stream { head.now.length ≤ longest_stream }
    requires made { made ≤ longest_stream }
    requires read { cuts.sum ≤ longest_stream }
    ensures numbers { (head.now.sisn < 2 ^ 32) × (isn.0 < 2 ^ 32) }
    ensures value { result ≡ record (resumed_south head.now.cisn head.now.sisn head.now.length (made + one_if closed)
        (has_end (head_said head.now)) (min head.now.acked made) isn.0) { read = cuts.sum } }
{
    let fetched = Fetched {
        cisn: Seq(head.cisn),
        sisn: Seq(head.sisn),
        length: head.length,
        fin: has_end(head),
        output: made + u32::from(closed),
        acked: head.acked.min(made),
    };
    let mut south = South::after_fetch(fetched, isn);
    south.read_to(cuts.sum);
    south
}
