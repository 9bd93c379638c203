//! The timestamps that the segments to a peer carry (RFC 7323).

ghost use Rattle.limits.specs.Limits.{largest_segment};
ghost use Rattle.std.specs.Prelude.{◌≡◌, ◌+◌, nat_le};
ghost use Rattle.seq_arith.specs.Packet.{timestamps_length};
ghost use Rattle.tcp_rules.specs.Timestamping.{asked_by, echo_after, fitting, newest, resumed_with, timestamps_sent};

use limits::SEGMENT;
use seq_arith::{Seq, Timestamps};

/// The bytes that the timestamps take in a header.
const TIMESTAMPS_LENGTH: u32 = 12;

/// Whether the segments to a peer carry timestamps, and which value they echo.
#[derive(Clone, Copy, Debug, PartialEq, Eq)]
pub enum Timestamping {
    /// They carry none.
    Off,
    /// They carry none until a value of the peer is known.
    Awaited,
    /// They carry them, and echo this value: TS.Recent (RFC 7323, 4.3).
    Echoes(u32),
}

impl Timestamping {
    /// That of a connection whose SYN has these timestamps.
    pub fn asked(uses: bool, syn: Option<Timestamps>) -> Timestamping
        ensures { result ≡ asked_by uses syn }
    {
        if !uses {
            return Timestamping::Off;
        }
        match syn {
            Some(timestamps) => Timestamping::Echoes(timestamps.value),
            None => Timestamping::Off,
        }
    }

    /// The same, if segments with `mss` bytes of text leave room for timestamps; else `Off`.
    pub fn fitting(self, mss: u16) -> Timestamping
        ensures { result ≡ fitting self mss }
    {
        match self {
            Timestamping::Off => Timestamping::Off,
            Timestamping::Awaited => {
                if has_room(mss) {
                    Timestamping::Awaited
                } else {
                    Timestamping::Off
                }
            }
            Timestamping::Echoes(recent) => {
                if has_room(mss) {
                    Timestamping::Echoes(recent)
                } else {
                    Timestamping::Off
                }
            }
        }
    }

    /// That of a connection after a restart, whose segments have at most `mss` bytes of text.
    pub fn resumed(uses: bool, mss: u16) -> Timestamping
        ensures { result ≡ resumed_with uses mss }
    {
        if uses {
            Timestamping::Awaited.fitting(mss)
        } else {
            Timestamping::Off
        }
    }

    /// After a segment with these timestamps. Only one that is in the window and begins at or before the last acknowledgement sent is `timely`.
    pub fn after(self, timely: bool, timestamps: Option<Timestamps>) -> Timestamping
        ensures { result ≡ echo_after self timely timestamps }
    {
        match self {
            Timestamping::Off => Timestamping::Off,
            Timestamping::Awaited => match timestamps {
                Some(timestamps) => {
                    if timely {
                        Timestamping::Echoes(timestamps.value)
                    } else {
                        Timestamping::Awaited
                    }
                }
                None => Timestamping::Awaited,
            },
            Timestamping::Echoes(recent) => match timestamps {
                Some(timestamps) => {
                    if timely {
                        Timestamping::Echoes(newest(recent, timestamps.value))
                    } else {
                        Timestamping::Echoes(recent)
                    }
                }
                None => Timestamping::Echoes(recent),
            },
        }
    }

    /// The timestamps of a segment to the peer. TSval is always 1, so it can't run backwards over a restart.
    pub fn sent(self) -> Option<Timestamps>
        ensures { result ≡ timestamps_sent self }
    {
        match self {
            Timestamping::Echoes(recent) => Some(Timestamps {
                value: 1,
                echo: recent,
            }),
            Timestamping::Off => None,
            Timestamping::Awaited => None,
        }
    }
}

/// Whether a segment with `mss` bytes of text and timestamps fits a packet.
fn has_room(mss: u16) -> bool
    ensures { result ≡ nat_le (mss + timestamps_length) largest_segment }
{
    u32::from(mss) + TIMESTAMPS_LENGTH <= u32::from(SEGMENT)
}

/// The newer of a peer's values in TCP's order.
fn newest(recent: u32, value: u32) -> u32
    ensures { result ≡ newest recent value }
{
    if Seq(recent).le(Seq(value)) {
        value
    } else {
        recent
    }
}
