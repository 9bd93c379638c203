//! What the server knows of a live connection's client: how it got the connection, and how long its client has been silent.

ghost use Rattle.std.specs.Prelude.{◌≡◌, ◌≤◌, false};
ghost use Rattle.ft_model.specs.Point.{Point};
ghost use Rattle.lasting_laws.specs.Watching.{is_half_open, is_let_go, is_due, interval as interval_lem};
ghost use Rattle.lasting_laws.specs.Watching as law;
ghost use Rattle.lasting_lives.specs.Lives.{received_watch, older_watch};
ghost use Rattle.lasting_lives.specs.Watches.{WatchStands, ShowsPoint, due_by};

use crate::outside::Outside;

/// After how many ticks a half-open connection is let go of, and one that may be half-open.
const HALF_OPEN: u32 = 250;

/// After how many ticks each the client of a connection that may be half-open is sent a keep-alive.
const ASKING: u32 = 50;

/// How the server got a connection.
#[derive(Clone, Copy)]
pub enum Origin {
    /// This incarnation opened it.
    Opened,
    /// It was restored from an entry in which nothing is logged, and its client has sent nothing since.
    RestoredEmpty,
    Restored,
}

/// How long a connection has been live, and its client silent. Both stop at `u32::MAX`.
#[derive(Clone, Copy)]
pub struct Watch {
    pub origin: Origin,
    /// In ticks since it became live.
    pub age: u32,
    /// In ticks since a packet of its client came, or since it became live.
    pub silent: u32,
}

/// What the server does for a silent client.
#[derive(Clone, Copy)]
pub enum Due {
    Nothing,
    KeepAlive,
    LetGo,
}

impl Watch {
    pub fn begin(origin: Origin) -> Watch
        ensures { result ≡ record { origin = origin; age = 0; silent = 0 } }
    {
        Watch {
            origin,
            age: 0,
            silent: 0,
        }
    }

    /// Notes that a packet of the client came.
    pub fn receive(&mut self)
        ensures { self.new ≡ received_watch self.old }
    {
        if let Origin::RestoredEmpty = self.origin {
            self.origin = Origin::Restored;
        }
        self.silent = 0;
    }

    /// Notes that a tick has passed.
    pub fn tick(&mut self)
        ensures { self.new ≡ older_watch self.old }
    {
        self.age = self.age.saturating_add(1);
        self.silent = self.silent.saturating_add(1);
    }

    /// What is due for a connection with these numbers, after a tick.
    pub fn due(&self, silence: u32, conn: &Outside) -> Due
        requires { silence ≤ 100000000 }
        ensures { (w : law.Watch) (p : Point) → WatchStands self.now w → ShowsPoint conn.now p → result ≡ due_by silence w p }
    {
        if conn.reset {
            return Due::Nothing;
        }
        if self.is_gone(silence, conn) {
            return Due::LetGo;
        }
        if conn.is_all_acknowledged() && self.is_asking_time(silence) {
            return Due::KeepAlive;
        }
        Due::Nothing
    }

    /// Whether the server lets go of a connection that isn't reset.
    fn is_gone(&self, silence: u32, conn: &Outside) -> bool
        requires { silence ≤ 100000000 }
        ensures { (w : law.Watch) (p : Point) → WatchStands self.now w → ShowsPoint conn.now p → p.reset ≡ false → result ≡ is_let_go silence w p }
    {
        match self.origin {
            Origin::Opened if !conn.syn_acked => self.age >= HALF_OPEN,
            Origin::RestoredEmpty => self.silent >= HALF_OPEN,
            _ => silence > 0 && self.silent >= 2 * silence,
        }
    }

    /// Whether it is time to ask a client for a sign of life.
    fn is_asking_time(&self, silence: u32) -> bool
        requires { silence ≤ 100000000 }
        ensures { (w : law.Watch) (p : Point) → WatchStands self.now w → p.reset ≡ false → is_half_open w p ≡ false → is_let_go silence w p ≡ false
            → result ≡ is_due silence w }
    {
        match self.origin {
            Origin::RestoredEmpty => self.silent % ASKING == 0,
            _ => {
                silence > 0
                    && self.silent >= silence
                    && (self.silent - silence) % interval(silence) == 0
            }
        }
    }
}

/// After how many further ticks of silence each a client is asked again.
fn interval(silence: u32) -> u32
    ensures value { result ≡ interval_lem silence }
    ensures some { 1 ≤ result }
{
    (silence / 8).max(1)
}
