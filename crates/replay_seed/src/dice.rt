//! Drawing events: pseudorandom numbers, and the events that they select.

ghost use Rattle.std.specs.Prelude.{◌≡◌, ℕ, ◌*◌, ◌<◌, ◌^◌, Some, option_copied, length};
ghost use Rattle.ft_model.specs.Client.{Client as Seen};
ghost use Rattle.ft_model.specs.World.{client_at};
ghost use Rattle.pseudorandom.specs.Generator.{stepped};
ghost use Rattle.replay_seed.specs.Draws.{draw as draw_lem};

use ft_model::{Event, Phase};
use net_schedule::World;
use peer_client::Client;
use pseudorandom::Generator;
use sample_servers::AnyService;

/// The window that a client advertises.
const WINDOW: u16 = 65_535;

/// The largest size of a drawn text, in bytes.
const TEXT: u32 = 536;

/// How many more bytes each client sends than the one before it.
pub(crate) const STEP: u32 = 1_000;

/// The server's state, as far as a drawn event depends on it.
#[derive(Clone, Copy)]
pub struct ServerNow {
    pub is_up: bool,
    /// How many times it has booted, which is also its last boot number.
    pub boots: u64,
}

/// The generator from which the numbers for the next event are drawn.
#[derive(Clone, Copy)]
pub struct Dice {
    pub draws: Generator,
}

impl Dice {
    ghost use Rattle.replay_seed.specs.SeedEvents.{server_event as server_lem, risky_event as risky_lem, delivery as delivery_lem, text_event as text_lem};
    ghost use Rattle.replay_seed.specs.SeedEvents.{progress as progress_lem, acknowledgement as acknowledgement_lem, client_event as client_lem};
    ghost use Rattle.replay_seed.specs.SeedEvents.{next_event as next_lem};

    /// Draws a number of 31 bits.
    fn draw(&mut self) -> u32
        ensures value { result ≡ draw_lem self.old.draws.state }
        ensures state { self.new.draws.state ≡ stepped self.old.draws.state }
        ensures small { result < 2 ^ 31 }
    {
        self.draws.draw()
    }

    /// Returns a tick of the server's clock, or, if the server is down, a boot with the next boot number.
    pub fn server_event(&mut self, server: ServerNow) -> Event
        requires { server.boots < 2 ^ 32 }
        ensures { record { event = result; state = self.new.draws.state } ≡ server_lem self.old.draws.state server }
    {
        if server.is_up {
            Event::Tick
        } else {
            Event::Boot {
                boot: server.boots + 1,
                isn: self.draw(),
            }
        }
    }

    /// Returns the same as `server_event`, but if the server is up, in one of 64 cases a crash.
    fn risky_event(&mut self, server: ServerNow) -> Event
        requires { server.boots < 2 ^ 32 }
        ensures { record { event = result; state = self.new.draws.state } ≡ risky_lem self.old.draws.state server }
    {
        if !server.is_up {
            return self.server_event(server);
        }
        if self.draw() % 64 == 0 {
            Event::Crash
        } else {
            Event::Tick
        }
    }

    /// Returns a delivery of one of the last 64 packets.
    fn delivery(&mut self, packets: u32) -> Event
        requires { 0 < packets }
        ensures { record { event = result; state = self.new.draws.state } ≡ delivery_lem self.old.draws.state packets }
    {
        let back = self.draw() % packets.min(64);
        Event::Deliver {
            packet: packets - back,
        }
    }

    /// Returns an event in which a client sends text. Its script has `total` bytes, some of which aren't acknowledged.
    fn text_event(&mut self, number: u8, client: &Client, total: u32) -> Event
        requires total { total ≡ length client.now.script }
        requires left { client.now.acknowledged < total }
        ensures { record { event = result; state = self.new.draws.state } ≡ text_lem self.old.draws.state number client.now }
    {
        let sent = client.sent().min(total);
        let again = self.draw() % 2 == 1 || sent == total;
        let from = if again { client.acked() } else { sent };
        Event::Send {
            client: number,
            from,
            len: TEXT.min(total - from),
        }
    }

    /// Returns what advances a client: its SYN, its text or its FIN. If there is nothing to advance, it returns an event of the server.
    fn progress(&mut self, number: u8, client: &Client, total: u32, server: ServerNow) -> Event
        requires total { total ≡ length client.now.script }
        requires boots { server.boots < 2 ^ 32 }
        ensures { record { event = result; state = self.new.draws.state } ≡ progress_lem self.old.draws.state number client.now server }
    {
        match client.phase() {
            Phase::New | Phase::Opening => Event::Begin {
                client: number,
                window: WINDOW,
            },
            Phase::Established | Phase::Ended => {
                if client.acked() < total {
                    self.text_event(number, client, total)
                } else if client.acked() == total {
                    Event::Fin { client: number }
                } else {
                    self.server_event(server)
                }
            }
            Phase::Reset => self.server_event(server),
        }
    }

    /// Returns an acknowledgement by an open client of what it has accepted, or an event of the server if the client isn't open.
    fn acknowledgement(&mut self, number: u8, client: &Client, server: ServerNow) -> Event
        requires { server.boots < 2 ^ 32 }
        ensures { record { event = result; state = self.new.draws.state } ≡ acknowledgement_lem self.old.draws.state number client.now server }
    {
        match client.phase() {
            Phase::Established | Phase::Ended => Event::Ack {
                client: number,
                window: WINDOW,
            },
            _ => self.server_event(server),
        }
    }

    /// Returns an event of a client. Four sides of the die select it: two advance the client, or all four if it isn't open yet; at the others it acknowledges.
    fn client_event(
        &mut self,
        die: u32,
        number: u8,
        client: Option<&Client>,
        server: ServerNow,
    ) -> Event
        requires total { (c : Seen) → option_copied client ≡ Some c → length c.script ≡ 1000 * number }
        requires boots { server.boots < 2 ^ 32 }
        ensures { record { event = result; state = self.new.draws.state } ≡ client_lem die self.old.draws.state number (option_copied client.entry) server }
    {
        let Some(client) = client else {
            return self.server_event(server);
        };
        let opens = matches!(client.phase(), Phase::New | Phase::Opening);
        if die < 11 || opens {
            self.progress(number, client, STEP * u32::from(number), server)
        } else {
            self.acknowledgement(number, client, server)
        }
    }

    /// Draws the next event, in a world with this many packets and clients. Before anything is sent, it is the server's.
    pub fn next_event(
        &mut self,
        world: &World<AnyService>,
        packets: u32,
        clients: u8,
        server: ServerNow,
    ) -> Event
        requires clients { (clients ≡ length world.now.clients.items) × (0 < clients) }
        requires totals { (n : ℕ) (c : Seen) → client_at world.now.clients.items n ≡ Some c → length c.script ≡ 1000 * n }
        requires boots { server.boots < 2 ^ 32 }
        ensures { record { event = result; state = self.new.draws.state } ≡ next_lem self.old.draws.state packets world.now.clients.items server }
    {
        if packets == 0 {
            return self.server_event(server);
        }
        let die = self.draw() % 16;
        let number = 1 + (self.draw() % u32::from(clients)) as u8;
        match die {
            0..=8 => self.delivery(packets),
            9..=12 => self.client_event(die, number, world.client(number), server),
            13 | 14 => self.server_event(server),
            _ => self.risky_event(server),
        }
    }
}
