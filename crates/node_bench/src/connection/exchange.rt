//! One connection from its SYN to its end.

ghost use Rattle.std.specs.Prelude.{IfOk, OnOk};
ghost use Rattle.wrapped_conn.specs.Sound.{IsSound};

use crate::connection::Totals;
use crate::connection::client::{Client, Work};
use crate::connection::server::{Backend, Server};
use ft_io::{Key, NoMemory};
use std::alloc::Global;
use tcp_endpoint::Outbox;

/// How many ticks both sides wait at the end.
const END_TICKS: u32 = 4;

/// A client and its server.
#[derive(Drop)]
pub(crate) struct Exchange {
    pub(crate) client: Client,
    pub(crate) server: Server,
}

impl Exchange {
    /// The client's SYN has come.
    pub(crate) fn new(alloc: Global, work: Work, key: Key) -> Result<Exchange, NoMemory>
        ensures { IfOk result (λ exchange. IsSound exchange.server.conn) }
    {
        let client = Client::new(alloc, key, work)?;
        let server = Server::new(alloc, key)?;
        Ok(Exchange { client, server })
    }

    /// Client and server take turns alternately until the client sends no segment; then come the ticks of the end. What both sides did is added to the totals.
    /// `packets` is room for what the client sends, and the log has an entry.
    pub(crate) fn run(
        &mut self,
        alloc: Global,
        packets: &mut Outbox,
        backend: &mut Backend,
        totals: &mut Totals,
    ) -> Result<(), NoMemory>
        requires { IsSound self.old.server.conn }
        ensures { OnOk result (IsSound self.new.server.conn) }
    {
        self.client.flush(packets);
        self.server.start(alloc, &mut self.client, backend)?;
        for _ in 0..u64::MAX {
            self.client.turn();
            self.client.flush(packets);
            if packets.is_empty() {
                break;
            }
            self.serve(alloc, packets, backend)?;
        }
        self.end(alloc, backend)?;
        totals.add(self);
        Ok(())
    }

    /// What the client sent arrives.
    fn serve(
        &mut self,
        alloc: Global,
        packets: &mut Outbox,
        backend: &mut Backend,
    ) -> Result<(), NoMemory>
        requires { IsSound self.old.server.conn }
        ensures { OnOk result (IsSound self.new.server.conn) }
    {
        for i in 0..packets.len() {
            if i >= packets.len() {
                break;
            }
            let packet = packets.packet_mut(i);
            self.server
                .on_packet(alloc, packet, &mut self.client, backend)?;
        }
        Ok(())
    }

    fn end(&mut self, alloc: Global, backend: &mut Backend) -> Result<(), NoMemory>
        requires { IsSound self.old.server.conn }
        ensures { OnOk result (IsSound self.new.server.conn) }
    {
        for _ in 0..END_TICKS {
            self.client.tick();
            self.server.on_tick(alloc, &mut self.client, backend)?;
        }
        Ok(())
    }

    /// Whether all came back and both sides have ended.
    pub(crate) fn is_whole(&self) -> bool {
        self.client.is_whole() && self.server.is_done()
    }
}
