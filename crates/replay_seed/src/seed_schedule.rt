//! The schedule before its events: its service, its server and its clients.

ghost use Rattle.std.specs.Prelude.{◌≡◌, ◌≤◌, ◌+◌, [], None, length, IfOk};
ghost use Rattle.ft_model.specs.Playable.{IsPlayable};
ghost use Rattle.pseudorandom.specs.Generator.{stepped};
ghost use Rattle.replay_seed.specs.Generated.{client_line as client_lem, client_lines, after_draws, schedule_of};

use crate::dice::STEP;
use ft_io::{Addr, Key, NoMemory};
use ft_model::{ClientLine, ClientLines, Events, Schedule, Script, ServiceKind};
use pseudorandom::Generator;
use std::alloc::Global;
use tcp_rules::Profile;

/// 192.0.2.100, port 7.
const SERVER: Addr = Addr {
    ip: 3_221_226_084,
    port: 7,
};

/// 192.0.2.0: client i has the ith address after this one.
const NETWORK: u32 = 3_221_225_984;

/// The port of every client.
const CLIENT_PORT: u16 = 40_000;

/// Returns client `i` of a schedule, with a drawn initial sequence number.
fn client_line(generator: &mut Generator, i: u8) -> ClientLine
    ensures line { result ≡ client_lem generator.old.state i }
    ensures state { generator.new.state ≡ stepped generator.old.state }
{
    let i = u32::from(i);
    ClientLine {
        key: Key {
            ip: NETWORK + i,
            port: CLIENT_PORT,
        },
        isn: generator.draw(),
        script: Script::Fill { len: STEP * i },
    }
}

/// Returns `count` clients, numbered from 1.
fn clients_for(alloc: Global, generator: &mut Generator, count: u8) -> Result<ClientLines, NoMemory>
    requires { count ≤ 16 }
    ensures lines { IfOk result (λ lines. lines ≡ client_lines generator.old.state count) }
    ensures state { IfOk result (λ _. generator.new.state ≡ after_draws generator.old.state count) }
{
    let mut lines = ClientLines::new(Vec::new(alloc));
    for i in 0..count {
        lines.push(client_line(generator, i + 1))?;
    }
    Ok(lines)
}

/// Returns the schedule with which a generated run starts. It has no events yet: each is drawn in the world after those before it.
pub(crate) fn schedule_for(
    alloc: Global,
    generator: &mut Generator,
    clients: u8,
) -> Result<Schedule, NoMemory>
    requires { clients ≤ 16 }
    ensures schedule { IfOk result (λ schedule. schedule ≡ schedule_of generator.old.state clients []) }
    ensures playable { IfOk result IsPlayable }
    ensures fleeting { IfOk result (λ schedule. schedule.lasting ≡ None) }
    ensures few { IfOk result (λ schedule. length schedule.clients ≤ 16) }
    ensures state { IfOk result (λ _. generator.new.state ≡ after_draws generator.old.state clients) }
{
    Ok(Schedule {
        service: ServiceKind::Echo,
        server: SERVER,
        profile: Profile::Plain,
        twin: false,
        marks: None,
        lasting: None,
        clients: clients_for(alloc, generator, clients)?,
        events: Events::new(Vec::new(alloc)),
    })
}
