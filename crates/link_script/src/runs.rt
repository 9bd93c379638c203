//! One run of a process over a link, streams and a spawner in memory.

use crate::children::write_children;
use crate::faults::Faults;
use counter_service::Counter;
use disk::{MemDesk, MemDisk};
use ft_io::{Addr, LinkCall, SpawnCall};
use ft_system::{Arrival, MemLink, MemSink, MemSource, MemSpawner};
use node_link::node;
use node_process::{Process, Services, run as run_process};
use sample_servers::AnyService;
use std::alloc::Global;
use test_data::Said;

/// What is run, and how its calls on the link are printed.
#[derive(Clone, Copy, Debug, PartialEq, Eq)]
pub enum Way {
    /// A program with the four services, each call.
    Node,
    /// A program with the four services, how many calls there were.
    Brief,
    /// A program with the service Counter, each call.
    Own,
    /// `node`, each call.
    Specified,
}

/// What a run meets.
#[derive(Drop)]
pub struct Setting {
    pub arrivals: Vec<Arrival>,
    pub input: Vec<u8>,
    pub statuses: Vec<i32>,
    pub faults: Faults,
    pub way: Way,
}

/// A desk with no network and an empty file without a name: a run here keeps a journal only in a file that it makes.
fn idle_desk(alloc: Global) -> MemDesk {
    let none = Vec::new(alloc);
    let link = MemLink::new(alloc, none, Vec::new(alloc), Vec::new(alloc), false);
    let disk = MemDisk::new(alloc, Vec::new(alloc), Vec::new(alloc), Vec::new(alloc));
    MemDesk::new(
        alloc,
        link,
        disk,
        String::new(alloc),
        Vec::new(alloc),
        false,
    )
}

/// Runs it, and says how that ended, what was written and what was called.
pub fn run(alloc: Global, words: &[String], setting: Setting, said: &mut Said) {
    let Setting {
        arrivals,
        input,
        statuses,
        faults,
        way,
    } = setting;
    let Faults {
        binds,
        sends,
        receives,
        reads,
        writes,
        errors,
        children,
    } = faults;
    let mut process = Process {
        link: MemLink::with_bind_fails(alloc, arrivals, sends, receives, binds),
        input: MemSource::new(input, reads),
        out: MemSink::new(alloc, writes),
        err: MemSink::new(alloc, errors),
        children: MemSpawner::new(alloc, statuses, children),
        desk: idle_desk(alloc),
    };
    let status = match way {
        Way::Specified => node(
            alloc,
            words,
            &mut process.link,
            &mut process.input,
            &mut process.out,
            &mut process.err,
            &mut process.children,
        ),
        Way::Node | Way::Brief => {
            run_process::<AnyService, _, _, _, _, _, _>(alloc, Services::Named, words, &mut process)
        }
        Way::Own => {
            run_process::<Counter, _, _, _, _, _, _>(alloc, Services::Own, words, &mut process)
        }
    };
    let code = status.code;
    write!(said, "status {code}\n");
    said.add(process.out.written());
    said.add(process.err.written());
    write_sent(
        process.link.reported(),
        process.children.reported(),
        way,
        said,
    );
}

/// Says what was called on the link and on the spawner.
fn write_sent(
    calls: Option<&[LinkCall]>,
    children: Option<&[SpawnCall]>,
    way: Way,
    said: &mut Said,
) {
    let (Some(calls), Some(children)) = (calls, children) else {
        return said.line("nothing told");
    };
    match way {
        Way::Brief => write_counts(calls, said),
        Way::Node | Way::Own | Way::Specified => write_calls(calls, said),
    }
    write_children(children, said);
}

/// Says how many calls were receives, and how many sends.
fn write_counts(calls: &[LinkCall], said: &mut Said) {
    let mut receives = 0u32;
    let mut sends = 0u32;
    for call in calls {
        match call {
            LinkCall::Bound(_) => (),
            LinkCall::Handed(..) => sends = sends.saturating_add(1),
            _ => receives = receives.saturating_add(1),
        }
    }
    write!(said, "receives {receives} sends {sends}\n");
}

/// Says the calls on a link, each in a line.
fn write_calls(calls: &[LinkCall], said: &mut Said) {
    for call in calls {
        match call {
            LinkCall::Bound(at) => write_bytes("bound ", *at, b"", said),
            LinkCall::Came(from, bytes) => write_bytes("came ", *from, bytes.as_slice(), said),
            LinkCall::Silent => said.line("silent"),
            LinkCall::Missed => said.line("missed"),
            LinkCall::Handed(to, bytes, is_lost) => {
                let name = if *is_lost { "lost " } else { "sent " };
                write_bytes(name, *to, bytes.as_slice(), said);
            }
        }
    }
}

/// Says a call with an address and bytes, or `-` where there are none.
fn write_bytes(name: &str, at: Addr, bytes: &[u8], said: &mut Said) {
    said.add(name.as_bytes());
    said.address(at);
    said.add(b" ");
    said.hex(bytes);
    said.end_line();
}
