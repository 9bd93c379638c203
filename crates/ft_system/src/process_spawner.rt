//! Std's processes as a spawner. It records no calls. Contracts know how many children were started, and how many calls failed.

ghost use Rattle.std.specs.Prelude.{◌≡◌, ◌≤◌, None};
ghost use Rattle.ft_system.specs.ProcessSpawner.{fresh_spawner};

use ft_io::{Failed, Spawner};
use std::alloc::Global;
use std::io;
use std::marker::Model;
use std::process::{Child, Command, OpenProcess, Processes, Stdio};

/// Children without input, whose output is discarded. A child without an exit status, such as one that a signal ended, is a fault.
#[derive(Drop)]
pub struct ProcessSpawner<'a, R: Processes> {
    processes: &'a R,
    alloc: Global,
    children: Vec<Child<R::Started>>,
    faults: u64,
}

impl<'a, R: Processes> Model for ProcessSpawner<'a, R> {
    ghost use Rattle.std.specs.Prelude.{vec_len};
    ghost use Rattle.ft_system.specs.ProcessSpawner.{SpawnCounts};

    ghost Value = { SpawnCounts };

    ghost view = { λ s. record { started = vec_len s.children; faults = s.faults } };
}

impl<'a, R: Processes> ProcessSpawner<'a, R> {
    /// Makes a spawner that has started nothing yet. It allocates nothing before its first start.
    pub fn new(processes: &'a R, alloc: Global) -> ProcessSpawner<'a, R>
        ensures { result ≡ fresh_spawner }
    {
        ProcessSpawner {
            processes,
            alloc,
            children: Vec::new(alloc),
            faults: 0,
        }
    }
}

impl<'a, R: Processes> Spawner for ProcessSpawner<'a, R> {
    ghost reported = { λ _. None };

    ghost started = { λ counts. counts.started };

    ghost fault_count = { λ counts. counts.faults };

    fn faults(&self) -> u64 {
        self.faults
    }

    fn start(&mut self, words: &[String]) -> Result<u32, Failed> {
        if let Ok(number) = u32::try_from(self.children.len() + 1)
            && let Ok(child) = started_child(self.processes, self.alloc, words)
            && self.children.push(child).is_ok()
        {
            return Ok(number);
        }
        self.faults = self.faults.saturating_add(1);
        Err(Failed)
    }

    fn wait(&mut self, child: u32) -> Result<i32, Failed> {
        match exit_status(&mut self.children[child as usize - 1]) {
            Some(status) => Ok(status),
            None => {
                self.faults = self.faults.saturating_add(1);
                Err(Failed)
            }
        }
    }
}

fn started_child<R: Processes>(
    processes: &R,
    alloc: Global,
    words: &[String],
) -> io::Result<Child<R::Started>> {
    let Some((program, rest)) = words.split_first() else {
        return Err(io::Error::from(io::ErrorKind::InvalidInput));
    };
    let mut command = Command::new(alloc, program.as_str())?;
    for word in rest {
        command.arg(word.as_str())?;
    }
    command.stdin(Stdio::null());
    command.stdout(Stdio::null());
    command.stderr(Stdio::null());
    command.spawn(processes)
}

/// Returns the status with which the child ended, or `None` where it has none or can't be waited for.
fn exit_status<P: OpenProcess>(child: &mut Child<P>) -> Option<i32> {
    match child.wait() {
        Ok(status) => status.code(),
        Err(_) => None,
    }
}
