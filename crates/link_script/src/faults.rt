//! Which calls of a run fail.

use ft_io::NoMemory;
use schedule_text::read_number;
use std::alloc::Global;

/// The numbers of the calls of each kind that fail, from 1.
#[derive(Drop)]
pub struct Faults {
    pub binds: Vec<u32>,
    pub sends: Vec<u32>,
    pub receives: Vec<u32>,
    pub reads: Vec<u32>,
    pub writes: Vec<u32>,
    pub errors: Vec<u32>,
    pub children: Vec<u32>,
}

impl Faults {
    pub fn new(alloc: Global) -> Faults {
        Faults {
            binds: Vec::new(alloc),
            sends: Vec::new(alloc),
            receives: Vec::new(alloc),
            reads: Vec::new(alloc),
            writes: Vec::new(alloc),
            errors: Vec::new(alloc),
            children: Vec::new(alloc),
        }
    }

    /// The list of the calls that a line names.
    fn list(&mut self, call: &str) -> Option<&mut Vec<u32>> {
        match call {
            "bind" => Some(&mut self.binds),
            "send" => Some(&mut self.sends),
            "receive" => Some(&mut self.receives),
            "read" => Some(&mut self.reads),
            "write" => Some(&mut self.writes),
            "error" => Some(&mut self.errors),
            "child" => Some(&mut self.children),
            _ => None,
        }
    }

    /// Adds the fault of a line.
    pub fn add(&mut self, rest: &str) -> Result<(), NoMemory> {
        let (call, number) = rest.split_once(' ').unwrap_or((rest, ""));
        if let Some(numbers) = self.list(call)
            && let Some(number) = read_number(number.as_bytes(), 1, 1_000_000)
        {
            numbers.push(number as u32)?;
        }
        Ok(())
    }
}
