//! Reading a complete script.

use crate::line::action;
use crate::script::{Action, Part, Script, Step};
use crate::words::{Why, Words};
use std::alloc::{AllocError, AllocFailed};

/// Why a script isn't read to its end.
#[derive(Clone, Copy)]
pub(crate) enum ScriptEnd {
    NoMemory,
    /// Its last line is refused.
    Refused(Why),
}

impl From<AllocError> for ScriptEnd {
    fn from(_error: AllocError) -> ScriptEnd {
        ScriptEnd::NoMemory
    }
}

impl<T: Drop> From<AllocFailed<T>> for ScriptEnd {
    fn from(_error: AllocFailed<T>) -> ScriptEnd {
        ScriptEnd::NoMemory
    }
}

impl From<Why> for ScriptEnd {
    fn from(why: Why) -> ScriptEnd {
        ScriptEnd::Refused(why)
    }
}

/// The line of the first byte that isn't UTF-8, given how many bytes before it are.
fn line_of(text: &[u8], valid: usize) -> u32 {
    let mut line = 1u32;
    for byte in text.iter().take(valid) {
        if *byte == b'\n' {
            line = line.saturating_add(1);
        }
    }
    line
}

impl<'a> Script<'a> {
    /// The number of the way with this name.
    fn way(&self, name: &str) -> Option<usize> {
        self.parts
            .iter()
            .position(|part| part.is_way && part.name == name)
    }

    /// A way or a case begins.
    fn begin_part(&mut self, name: &'a str, is_way: bool) -> Result<(), ScriptEnd> {
        if is_way && self.way(name).is_some() {
            return Err(ScriptEnd::Refused(Why::Way));
        }
        let start = self.steps.len();
        self.parts.push(Part {
            is_way,
            name,
            start,
        })?;
        if is_way {
            self.ways = self.parts.len();
        }
        Ok(())
    }

    /// The last part begins as a way above it leaves off.
    fn begin(&mut self, name: &str) -> Result<(), ScriptEnd> {
        let way = self.way(name).ok_or(Why::Way)?;
        let last = self.parts.len().saturating_sub(1);
        if way >= last {
            return Err(ScriptEnd::Refused(Why::Way));
        }
        if self.start(last) < self.steps.len() {
            return Err(ScriptEnd::Refused(Why::Place));
        }
        for i in self.start(way)..self.start(way.saturating_add(1)) {
            if i < self.steps.len() {
                let step = self.steps[i];
                self.steps.push(step)?;
            }
        }
        Ok(())
    }

    /// Adds a step to the last part. All steps of a way are about one endpoint.
    fn add_step(&mut self, action: Action<'a>) -> Result<(), ScriptEnd> {
        let is_of_endpoint = matches!(action, Action::Open(_) | Action::Deed(_));
        match self.parts.last() {
            Some(part) if is_of_endpoint || !part.is_way => (),
            _ => return Err(ScriptEnd::Refused(Why::Place)),
        }
        let line = self.lines;
        self.steps.push(Step { line, action })?;
        Ok(())
    }

    fn add(&mut self, line: &'a str) -> Result<(), ScriptEnd> {
        let mut words = Words::new(line.trim());
        let keyword = words.next().unwrap_or("#");
        match keyword {
            "way" => self.begin_part(words.only()?, true),
            "case" => self.begin_part(words.all()?, false),
            "begin" => self.begin(words.only()?),
            _ if keyword.starts_with('#') => Ok(()),
            _ => {
                let action = action(keyword, &mut words, self.ways);
                words.end()?;
                self.add_step(action)
            }
        }
    }

    /// Reads the lines of a text, up to one that is refused.
    pub(crate) fn read(&mut self, text: &'a [u8]) -> Result<(), ScriptEnd> {
        let text = match str::from_utf8(text) {
            Ok(text) => text,
            Err(error) => {
                self.lines = line_of(text, error.valid_up_to());
                return Err(ScriptEnd::Refused(Why::Encoding));
            }
        };
        for line in text.lines() {
            self.lines = self.lines.saturating_add(1);
            self.add(line)?;
        }
        Ok(())
    }
}
