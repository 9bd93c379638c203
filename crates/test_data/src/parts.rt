//! The input of a program with cases: the script of one name, or parts, each of which is the script of a name.

use crate::said::Said;
use anyhow::{Context, Result, bail};
use ft_io::{Source, read_to_limit};
use std::io;
use std::io::Write;
use std::process::ExitCode;

/// The most bytes of the input.
const LIMIT: usize = 16_777_216;

/// The status where the input isn't one of parts, or no script has a name.
const NO_PART: u8 = 2;

/// The scripts of a program.
pub trait Scripts {
    /// Plays the script of a name, and says what it prints. Its status, or `None` where no script has this name.
    fn play(&self, name: &str, text: &[u8], said: &mut Said) -> Result<Option<u8>>;
}

/// What a program with cases is called, and what begins the line of a part in its input, with the line feed before it and the space after it.
#[derive(Clone, Copy)]
pub struct Program {
    pub name: &'static str,
    pub seam: &'static str,
}

impl Program {
    /// Plays the script of this name, whose text is the whole input, or without a name the parts of the input, and prints what they say. The exit status:
    /// that of the script, or 0 after parts, or 2 where a line is before the first part or no script has a name.
    pub fn play<R: AllocGlobal + Print + Eprint, S: Scripts, I: Source>(
        self,
        system: &R,
        scripts: &S,
        name: Option<&str>,
        input: &mut I,
    ) -> Result<ExitCode> {
        let Ok(text) = read_to_limit(system.alloc(), input, LIMIT) else {
            bail!("the input can't be read, or has over {LIMIT} bytes");
        };
        let status = match name {
            Some(name) => self.play_script(system, scripts, name, text.as_slice())?,
            None => self.play_parts(system, scripts, text.as_slice())?,
        };
        Ok(ExitCode::from(status.unwrap_or(NO_PART)))
    }

    /// Plays the parts of a text. `None` where a line is before the first part, or no script has a part's name: it is said which.
    fn play_parts<R: AllocGlobal + Print + Eprint, S: Scripts>(
        self,
        system: &R,
        scripts: &S,
        text: &[u8],
    ) -> Result<Option<u8>> {
        let (program, sign) = (self.name, self.seam.trim_start());
        let mut rest = text.strip_prefix(sign.as_bytes());
        if rest.is_none() && !text.is_empty() {
            eprintln!(system;
                "{program}: the input doesn't begin with the line `{sign}NAME` of a part"
            )?;
            return Ok(None);
        }
        // Each turn takes a part's line out of the text.
        for _turn in 0..text.len() {
            let Some(parts) = rest else { break };
            let (part, behind) = cut(parts, self.seam.as_bytes());
            let (name, script) = cut(part, b"\n");
            let name = str::from_utf8(name.trim_ascii()).unwrap_or("");
            println!(system; "{sign}{name}")?;
            let played = self.play_script(system, scripts, name, script.unwrap_or(b""))?;
            let Some(status) = played else {
                return Ok(None);
            };
            if status != 0 {
                println!(system; "status {status}")?;
            }
            rest = behind;
        }
        Ok(Some(0))
    }

    /// Plays the script of a name, and prints what it says. Its status, or `None` where no script has this name, which is said.
    fn play_script<R: AllocGlobal + Print + Eprint, S: Scripts>(
        self,
        system: &R,
        scripts: &S,
        name: &str,
        text: &[u8],
    ) -> Result<Option<u8>> {
        let mut said = Said::new(system.alloc());
        let status = scripts.play(name, text, &mut said)?;
        if status.is_none() {
            let program = self.name;
            eprintln!(system; "{program}: no script has the name `{name}`")?;
        }
        let Ok(bytes) = said.bytes() else {
            bail!("no memory");
        };
        let mut out = io::writer(system);
        if out.write_all(bytes).is_err() {
            bail!("the output can't be written");
        }
        Ok(status)
    }
}

/// The lines of a script.
pub fn lines_of(text: &[u8]) -> Result<&str> {
    str::from_utf8(text).context("the script isn't UTF-8")
}

/// What stands before a mark, with the line feed that begins the mark, and what stands after it.
pub fn cut<'a>(text: &'a [u8], mark: &[u8]) -> (&'a [u8], Option<&'a [u8]>) {
    for at in 0..text.len() {
        let rest = &text[at..];
        if let Some(behind) = rest.strip_prefix(mark) {
            return (&text[..at + 1], Some(behind));
        }
    }
    (text, None)
}
