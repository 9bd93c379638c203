//! The receiver of mail as a service: each line has its reply where it ends, and so has each message.

ghost use Rattle.std.specs.Prelude.{◌≡◌, ℕ, ◌^◌, ◌≤◌, List, [], ◌++◌, length, Some, true, IfOk, OnOk};
ghost use Rattle.server_trait.specs.Service.{Served, next_of};
ghost use Rattle.sample_servers.specs.Stream.{each_byte};
ghost use Rattle.mail_service.specs.Mail.{MailState, line_command, longer, line_end, command_byte, message_end, message_byte, read_byte, mail_byte};

use crate::command::{Command, SIZE_LIMIT, command_of};
use crate::phase::{Phase, Text};
use crate::reply::{Answer, Reply};
use ft_io::NoMemory;
use server_trait::{Next, Saved, Service};
use std::alloc::Global;
use std::marker::Model;

/// The greeting (RFC 5321, section 4.2).
const GREETING: &[u8] = b"220 mail.example ESMTP\r\n";

/// The most bytes of a line without its LF.
const LINE_LIMIT: usize = 511;

/// A receiver of mail, as far as it has come with its client.
#[derive(Drop)]
pub struct Mail {
    phase: Phase,
    // The bytes of the unfinished line, as far as a line may be long.
    held: Vec<u8>,
    // Whether it is longer.
    long: bool,
    // Whether its last byte is CR.
    returned: bool,
    // How many messages have been accepted.
    accepted: u32,
}

impl Model for Mail {
    ghost Value = { MailState };

    ghost view = { λ mail. record { phase = mail.phase; held = mail.held.items; long = mail.long; returned = mail.returned; accepted = mail.accepted } };
}

impl Mail {
    // Takes bytes up to the one that closes.
    #[tactic(auto, using(crate::proofs::Bytes::each_at, crate::proofs::Bytes::each_end, std::proofs::Common::append_assoc))]
    fn take_bytes(&mut self, bytes: &[u8], out: &mut Vec<u8>) -> Result<Next, NoMemory>
        ensures state { IfOk result (λ _. self.new ≡ (each_byte mail_byte self.old bytes.now).next) }
        ensures output { IfOk result (λ _. out.new.items ≡ out.old.items ++ (each_byte mail_byte self.old bytes.now).output) }
        ensures closed { IfOk result (λ next. next ≡ next_of (each_byte mail_byte self.old bytes.now).closed) }
    {
        for byte in bytes {
            if self.take_byte(*byte, out)? == Next::Close {
                return Ok(Next::Close);
            }
        }
        Ok(Next::Go)
    }

    // Takes one byte, and writes the reply that is due after it.
    fn take_byte(&mut self, byte: u8, out: &mut Vec<u8>) -> Result<Next, NoMemory>
        ensures state { IfOk result (λ _. self.new ≡ (mail_byte self.old byte).next) }
        ensures output { IfOk result (λ _. out.new.items ≡ out.old.items ++ (mail_byte self.old byte).output) }
        ensures closed { IfOk result (λ next. next ≡ next_of (mail_byte self.old byte).closed) }
    {
        match self.read(byte)? {
            None => Ok(Next::Go),
            Some(reply) => {
                reply.write(out)?;
                Ok(if reply.closes() {
                    Next::Close
                } else {
                    Next::Go
                })
            }
        }
    }

    // Reads one byte, and returns the reply that is due after it, if any.
    fn read(&mut self, byte: u8) -> Result<Option<Reply>, NoMemory>
        ensures next { IfOk result (λ _. self.new ≡ (read_byte self.old byte).next) }
        ensures due { IfOk result (λ due. due ≡ (read_byte self.old byte).due) }
    {
        match self.phase {
            Phase::Message(text) => Ok(self.read_text(text, byte)),
            _ => self.read_line(byte),
        }
    }

    // Reads a byte of a line.
    #[tactic(auto, unfolding(crate::specs::Mail::command_byte))]
    fn read_line(&mut self, byte: u8) -> Result<Option<Reply>, NoMemory>
        ensures next { IfOk result (λ _. self.new ≡ (command_byte self.old byte).next) }
        ensures due { IfOk result (λ due. due ≡ (command_byte self.old byte).due) }
    {
        if self.returned && byte == b'\n' {
            return Ok(Some(self.end_line()));
        }
        self.lengthen(byte)?;
        Ok(None)
    }

    // A byte that only makes the line longer.
    #[tactic(auto, unfolding(crate::specs::Mail::longer))]
    fn lengthen(&mut self, byte: u8) -> Result<(), NoMemory>
        ensures { OnOk result (self.new ≡ longer self.old byte) }
    {
        self.returned = byte == b'\r';
        if self.held.len() >= LINE_LIMIT {
            self.long = true;
            return Ok(());
        }
        self.held.push(byte)?;
        Ok(())
    }

    // The end of a line.
    #[tactic(auto, unfolding(crate::specs::Mail::line_end))]
    fn end_line(&mut self) -> Reply
        ensures next { self.new ≡ (line_end self.old).next }
        ensures due { Some result ≡ (line_end self.old).due }
    {
        let command = line_command(self.long, &self.held);
        let step = self.phase.step(command);
        self.phase = step.next;
        self.held.clear();
        self.long = false;
        self.returned = false;
        Reply::Fixed(step.reply)
    }

    // Reads a byte of a message.
    #[tactic(auto, unfolding(crate::specs::Mail::message_byte))]
    fn read_text(&mut self, text: Text, byte: u8) -> Option<Reply>
        ensures next { self.new ≡ (message_byte self.old text byte).next }
        ensures due { result ≡ (message_byte self.old text byte).due }
    {
        match text.after(byte) {
            Some(more) => {
                self.phase = Phase::Message(more);
                None
            }
            None => Some(self.end_message(text.size)),
        }
    }

    // The end of a message whose text has so many bytes.
    #[tactic(auto, unfolding(crate::specs::Mail::message_end))]
    fn end_message(&mut self, size: u32) -> Reply
        ensures next { self.new ≡ (message_end self.old size).next }
        ensures due { Some result ≡ (message_end self.old size).due }
    {
        self.phase = Phase::Ready;
        if size > SIZE_LIMIT {
            return Reply::Fixed(Answer::TooLarge);
        }
        self.accepted = self.accepted.saturating_add(1);
        Reply::Accepted(self.accepted, size)
    }
}

// The command in a line that CR LF has ended. `held` has the CR, unless the line is too long.
fn line_command(long: bool, held: &[u8]) -> Command
    ensures { result ≡ line_command long held.now }
{
    if long {
        return Command::Wrong(Answer::LongLine);
    }
    command_of(&held[..held.len().saturating_sub(1)])
}

impl Service for Mail {
    ghost use Rattle.std.proofs.Common.{rules};
    ghost use Rattle.mail_service.specs.Mail.{mail_started, mail_greeting, mail_after};
    ghost use Rattle.mail_service.specs.Laws.{length-mail_after-le, short_mail_greeting, bytes-mail};

    ghost started = { λ _. mail_started };

    ghost after = { mail_after };

    ghost greeting = { mail_greeting };

    #[tactic(auto, unfolding(crate::specs::Mail::mail_greeting))]
    fn greeting(&self) -> &[u8] {
        GREETING
    }

    fn fresh(alloc: Global, _kind: u8) -> Mail {
        Mail {
            phase: Phase::Silent,
            held: Vec::new(alloc),
            long: false,
            returned: false,
            accepted: 0,
        }
    }

    fn take(&mut self, chunk: &[u8], out: &mut Vec<u8>) -> Result<Next, NoMemory> {
        if chunk.is_empty() {
            return Ok(Next::Close);
        }
        self.take_bytes(chunk, out)
    }

    ghost closes = { λ _. Prim.search rules };

    ghost greets_shortly = { short_mail_greeting };

    ghost is_short = { length-mail_after-le };

    ghost writes_bytes = { λ _. bytes-mail };
}

/// Its states aren't saved: a restart reads the connection's bytes again.
impl Saved for Mail {
    ghost use Rattle.std.specs.Prelude.{false};
    ghost use Rattle.server_trait.specs.Saved.{no_form, no_state, unsaved_reads_back, unsaved_one_form};
    ghost use Rattle.mail_service.specs.Mail.{mail_machine};

    ghost is_savable = { false };

    ghost form = { no_form };

    ghost state_of = { no_state };

    fn savable() -> bool {
        false
    }

    fn save(&self, _out: &mut Vec<u8>) -> Result<(), NoMemory> {
        Ok(())
    }

    fn load(_alloc: Global, _kind: u8, _bytes: &[u8]) -> Result<Option<Mail>, NoMemory> {
        Ok(None)
    }

    ghost reads_back = { unsaved_reads_back (λ _. mail_machine) };

    ghost one_form = { unsaved_one_form };
}
