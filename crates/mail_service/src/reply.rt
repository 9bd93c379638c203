//! The replies (RFC 5321, section 4.2).

ghost use Rattle.std.specs.Prelude.{◌≡◌, ◌++◌, OnOk};
ghost use Rattle.mail_service.specs.Reply.{answer_text, answer_closes, accepted_text, reply_text, reply_closes};

use ft_io::NoMemory;
use itoa::Buffer;

/// A reply whose text is fixed.
#[derive(Clone, Copy, PartialEq, Eq)]
pub enum Answer {
    /// 250, to HELO.
    Hello,
    /// 250, to EHLO, with the extensions.
    Extended,
    /// 250.
    Done,
    /// 354: the message is to follow.
    Send,
    /// 552: the message is too large.
    TooLarge,
    /// 452: the message has as many recipients as it may have.
    TooMany,
    /// 252, to VRFY.
    Unverified,
    /// 221, to QUIT. The connection closes.
    Bye,
    /// 500: the line is longer than a line may be.
    LongLine,
    /// 500: the line is no command.
    Unknown,
    /// 501: a known command has a wrong argument.
    BadArgument,
    /// 502: a known command isn't implemented.
    NotImplemented,
    /// 503: the command isn't allowed in this phase.
    WrongPhase,
    /// 555: a parameter isn't known.
    BadParameter,
}

/// A reply to a line of the client's, or to the end of its message.
#[derive(Clone, Copy, PartialEq, Eq)]
pub enum Reply {
    /// One whose text is fixed.
    Fixed(Answer),
    /// 250, to a message: its number in this connection, from 1 on, and the bytes of its text.
    Accepted(u32, u32),
}

impl Answer {
    // Whether the connection closes after it.
    #[tactic(auto, unfolding(crate::specs::Reply::answer_closes))]
    fn closes(self) -> bool
        ensures { result ≡ answer_closes self }
    {
        match self {
            Answer::Bye => true,
            _ => false,
        }
    }

    // Appends its text.
    #[tactic(auto, unfolding(crate::specs::Reply::answer_text))]
    fn write(self, out: &mut Vec<u8>) -> Result<(), NoMemory>
        ensures { OnOk result (out.new.items ≡ out.old.items ++ answer_text self) }
    {
        match self {
            Answer::Hello => out.extend_from_slice(b"250 mail.example\r\n")?,
            Answer::Extended => out.extend_from_slice(
                b"250-mail.example\r\n250-PIPELINING\r\n250-8BITMIME\r\n250 SIZE 8000000\r\n",
            )?,
            Answer::Done => out.extend_from_slice(b"250 ok\r\n")?,
            Answer::Send => out.extend_from_slice(b"354 end the message with a dot on a line\r\n")?,
            Answer::TooLarge => out.extend_from_slice(b"552 the message is too large\r\n")?,
            Answer::TooMany => out.extend_from_slice(b"452 too many recipients\r\n")?,
            Answer::Unverified => out.extend_from_slice(b"252 not verified, but accepted\r\n")?,
            Answer::Bye => out.extend_from_slice(b"221 mail.example closes\r\n")?,
            Answer::LongLine => out.extend_from_slice(b"500 the line is too long\r\n")?,
            Answer::Unknown => out.extend_from_slice(b"500 unknown command\r\n")?,
            Answer::BadArgument => out.extend_from_slice(b"501 wrong argument\r\n")?,
            Answer::NotImplemented => out.extend_from_slice(b"502 not implemented\r\n")?,
            Answer::WrongPhase => out.extend_from_slice(b"503 not now\r\n")?,
            Answer::BadParameter => out.extend_from_slice(b"555 unknown parameter\r\n")?,
        }
        Ok(())
    }
}

impl Reply {
    /// Whether the connection closes after it.
    pub(crate) fn closes(self) -> bool
        ensures { result ≡ reply_closes self }
    {
        match self {
            Reply::Fixed(answer) => answer.closes(),
            Reply::Accepted(_, _) => false,
        }
    }

    /// Appends its text.
    pub(crate) fn write(self, out: &mut Vec<u8>) -> Result<(), NoMemory>
        ensures { OnOk result (out.new.items ≡ out.old.items ++ reply_text self) }
    {
        match self {
            Reply::Fixed(answer) => answer.write(out),
            Reply::Accepted(number, size) => write_accepted(number, size, out),
        }
    }
}

// Appends the reply to an accepted message.
#[tactic(auto, using(std::proofs::Common::append_assoc), unfolding(crate::specs::Reply::accepted_text))]
fn write_accepted(number: u32, size: u32, out: &mut Vec<u8>) -> Result<(), NoMemory>
    ensures { OnOk result (out.new.items ≡ out.old.items ++ accepted_text number size) }
{
    let mut digits = Buffer::new();
    out.extend_from_slice(b"250 message ")?;
    out.extend_from_slice(digits.format(number).as_bytes())?;
    out.extend_from_slice(b" accepted, ")?;
    out.extend_from_slice(digits.format(size).as_bytes())?;
    out.extend_from_slice(b" bytes\r\n")?;
    Ok(())
}
