//! What a client of the receiver of mail knows of its log. Nothing here runs; the function is a theorem.
#![tactic(auto)]

ghost use Rattle.std.specs.Prelude.{List};
ghost use Rattle.std.specs.List.{AllByRecursion};
ghost use Rattle.ft_model.specs.World.{World, Moment, Joint, world_after};
ghost use Rattle.mail_service.specs.Mail.{mail_machine};
ghost use Rattle.mail_laws.specs.Logged.{HasLoggedReplies};

mod excluded;

/// In each moment of a joint trace, whatever crashes: all that a client has accepted is a front of the greeting and the replies that are due in the bytes of
/// its logged reads, once each. So a message whose reply has come is in the log's entry with its last byte, and with a journal on the disk. A client without
/// an entry has accepted nothing, not even the greeting.
pub fn accepted_messages_are_logged()
    ensures { (start : World) (trace : List Moment) → Joint mail_machine start trace
        → AllByRecursion (HasLoggedReplies (world_after start trace).log) (world_after start trace).clients }
{}
