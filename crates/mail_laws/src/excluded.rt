//! A wrong result that the law of this crate excludes. The function promises what a wrong body would make false. It is proved from the law alone, so it is no
//! longer proved once the law lets the wrong body pass.

ghost use Rattle.std.specs.Prelude.{List};
ghost use Rattle.std.specs.List.{AllByRecursion};
ghost use Rattle.ft_model.specs.World.{World, Moment, Joint, world_after};
ghost use Rattle.mail_service.specs.Mail.{mail_machine};
ghost use Rattle.mail_laws.specs.Logged.{HasOnlyTheGreeting};

use crate::accepted_messages_are_logged;

/// No reply leaves before the read of what it answers is logged: the law `accepted_messages_are_logged`.
fn replies_before_the_read_is_logged()
    ensures { (start : World) (trace : List Moment) → Joint mail_machine start trace
        → AllByRecursion (HasOnlyTheGreeting (world_after start trace).log) (world_after start trace).clients }
{
    accepted_messages_are_logged();
}
