//! Laws of whole sessions. They are about the definition, and don't repeat it. Each is a function with an empty body, whose contract is the law.

ghost use Rattle.std.specs.Prelude.{◌≡◌, ◌<◌, ◌≤◌, ◌++◌, ◌∷◌, ℕ, List, [], length, take, sum, false};
ghost use Rattle.std.specs.List.{list_any};
ghost use Rattle.server_trait.specs.Service.{fold, reference};
ghost use Rattle.sample_servers.specs.Cuts.{joined, NoneEmpty};
ghost use Rattle.mail_service.specs.declared.reply.Reply.TheVariants.{Fixed, Accepted};
ghost use Rattle.mail_service.specs.declared.reply.Answer.TheVariants.{LongLine, TooLarge};
ghost use Rattle.mail_service.specs.declared.phase.Phase.{Phase};
ghost use Rattle.mail_service.specs.declared.phase.Phase.TheVariants.{Ready};
ghost use Rattle.mail_service.specs.Command.{size_limit, command_of};
ghost use Rattle.mail_service.specs.Phase.{step};
ghost use Rattle.mail_service.specs.Mail.{MailState, at_line, mail_started, mail_greeting, next_number, mail_machine};
ghost use Rattle.mail_service.specs.Session.{replies_in, replies_text, one_closes, has_end, IsCommandPhase, line_text, at_message, stuffed, the_end, text_of};

/// The service writes its greeting and the replies that are due in its input, in order, however the input is cut. It closes after the reply to QUIT.
pub fn replies_are_given_however_the_input_is_cut()
    ensures output { (chunks : List (List ℕ)) → NoneEmpty chunks
        → (fold mail_machine chunks).output ≡ mail_greeting mail_started ++ replies_text (replies_in mail_started (joined chunks)) }
    ensures closed { (chunks : List (List ℕ)) → NoneEmpty chunks
        → (fold mail_machine chunks).closed ≡ one_closes (replies_in mail_started (joined chunks)) }
{}

/// After reads of these lengths the service has written a front of its greeting and the replies to the bytes that it has read, and nothing else. So what has
/// been answered has been read.
pub fn what_is_answered_has_been_read()
    ensures { (bytes lengths : List ℕ) → (rest : List ℕ) × ((reference mail_machine bytes lengths).output ++ rest
        ≡ mail_greeting mail_started ++ replies_text (replies_in mail_started (take (sum lengths) bytes))) }
{}

/// Where no message is being received, each line gets one reply: that of its command in this phase. A line that is too long gets one too.
pub fn each_line_has_one_reply()
    ensures short { (phase : Phase) (accepted : ℕ) (line rest : List ℕ) → IsCommandPhase phase → has_end false line ≡ false → length line ≤ 510
        → replies_in (at_line phase accepted) (line_text line ++ rest)
        ≡ Fixed (step phase (command_of line)).reply ∷ replies_in (at_line (step phase (command_of line)).next accepted) rest }
    ensures long { (phase : Phase) (accepted : ℕ) (line rest : List ℕ) → IsCommandPhase phase → has_end false line ≡ false → 510 < length line
        → replies_in (at_line phase accepted) (line_text line ++ rest) ≡ Fixed LongLine ∷ replies_in (at_line phase accepted) rest }
{}

/// Each message gets one reply, at its end, and this says how many bytes its text has. Nothing within the message is a command or an end, whatever its lines
/// are, since the client puts a dot before each that begins with a dot.
pub fn each_message_has_one_reply()
    ensures accepted { (accepted : ℕ) (lines : List (List ℕ)) (rest : List ℕ) → list_any (has_end false) lines ≡ false → length (text_of lines) ≤ size_limit
        → replies_in (at_message accepted) (stuffed lines ++ (the_end ++ rest))
        ≡ Accepted (next_number accepted) (length (text_of lines)) ∷ replies_in (at_line Ready (next_number accepted)) rest }
    ensures too_large { (accepted : ℕ) (lines : List (List ℕ)) (rest : List ℕ) → list_any (has_end false) lines ≡ false → size_limit < length (text_of lines)
        → replies_in (at_message accepted) (stuffed lines ++ (the_end ++ rest)) ≡ Fixed TooLarge ∷ replies_in (at_line Ready accepted) rest }
{}
