//! Laws of complete inputs and of answers. They are about the definition, and don't repeat it. Each is a function with an empty body, whose contract is the
//! law.

ghost use Rattle.std.specs.Prelude.{◌≡◌, ◌++◌, ◌∷◌, ℕ, List, length};
ghost use Rattle.server_trait.specs.Service.{fold};
ghost use Rattle.sample_servers.specs.Cuts.{joined, NoneEmpty};
ghost use Rattle.web_service.specs.Answer.{answer_of, head_of, status_of, closes, body_of};
ghost use Rattle.web_service.specs.Reader.{at_start, reply_to};
ghost use Rattle.web_service.specs.Web.{web_machine};
ghost use Rattle.web_service.specs.Messages.{replies_in, replies_text, one_closes, HasRoom, message, IsMessage};

use crate::request::{Method, Request};

/// The server writes the replies that are due in its input, in order, however the input is cut, where the answers to each chunk have room. It closes after
/// the first reply that closes.
pub fn replies_are_given_however_the_input_is_cut()
    ensures output { (chunks : List (List ℕ)) → NoneEmpty chunks → HasRoom at_start chunks
        → (fold web_machine chunks).output ≡ replies_text (replies_in at_start (joined chunks)) }
    ensures closed { (chunks : List (List ℕ)) → NoneEmpty chunks → HasRoom at_start chunks
        → (fold web_machine chunks).closed ≡ one_closes (replies_in at_start (joined chunks)) }
{}

/// After a message exactly one reply is due: to the request that its lines spell. Then the next message is read.
pub fn a_message_is_one_request()
    ensures { (first : List ℕ) (fields : List (List ℕ)) (body : List ℕ) (request : Request) (rest : List ℕ) → IsMessage first fields body request
        → replies_in at_start (message first fields body ++ rest) ≡ reply_to request ∷ replies_in at_start rest }
{}

/// `HEAD` gets the answer to `GET` without the body.
pub fn head_is_get_without_the_body()
    ensures { (request : Request) → answer_of (record request { method = Method.Get })
        ≡ answer_of (record request { method = Method.Head }) ++ body_of Method.Get request.page }
{}

/// The body of an answer to `GET` has the length that its head says.
pub fn the_body_has_the_length_that_is_said()
    ensures { (request : Request) → request.method ≡ Method.Get → answer_of request
        ≡ head_of (status_of Method.Get request.page) (length (body_of Method.Get request.page)) (closes request) ++ body_of Method.Get request.page }
{}
