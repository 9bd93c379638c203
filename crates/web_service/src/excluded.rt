//! Wrong results that the contracts of this crate exclude. Each function calls another one of the crate, and promises of its result what a wrong body would
//! make false. It is proved from the other's contract alone, so it is no longer proved once that contract lets the wrong body pass.

ghost use Rattle.std.specs.Prelude.{◌≡◌, ◌+◌, ◌≤◌, length, IfOk, OnOk};
ghost use Rattle.server_trait.specs.declared.Next.TheVariants.{Close};
ghost use Rattle.web_service.specs.Answer.{answer_of};
ghost use Rattle.web_service.specs.declared.reader.Stage.TheVariants.{RequestLine};

use crate::answer::send_body;
use crate::reader::{Stage, field_line_end};
use crate::{Method, Page, Request, Web};
use ft_io::NoMemory;
use server_trait::Next;

/// A request without a body is done at the empty line after its fields, and a request line is read next: the contract of `field_line_end`.
#[tactic(auto, unfolding(crate::specs::Reader::field_line_end))]
fn answered_twice(request: Request) -> Stage
    ensures { result ≡ RequestLine }
{
    field_line_end(
        2,
        Request {
            length: None,
            ..request
        },
        b"",
    )
    .stage
}

/// An answer that has room takes up as much of it as it has bytes: the clause `state` of `Web::answer`.
#[tactic(auto, unfolding(crate::specs::Web::answered))]
fn answers_past_the_room(
    web: &mut Web,
    request: Request,
    out: &mut Vec<u8>,
) -> Result<Next, NoMemory>
    requires { length (answer_of request) ≤ web.old.room }
    ensures { IfOk result (λ _. web.new.room + length (answer_of request) ≡ web.old.room) }
{
    web.answer(request, out)
}

/// HEAD is answered without the body: the contract of `send_body`.
fn head_with_a_body(body: &[u8], out: &mut Vec<u8>) -> Result<(), NoMemory>
    ensures { OnOk result (out.new.items ≡ out.old.items) }
{
    send_body(Method::Head, body, out)
}

/// A request to close the connection holds after a 404 too: the clause `closed` of `Web::answer`.
#[tactic(auto, unfolding(crate::specs::Web::answered, crate::specs::Web::refused))]
fn not_found_stays(web: &mut Web, request: Request, out: &mut Vec<u8>) -> Result<Next, NoMemory>
    ensures { IfOk result (λ next. next ≡ Close) }
{
    let request = Request {
        page: Page::Missing,
        close: true,
        ..request
    };
    web.answer(request, out)
}
