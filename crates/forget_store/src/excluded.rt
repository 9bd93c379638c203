//! Wrong results that the contracts of this crate exclude. Each function calls another one of the crate, and promises of its result what a wrong body would
//! make false. It is proved from the other's contract alone, so it is no longer proved once that contract lets the wrong body pass.

ghost use Rattle.std.specs.Prelude.{◌≡◌, ◌<◌, ◌==◌, ◌&&◌, false, map, Some, None};
ghost use Rattle.ft_model.specs.Keys.{AreDistinct};
ghost use Rattle.ft_model.specs.Log.{Entry, entry_of};

use crate::forgetting::take_forget;
use crate::reply::Reply;
use forget_wire::{ForgetBody, ForgetMsg, Named};
use logger_store::LogStore;

/// An entry that isn't done stays, and a Forget about it gets no answer: the contract of `take_forget`.
fn recycles_what_is_not_done(log: &mut LogStore, boot: u64, named: Named) -> Option<Reply>
    requires own { boot ≡ log.old.boot }
    requires apart { AreDistinct (map (λ e. e.key) log.old.entries) }
    requires entry { (e : Entry) × (entry_of named.key log.old ≡ Some e) × (e.cisn ≡ named.cisn) × (e.sisn ≡ named.sisn) × (e.done ≡ false) }
    ensures log { log.new ≡ log.old }
    ensures answer { result ≡ None }
{
    let body = ForgetBody::Forget(named);
    take_forget(log, &ForgetMsg { boot, body })
}

/// A Forget of an older boot changes nothing: the clause `next` of `take_forget`.
fn heeds_an_older_boot(log: &mut LogStore, boot: u64, named: Named) -> Option<Reply>
    requires { boot < log.old.boot }
    ensures { log.new ≡ log.old }
{
    let body = ForgetBody::Forget(named);
    take_forget(log, &ForgetMsg { boot, body })
}

/// A Forget with other numbers than the entry's changes nothing: the clause `next` of `take_forget`.
fn recycles_by_its_key_alone(log: &mut LogStore, boot: u64, named: Named) -> Option<Reply>
    requires apart { AreDistinct (map (λ e. e.key) log.old.entries) }
    requires entry { (e : Entry) × (entry_of named.key log.old ≡ Some e) × ((e.cisn == named.cisn && e.sisn == named.sisn) ≡ false) }
    ensures { log.new ≡ log.old }
{
    let body = ForgetBody::Forget(named);
    take_forget(log, &ForgetMsg { boot, body })
}
