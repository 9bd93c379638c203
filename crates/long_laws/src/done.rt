//! Done means over: the client of an entry that is done has all that the server wrote, or it has reset the connection, or the server let go of it.

ghost use Rattle.std.specs.Prelude.{◌≡◌, ℕ, List, Some, true, ◌∷◌, filter};
ghost use Rattle.ft_model.specs.Log.{Entry, entry_of};
ghost use Rattle.server_trait.specs.Service.{machine};
ghost use Rattle.ft_model.specs.World.{World, Moment, Joint, world_after};
ghost use Rattle.ft_model.specs.Client.{is_open};
ghost use Rattle.long_laws.specs.LongTrace.{LongMoment, LongJoint, long_after, gone_with};
ghost use Rattle.ft_model.specs.Growth.{logged_lengths};
ghost use Rattle.std.specs.List.{AllByRecursion};
ghost use Rattle.long_laws.specs.Over.{HasAll, IsOverWhenDone, IsOverOrLetGo, WentOver};
ghost use Rattle.long_laws.specs.LongTrace.LongStep.{Recycles};
ghost use Rattle.ft_io.specs.declared.Key.{Key};
ghost use Rattle.ft_io.specs.Key.{key_eq};
ghost use Rattle.ft_model.specs.WorkedRuns.Common.{echo, key};
ghost use Rattle.long_laws.specs.LateRefusal;

use server_trait::Service;

/// Done means over. In a joint trace, the client of an entry that is done has all that the uncrashed server wrote until it closed, or it has sent a RST. A
/// scripted client that has sent a RST has reset its connection. A live one may have refused a wrong acknowledgement of its SYN by it.
pub fn done_means_over<S: Service>()
    ensures { (kind : ℕ) (start : World) (trace : List Moment) → Joint (machine (S.started kind) S.after S.greeting) start trace
        → AllByRecursion (IsOverWhenDone (machine (S.started kind) S.after S.greeting) (world_after start trace)) (world_after start trace).clients }
{}

/// Done means over in a long trace too, unless the server has let go of the client since its key was last recycled. This holds after every moment. And when the
/// log recycles an entry, each client that goes with it had all that the uncrashed server wrote until it closed, over the reads of that entry, or it had sent a
/// RST, or the server had let go of it.
pub fn done_means_over_in_long_traces<S: Service>()
    ensures now { (kind : ℕ) (start : World) (trace : List LongMoment) → LongJoint (machine (S.started kind) S.after S.greeting) start trace
        → AllByRecursion (IsOverOrLetGo (machine (S.started kind) S.after S.greeting) trace (long_after start trace).now) (long_after start trace).now.clients }
    ensures recycled { (kind : ℕ) (start : World) (moment : LongMoment) (earlier : List LongMoment) (key : Key)
        → LongJoint (machine (S.started kind) S.after S.greeting) start (moment ∷ earlier) → moment.step ≡ Recycles key
        → (e : Entry) → entry_of key (long_after start earlier).now.log ≡ Some e
        → AllByRecursion (WentOver (machine (S.started kind) S.after S.greeting) earlier (long_after start earlier).now key)
        (gone_with (logged_lengths key (long_after start earlier).now.log) (filter (λ c. key_eq c.key key) (long_after start earlier).now.clients)) }
{}

/// Why a live client's refusal is an exception, by an example. Its RST comes late, when its number is exactly the next one, and ends the connection: the
/// entry is done, though its client's connection is open and has not ended.
pub fn late_refusals_end_connections()
    ensures joint { Joint echo LateRefusal.start LateRefusal.trace }
    ensures done { entry_of key (world_after LateRefusal.start LateRefusal.trace).log ≡ Some LateRefusal.done_entry }
    ensures not_ended { AllByRecursion (λ c. (is_open c.phase ≡ true) × (HasAll echo (world_after LateRefusal.start LateRefusal.trace).log c → ⊥))
        (world_after LateRefusal.start LateRefusal.trace).clients }
{}
