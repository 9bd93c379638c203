//! Wrong results that the contracts of this crate exclude. Each function calls another one of the crate, and promises of its result what a wrong body would
//! make false. It is proved from the other's contract alone, so it is no longer proved once that contract lets the wrong body pass.

ghost use Rattle.std.specs.Prelude.{◌≡◌, [], false, None, Some};
ghost use Rattle.tcp_rules.specs.declared.timestamping.Timestamping.TheVariants.{Echoes};
ghost use Rattle.tcp_rules.specs.Profile.{grammar_of, plain};

use crate::{Profile, Timestamping, text_between};
use limits::SEGMENT;
use seq_arith::{Grammar, Timestamps};

/// Nothing of a text is between an offset and itself: the contract of `text_between`.
#[tactic(auto, unfolding(crate::specs::Arrival::text_between))]
fn text_past_the_right_edge_is_kept(text: &[u8]) -> &[u8]
    ensures { result.now ≡ [] }
{
    text_between(text, 0, 0, 0)
}

/// The timer of the plain profile measures nothing: the contract of `Profile::measures`.
fn the_plain_profile_measures() -> bool
    ensures { result ≡ false }
{
    Profile::Plain.measures()
}

/// No ACK of the plain profile waits: the contract of `Profile::delays`.
fn the_plain_profile_delays() -> bool
    ensures { result ≡ false }
{
    Profile::Plain.delays()
}

/// The log answers every Data of the plain profile: the contract of `Profile::batches`.
fn the_plain_profile_batches() -> bool
    ensures { result ≡ false }
{
    Profile::Plain.batches()
}

/// Messages of the plain profile have version 1: the contract of `Profile::grammar`.
fn the_plain_profile_writes_wide_messages() -> Grammar
    ensures { result ≡ grammar_of plain }
{
    Profile::Plain.grammar()
}

/// No segment of the plain profile carries timestamps: the contract of `Profile::timestamps`.
fn the_plain_profile_sends_timestamps() -> bool
    ensures { result ≡ false }
{
    Profile::Plain.timestamps()
}

/// The value of a segment past the last acknowledgement isn't echoed: the contract of `Timestamping::after`.
fn an_untimely_value_is_echoed() -> Timestamping
    ensures { result ≡ Echoes 5 }
{
    Timestamping::Echoes(5).after(false, Some(Timestamps { value: 7, echo: 1 }))
}

/// No value is echoed after a restart until a segment brings one: the contract of `Timestamping::resumed`.
fn a_value_is_echoed_over_a_restart() -> Option<Timestamps>
    ensures { result ≡ None }
{
    Timestamping::resumed(true, 1000).sent()
}

/// A connection whose segments leave no room for timestamps gets none after a restart: the contract of `Timestamping::fitting`.
fn a_segment_exceeds_the_size_by_its_timestamps() -> Option<Timestamps>
    ensures { result ≡ None }
{
    Timestamping::Awaited
        .fitting(SEGMENT)
        .after(true, Some(Timestamps { value: 7, echo: 1 }))
        .sent()
}

/// TSval is always 1: the contract of `Timestamping::sent`.
fn the_clock_runs() -> Option<Timestamps>
    ensures { result ≡ Some (record { value = 1; echo = 5 }) }
{
    Timestamping::Echoes(5).sent()
}
