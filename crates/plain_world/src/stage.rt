//! The stages of an incarnation: it asks how many entries the log has, fetches them, and serves.

ghost use Rattle.std.specs.Prelude.{◌≡◌, ◌≤◌, ◌+◌, ◌^◌, max, [], IfOk, OnOk};
ghost use Rattle.server_trait.specs.Service.{machine};
ghost use Rattle.logger_wire.specs.Value.{message_of};
ghost use Rattle.ft_model.specs.Lawful.{Fetches, StageTurn, count_reported as reported_lem};
ghost use Rattle.ft_model.specs.Node as law;
ghost use Rattle.plain_world.specs.Restored.{stage_after, IsServedAfter};
ghost use Rattle.plain_world.specs.Served.{IsServedStage};
ghost use Rattle.plain_world.specs.NodeTurns.{SendsBy};
ghost use Rattle.plain_world.specs.Values.{input_in, IsReadInput, node_of, stage_in, opened_at};

use crate::asking::{send_hello, summary_count};
use crate::fetching::{proceed, turn_fetching};
use crate::incarnation::Incarnation;
use crate::input::Input;
use crate::serving::Serving;
use ft_io::NoMemory;
use logger_wire::Msg;
use plain_log::PlainFetching;
use plain_packets::PlainPackets;
use server_trait::Service;
use std::alloc::Global;

/// The stage of an incarnation.
#[derive(Drop)]
pub(crate) enum PlainStage<S: Service> {
    /// Its Hello is unanswered.
    Asking,
    /// It fetches. Of `count` entries these are fetched.
    Fetching { count: u16, fetched: PlainFetching },
    /// It serves.
    Serving(Serving<S>),
}

/// Returns the count that a message reports, if it is a Summary of this boot.
fn count_reported(who: Incarnation, msg: &Msg<'_>) -> Option<u16>
    ensures { (stage : law.Stage) → result ≡ reported_lem (node_of who stage) (message_of msg.now) }
{
    if msg.boot == who.boot {
        summary_count(&msg.body)
    } else {
        None
    }
}

/// Returns the stage of a server that has just received the number of the log's entries. After `NoMemory` the packets may only be dropped.
fn begin_fetching<S: Service>(
    alloc: Global,
    who: Incarnation,
    count: u16,
    sent: &mut PlainPackets,
) -> Result<PlainStage<S>, NoMemory>
    ensures turn { IfOk result (λ after. (stage : law.Stage) → SendsBy (Fetches (machine (S.started who.kind) S.after S.greeting) (node_of who stage) count []
        (stage_in after)) sent.old sent.new) }
    ensures few { IfOk result (λ after. opened_at after ≤ 65535) }
    ensures served { IfOk result (λ after. IsServedStage who.kind (machine (S.started who.kind) S.after S.greeting) after) }
{
    let mut fetched = PlainFetching::new(alloc);
    match proceed(alloc, who, count, &mut fetched, sent)? {
        Some(serving) => Ok(PlainStage::Serving(serving)),
        None => Ok(PlainStage::Fetching { count, fetched }),
    }
}

/// Takes the turn of a server whose Hello is unanswered. Returns the next stage if it is answered now. After `NoMemory` the packets may only be dropped.
fn turn_asking<S: Service>(
    alloc: Global,
    who: Incarnation,
    input: &Input<'_>,
    sent: &mut PlainPackets,
) -> Result<Option<PlainStage<S>>, NoMemory>
    ensures turn { IfOk result (λ after. (stage : law.Stage) → SendsBy (StageTurn (machine (S.started who.kind) S.after S.greeting) (node_of who stage)
        law.Stage.Asking (input_in input.now) (stage_after after law.Stage.Asking)) sent.old sent.new) }
    ensures served { IfOk result (λ after. IsServedAfter who.kind (machine (S.started who.kind) S.after S.greeting) after) }
{
    match input {
        Input::Tick => {
            send_hello(alloc, who.boot, sent)?;
            Ok(None)
        }
        Input::Message(msg) => match count_reported(who, msg) {
            Some(count) => {
                let after = begin_fetching(alloc, who, count, sent)?;
                Ok(Some(after))
            }
            None => Ok(None),
        },
        Input::Packet(_) | Input::Noise => Ok(None),
    }
}

impl<S: Service> PlainStage<S> {
    /// Takes one turn. After `NoMemory` the stage may only be dropped.
    pub(crate) fn turn(
        &mut self,
        alloc: Global,
        who: Incarnation,
        input: &Input<'_>,
        sent: &mut PlainPackets,
    ) -> Result<(), NoMemory>
        requires served { IsServedStage who.kind (machine (S.started who.kind) S.after S.greeting) self.old }
        requires read { IsReadInput input.now }
        requires few { opened_at self.old ≤ 2 ^ 32 }
        ensures turn { OnOk result ((stage : law.Stage) → SendsBy (StageTurn (machine (S.started who.kind) S.after S.greeting) (node_of who stage)
            (stage_in self.old) (input_in input.now) (stage_in self.new)) sent.old sent.new) }
        ensures few { OnOk result (opened_at self.new ≤ max 65535 (opened_at self.old + 1)) }
        ensures served { OnOk result (IsServedStage who.kind (machine (S.started who.kind) S.after S.greeting) self.new) }
    {
        match self {
            PlainStage::Asking => {
                if let Some(after) = turn_asking(alloc, who, input, sent)? {
                    *self = after;
                }
                Ok(())
            }
            PlainStage::Fetching { count, fetched } => {
                if let Some(serving) = turn_fetching(alloc, who, *count, fetched, input, sent)? {
                    *self = PlainStage::Serving(serving);
                }
                Ok(())
            }
            PlainStage::Serving(serving) => serving.turn(alloc, who, input, sent),
        }
    }
}
