//! The effect of a message of this boot on the place of its key.

ghost use Rattle.std.specs.Prelude.{◌≡◌, ◌∷◌, [], ℕ, IfOk, OnOk};
ghost use Rattle.server_trait.specs.Service.{Machine, machine};
ghost use Rattle.seq_arith.specs.Message.Body.{OpenedMsg, StableMsg, ReadsMsg, EndedMsg, FullMsg};
ghost use Rattle.logger_wire.specs.Value.{body_of};
ghost use Rattle.ft_io.specs.declared.Key.{Key as key_type};
ghost use Rattle.tcp_rules.specs.Profiles.{profile_of};
ghost use Rattle.ft_model.specs.Node as law;
ghost use Rattle.ft_model.specs.News.News.{Begins};
ghost use Rattle.ft_model.specs.Node.Place.{Lives};
ghost use Rattle.ft_model.specs.Opening.{point_opened};
ghost use Rattle.ft_model.specs.ServingTurn.{OnReceipt, LivesOn};
ghost use Rattle.plain_world.specs.Served.{IsServedLive, IsServedPlace};
ghost use Rattle.plain_world.specs.NodeTurns.{SendsBy};
ghost use Rattle.plain_world.specs.Values.{place_in, left_in, node_of};
ghost use Rattle.logger_wire.specs.Records.{kept_said, numbers_said};

use crate::incarnation::Incarnation;
use crate::place::{PlainPlace, turn_live};
use crate::refusal::refuse_full;
use ft_io::NoMemory;
use logger_wire::{Body, Kept, Numbers};
use plain_connection::{News, PlainConnection};
use plain_packets::PlainPackets;
use server_trait::Service;
use std::alloc::Global;
use tcp_rules::Timestamping;

/// Creates a connection and takes its first turn. After `NoMemory` the packets may only be dropped.
fn begin<S: Service>(
    alloc: Global,
    who: Incarnation,
    asked: Timestamping,
    numbers: &Numbers,
    sent: &mut PlainPackets,
) -> Result<PlainConnection<S>, NoMemory>
    ensures turn { IfOk result (λ c. (stage : law.Stage) → SendsBy (LivesOn (machine (S.started who.kind) S.after S.greeting) (node_of who stage) Begins
        (point_opened (profile_of who.profile) asked (numbers_said numbers.now)) (Lives c.point ∷ [])) sent.old sent.new) }
    ensures served { IfOk result (λ c. IsServedLive who.kind (machine (S.started who.kind) S.after S.greeting) c) }
{
    let mut connection = PlainConnection::opened(alloc, who.profile, asked, who.kind, numbers)?;
    turn_live(alloc, who, &mut connection, &News::Begins, sent)?;
    Ok(connection)
}

impl<S: Service> PlainPlace<S> {
    /// Takes a message about how much of a live connection is logged. After `NoMemory` the place may only be dropped.
    fn receive_logged(
        &mut self,
        alloc: Global,
        who: Incarnation,
        kept: Kept,
        sent: &mut PlainPackets,
    ) -> Result<(), NoMemory>
        requires { IsServedPlace who.kind (machine (S.started who.kind) S.after S.greeting) self.old }
        ensures stable { OnOk result ((stage : law.Stage) → SendsBy (OnReceipt (machine (S.started who.kind) S.after S.greeting) (node_of who stage)
            (StableMsg (kept_said kept)) (place_in self.old) (place_in self.new ∷ [])) sent.old sent.new) }
        ensures reads { OnOk result ((stage : law.Stage) → SendsBy (OnReceipt (machine (S.started who.kind) S.after S.greeting) (node_of who stage)
            (ReadsMsg (kept_said kept)) (place_in self.old) (place_in self.new ∷ [])) sent.old sent.new) }
        ensures served { OnOk result (IsServedPlace who.kind (machine (S.started who.kind) S.after S.greeting) self.new) }
    {
        match self {
            PlainPlace::Lives(connection) => {
                turn_live(alloc, who, connection, &News::Logged(kept), sent)
            }
            PlainPlace::Opens(_) | PlainPlace::Ended(_) => Ok(()),
        }
    }

    /// Takes an Ended: it ends a live connection.
    fn receive_ended(&mut self)
        ensures turn { (service : Machine S) (node : law.Node) (key : key_type)
            → OnReceipt service node (EndedMsg key) (place_in self.old) (place_in self.new ∷ []) [] }
        ensures served { (kind : ℕ) (service : Machine S) → IsServedPlace kind service self.new }
    {
        if let PlainPlace::Lives(connection) = self {
            let key = connection.point().key();
            *self = PlainPlace::Ended(key);
        }
    }

    /// Takes an Opened. With the client's initial sequence number it makes a pending opening a connection, with the logged numbers; with another it drops
    /// the opening. Returns whether the place remains. After `NoMemory` the place may only be dropped.
    fn receive_opened(
        &mut self,
        alloc: Global,
        who: Incarnation,
        numbers: &Numbers,
        sent: &mut PlainPackets,
    ) -> Result<bool, NoMemory>
        requires { IsServedPlace who.kind (machine (S.started who.kind) S.after S.greeting) self.old }
        ensures turn { IfOk result (λ stays. (stage : law.Stage) → SendsBy (OnReceipt (machine (S.started who.kind) S.after S.greeting) (node_of who stage)
            (OpenedMsg (numbers_said numbers.now)) (place_in self.old) (left_in stays self.new)) sent.old sent.new) }
        ensures served { OnOk result (IsServedPlace who.kind (machine (S.started who.kind) S.after S.greeting) self.new) }
    {
        let PlainPlace::Opens(asked) = self else {
            return Ok(true);
        };
        if numbers.cisn != asked.numbers.cisn {
            return Ok(false);
        }
        let connection = begin(alloc, who, asked.timestamping, numbers, sent)?;
        *self = PlainPlace::Lives(connection);
        Ok(true)
    }

    /// Takes a Full: it drops an opening and refuses its SYN. Returns whether the place remains. After `NoMemory` the place may only be dropped.
    fn receive_full(
        &self,
        alloc: Global,
        who: Incarnation,
        sent: &mut PlainPackets,
    ) -> Result<bool, NoMemory>
        ensures { IfOk result (λ stays. (service : Machine S) (stage : law.Stage) (key : key_type)
            → SendsBy (OnReceipt service (node_of who stage) (FullMsg key) (place_in self.now) (left_in stays self.now)) sent.old sent.new) }
    {
        let PlainPlace::Opens(asked) = self else {
            return Ok(true);
        };
        refuse_full(alloc, who.server, &asked.numbers, sent)?;
        Ok(false)
    }

    /// Takes a message of this boot that names the key. Returns whether the place remains. After `NoMemory` the place may only be dropped.
    pub(crate) fn receive(
        &mut self,
        alloc: Global,
        who: Incarnation,
        body: &Body<'_>,
        sent: &mut PlainPackets,
    ) -> Result<bool, NoMemory>
        requires { IsServedPlace who.kind (machine (S.started who.kind) S.after S.greeting) self.old }
        ensures turn { IfOk result (λ stays. (stage : law.Stage) → SendsBy (OnReceipt (machine (S.started who.kind) S.after S.greeting) (node_of who stage)
            (body_of body.now) (place_in self.old) (left_in stays self.new)) sent.old sent.new) }
        ensures served { OnOk result (IsServedPlace who.kind (machine (S.started who.kind) S.after S.greeting) self.new) }
    {
        match *body {
            Body::Stable(kept) => {
                self.receive_logged(alloc, who, kept, sent)?;
            }
            Body::Reads(kept) => {
                self.receive_logged(alloc, who, kept, sent)?;
            }
            Body::Opened(numbers) => return self.receive_opened(alloc, who, &numbers, sent),
            Body::Ended { .. } => self.receive_ended(),
            Body::Full { .. } => return self.receive_full(alloc, who, sent),
            _ => {}
        }
        Ok(true)
    }
}
