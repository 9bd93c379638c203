//! Laws of packets as bytes. Nothing here runs; each function is a theorem.

ghost use Rattle.std.specs.Prelude.{◌≡◌, ℕ, List};
ghost use Rattle.std.specs.List.{AllByRecursion};
ghost use Rattle.server_trait.specs.Service.{machine};
ghost use Rattle.ft_model.specs.Network.{Packet};
ghost use Rattle.seq_arith.specs.declared.kinds.Grammar.{Grammar};
ghost use Rattle.tcp_rules.specs.Profile.{grammar_of};
ghost use Rattle.ft_model.specs.Wire.{wire_by, HasWireBy};
ghost use Rattle.ft_model.specs.World.{World, Moment, Joint, world_after};
ghost use Rattle.ft_model.specs.Image.{wires_of, HasWires};
ghost use Rattle.ft_model.specs.Legal.{Legal, machines, start_of};
ghost use Rattle.ft_model.specs.Report.{turns_of};
ghost use Rattle.ft_model.specs.declared.schedule.Schedule.{Schedule};

use server_trait::Service;

/// A wire determines its packet: no two packets have the same one. So events and wires determine the turns of a trace. The premise: all packets have wires.
pub fn wires_determine_packets()
    ensures packet { (grammar : Grammar) (p q : Packet) → HasWireBy grammar p → HasWireBy grammar q → wire_by grammar p ≡ wire_by grammar q → p ≡ q }
    ensures turns { (grammar : Grammar) (trace also : List Moment) → AllByRecursion (HasWires grammar) trace → AllByRecursion (HasWires grammar) also
        → wires_of grammar trace ≡ wires_of grammar also → turns_of trace ≡ turns_of also }
{}

/// Every packet of a joint trace has a wire in the profile's grammar: each of its numbers fits its field and is in its range, and what it carries is bytes.
pub fn packets_have_wires<S: Service>()
    ensures sent { (kind : ℕ) (start : World) (trace : List Moment) → Joint (machine (S.started kind) S.after S.greeting) start trace
        → AllByRecursion (HasWires (grammar_of start.profile)) trace }
    ensures all { (kind : ℕ) (start : World) (trace : List Moment) → Joint (machine (S.started kind) S.after S.greeting) start trace
        → AllByRecursion (HasWireBy (grammar_of start.profile)) (world_after start trace).packets }
{}

/// The events and the wires of a legal trace determine it: two legal traces of a schedule, or of two with the same service and start, are equal if these are.
pub fn wires_determine_traces<S: Service>()
    ensures { (grammar : Grammar) (schedule other : Schedule) (trace also : List Moment) → schedule.service ≡ other.service → start_of schedule ≡ start_of other
        → Legal (machines S.started S.after S.greeting) schedule trace → Legal (machines S.started S.after S.greeting) other also
        → wires_of grammar trace ≡ wires_of grammar also → trace ≡ also }
{}
