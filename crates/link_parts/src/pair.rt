//! A pair of servers, one after the other, with a logger and a client, each a process. When the first server has ended, the second one
//! starts, and the client continues with it.

ghost use Rattle.std.specs.Prelude.{◌≡◌, ◌≤◌, ◌+◌, [], ◌∷◌, ◌++◌, map, string_bytes, decimal, length, IfOk, IfErr, OnOk, OnErr, IsErrOf};
ghost use Rattle.std.specs.Fmt.{signed_decimal};
ghost use Rattle.std.specs.Io.KnownBytes.{Appends};
ghost use Rattle.ft_io.specs.Faults.{Rose};
ghost use Rattle.ft_io.specs.Sink.{AppendsFront};
ghost use Rattle.ft_io.specs.Reported.{Reports};
ghost use Rattle.link_parts.specs.Pair.{name_of, status_text as text_lem, status_line, address_at, logger_start, server_start, client_start, steps_of};
ghost use Rattle.link_parts.specs.Pair.{IsPair, StepsStop, PairStops};
ghost use Rattle.link_parts.specs.Ends.{UnlessFault};
ghost use Rattle.link_parts.specs.PairParts.{StartDone, IsCounted, FitsStep, FitSteps, WaitDone, WaitStops, StepDone, StepStops};

use crate::role::PairRole;
use crate::status::NodeEnd;
use ft_io::{Failed, NoMemory, Sink, Spawner, Words, write_all};
use itoa::Buffer;
use std::alloc::Global;

/// The role of a child.
#[derive(Clone, Copy, PartialEq, Eq)]
pub(crate) enum ChildName {
    Server,
    Logger,
    Client,
}

impl ChildName {
    /// Returns the word of its role.
    fn word<'a>(self) -> &'a str
        ensures { result.now ≡ name_of self }
    {
        match self {
            ChildName::Server => "server",
            ChildName::Logger => "logger",
            ChildName::Client => "client",
        }
    }

    /// Returns the text that is written before its status.
    fn status_text<'a>(self) -> &'a [u8]
        ensures { result.now ≡ text_lem self }
    {
        match self {
            ChildName::Server => b"server status ",
            ChildName::Logger => b"logger status ",
            ChildName::Client => b"client status ",
        }
    }
}

/// A step of a pair.
#[derive(Drop)]
pub(crate) enum PairStep {
    /// Starts a child by these words: its program's name, and then its arguments.
    Start(Words),
    /// Waits for the Nth child started, from 1, and reports its status under this name.
    Wait(u32, ChildName),
}

/// What stops the steps of a pair early.
#[derive(Clone, Copy, PartialEq, Eq)]
pub(crate) enum PairFault {
    /// A start or a wait failed.
    Child,
    /// A write failed.
    Write,
}

/// Appends two words, as an option and its value.
#[tactic(auto, using(crate::proofs::Pairing::two_more))]
fn push_two(alloc: Global, words: &mut Vec<String>, name: &str, value: &str) -> Result<(), NoMemory>
    ensures { OnOk result (map string_bytes words.new.items ≡ map string_bytes words.old.items ++ (name.now ∷ value.now ∷ [])) }
{
    let name = String::from_str(alloc, name)?;
    let value = String::from_str(alloc, value)?;
    words.push(name)?;
    words.push(value)?;
    Ok(())
}

/// Appends an option whose value is a number.
fn push_number(alloc: Global, words: &mut Vec<String>, name: &str, n: u32) -> Result<(), NoMemory>
    ensures { OnOk result (map string_bytes words.new.items ≡ map string_bytes words.old.items ++ (name.now ∷ decimal n ∷ [])) }
{
    let mut number = Buffer::new();
    push_two(alloc, words, name, number.format(n))
}

/// Appends an option whose value is an address: 127.0.0.1 with this port.
fn push_address(
    alloc: Global,
    words: &mut Vec<String>,
    name: &str,
    port: u16,
) -> Result<(), NoMemory>
    ensures { OnOk result (map string_bytes words.new.items ≡ map string_bytes words.old.items ++ (name.now ∷ address_at port ∷ [])) }
{
    let mut number = Buffer::new();
    let mut address = String::from_str(alloc, "127.0.0.1:")?;
    address.push_str(number.format(port))?;
    push_two(alloc, words, name, address.as_str())
}

/// The words that start the logger.
fn logger_words(alloc: Global, role: &PairRole) -> Result<Words, NoMemory>
    requires { role.now.base ≤ 65533 }
    ensures { IfOk result (λ words. words ≡ logger_start role.now) }
{
    let mut words = Vec::new(alloc);
    push_two(
        alloc,
        &mut words,
        role.program.as_str(),
        ChildName::Logger.word(),
    )?;
    push_address(alloc, &mut words, "--local", role.base + 1)?;
    push_number(alloc, &mut words, "--turns", role.turns)?;
    Words::copy(alloc, &words)
}

/// The words that start a server.
fn server_words(
    alloc: Global,
    role: &PairRole,
    boot: u32,
    isn: u32,
    turns: u32,
) -> Result<Words, NoMemory>
    requires { role.now.base ≤ 65533 }
    ensures { IfOk result (λ words. words ≡ server_start role.now boot isn turns) }
{
    let mut words = Vec::new(alloc);
    push_two(
        alloc,
        &mut words,
        role.program.as_str(),
        ChildName::Server.word(),
    )?;
    push_address(alloc, &mut words, "--local", role.base)?;
    push_address(alloc, &mut words, "--logger", role.base + 1)?;
    push_two(alloc, &mut words, "--service", "echo")?;
    push_number(alloc, &mut words, "--boot", boot)?;
    push_number(alloc, &mut words, "--isn", isn)?;
    push_number(alloc, &mut words, "--turns", turns)?;
    Words::copy(alloc, &words)
}

/// The words that start the client.
fn client_words(alloc: Global, role: &PairRole) -> Result<Words, NoMemory>
    requires { role.now.base ≤ 65533 }
    ensures { IfOk result (λ words. words ≡ client_start role.now) }
{
    let mut words = Vec::new(alloc);
    push_two(
        alloc,
        &mut words,
        role.program.as_str(),
        ChildName::Client.word(),
    )?;
    push_address(alloc, &mut words, "--local", role.base + 2)?;
    push_address(alloc, &mut words, "--server", role.base)?;
    push_number(alloc, &mut words, "--isn", 1_000)?;
    push_number(alloc, &mut words, "--turns", role.turns)?;
    push_two(alloc, &mut words, "--script", "fill:5000")?;
    Words::copy(alloc, &words)
}

/// All steps of a pair, in order.
pub(crate) fn steps(alloc: Global, role: &PairRole) -> Result<[PairStep; 8], NoMemory>
    requires { role.now.base ≤ 65533 }
    ensures { IfOk result (λ steps. steps ≡ steps_of role.now) }
{
    let logger = logger_words(alloc, role)?;
    let first = server_words(alloc, role, 1, 5_000, role.first)?;
    let client = client_words(alloc, role)?;
    let second = server_words(alloc, role, 2, 900_000, role.second)?;
    Ok([
        PairStep::Start(logger),
        PairStep::Start(first),
        PairStep::Start(client),
        PairStep::Wait(2, ChildName::Server),
        PairStep::Start(second),
        PairStep::Wait(3, ChildName::Client),
        PairStep::Wait(4, ChildName::Server),
        PairStep::Wait(1, ChildName::Logger),
    ])
}

/// Writes a number.
fn write_number<O: Sink>(out: &mut O, n: i32) -> Result<(), Failed>
    ensures whole { OnOk result (Appends (O.taken out.old) (O.taken out.new) (signed_decimal n)) }
    ensures front { OnErr result (AppendsFront (O.taken out.old) (O.taken out.new) (signed_decimal n)) }
    ensures cause { OnErr result (Rose (O.fault_count out.old) (O.fault_count out.new)) }
    ensures never_falls { O.fault_count out.old ≤ O.fault_count out.new }
    ensures no_fault { OnOk result (O.fault_count out.new ≡ O.fault_count out.old) }
{
    let mut number = Buffer::new();
    write_all(out, number.format(n).as_bytes())
}

/// Writes the line of a child's status.
fn write_status<O: Sink>(out: &mut O, name: ChildName, status: i32) -> Result<(), Failed>
    ensures whole { OnOk result (Appends (O.taken out.old) (O.taken out.new) (status_line name status)) }
    ensures front { OnErr result (AppendsFront (O.taken out.old) (O.taken out.new) (status_line name status)) }
    ensures cause { OnErr result (Rose (O.fault_count out.old) (O.fault_count out.new)) }
    ensures never_falls { O.fault_count out.old ≤ O.fault_count out.new }
    ensures no_fault { OnOk result (O.fault_count out.new ≡ O.fault_count out.old) }
{
    write_all(out, name.status_text())?;
    write_number(out, status)?;
    write_all(out, b"\n")
}

/// The children so far: how many were started, and the number of the last one.
#[derive(Clone, Copy)]
struct Children {
    count: u32,
    last: u32,
}

/// Starts a child.
fn start<P: Spawner>(words: &Words, children: &mut Children, kids: &mut P) -> Result<(), PairFault>
    requires { children.old.count ≤ 8 }
    ensures done { OnOk result (StartDone words.now children.old children.new (P.started kids.old) (P.started kids.new) (P.reported kids.old)
        (P.reported kids.new)) }
    ensures stops { IfErr result (λ end. (end ≡ PairFault.Child) × Reports (P.reported kids.old) (P.reported kids.new) []) }
    ensures cause { OnErr result (Rose (P.fault_count kids.old) (P.fault_count kids.new)) }
    ensures never_falls { P.fault_count kids.old ≤ P.fault_count kids.new }
    ensures no_fault { OnOk result (P.fault_count kids.new ≡ P.fault_count kids.old) }
{
    match kids.start(words.as_slice()) {
        Err(Failed) => Err(PairFault::Child),
        Ok(number) => {
            children.last = number;
            children.count += 1;
            Ok(())
        }
    }
}

/// Waits for a child, and reports its status.
fn wait<P: Spawner, O: Sink>(
    number: u32,
    name: ChildName,
    kids: &mut P,
    out: &mut O,
) -> Result<(), PairFault>
    requires from_one { 1 ≤ number }
    requires started { number ≤ P.started kids.old }
    ensures same_children { P.started kids.new ≡ P.started kids.old }
    ensures done { OnOk result (WaitDone number name (P.reported kids.old) (P.reported kids.new) (Appends (O.taken out.old) (O.taken out.new))) }
    ensures stops { IfErr result (WaitStops number name (P.reported kids.old) (P.reported kids.new) (O.taken out.old) (O.taken out.new)) }
    ensures child_cause { IsErrOf result PairFault.Child → Rose (P.fault_count kids.old) (P.fault_count kids.new) }
    ensures write_cause { IsErrOf result PairFault.Write → Rose (O.fault_count out.old) (O.fault_count out.new) }
    ensures child_faults { P.fault_count kids.old ≤ P.fault_count kids.new }
    ensures write_faults { O.fault_count out.old ≤ O.fault_count out.new }
    ensures no_child_fault { OnOk result (P.fault_count kids.new ≡ P.fault_count kids.old) }
    ensures no_write_fault { OnOk result (O.fault_count out.new ≡ O.fault_count out.old) }
{
    match kids.wait(number) {
        Err(Failed) => Err(PairFault::Child),
        Ok(status) => match write_status(out, name, status) {
            Err(Failed) => Err(PairFault::Write),
            Ok(()) => Ok(()),
        },
    }
}

/// Takes one step. If it is a wait, its child must have been started.
fn take_step<P: Spawner, O: Sink>(
    step: &PairStep,
    children: &mut Children,
    kids: &mut P,
    out: &mut O,
) -> Result<(), PairFault>
    requires counted { IsCounted children.old (P.started kids.old) }
    requires fits { FitsStep children.old.count step.now }
    requires few { children.old.count ≤ 8 }
    ensures done { OnOk result (StepDone step.now children.old children.new (P.started kids.old) (P.started kids.new) (P.reported kids.old)
        (P.reported kids.new)
        (Appends (O.taken out.old) (O.taken out.new))) }
    ensures stops { IfErr result (StepStops step.now children.old (P.started kids.old) (P.reported kids.old) (P.reported kids.new)
        (O.taken out.old) (O.taken out.new)) }
    ensures child_cause { IsErrOf result PairFault.Child → Rose (P.fault_count kids.old) (P.fault_count kids.new) }
    ensures write_cause { IsErrOf result PairFault.Write → Rose (O.fault_count out.old) (O.fault_count out.new) }
    ensures child_faults { P.fault_count kids.old ≤ P.fault_count kids.new }
    ensures write_faults { O.fault_count out.old ≤ O.fault_count out.new }
    ensures no_child_fault { OnOk result (P.fault_count kids.new ≡ P.fault_count kids.old) }
    ensures no_write_fault { OnOk result (O.fault_count out.new ≡ O.fault_count out.old) }
{
    match step {
        PairStep::Start(words) => start(words, children, kids),
        PairStep::Wait(child, name) => wait(
            children.last - (children.count - *child),
            *name,
            kids,
            out,
        ),
    }
}

/// Takes the steps of a pair in order, until all are taken or one fails.
fn take_steps<P: Spawner, O: Sink>(
    steps: &[PairStep],
    kids: &mut P,
    out: &mut O,
) -> Result<(), PairFault>
    requires fit { FitSteps 0 steps.now }
    requires few { length steps.now ≤ 8 }
    ensures done { OnOk result (IsPair steps.now (P.started kids.old) (P.reported kids.old) (P.reported kids.new)
        (Appends (O.taken out.old) (O.taken out.new))) }
    ensures stops { IfErr result (StepsStop steps.now (P.started kids.old) (P.reported kids.old) (P.reported kids.new) (O.taken out.old) (O.taken out.new)) }
    ensures child_cause { IsErrOf result PairFault.Child → Rose (P.fault_count kids.old) (P.fault_count kids.new) }
    ensures write_cause { IsErrOf result PairFault.Write → Rose (O.fault_count out.old) (O.fault_count out.new) }
    ensures no_child_fault { OnOk result (P.fault_count kids.new ≡ P.fault_count kids.old) }
    ensures no_write_fault { OnOk result (O.fault_count out.new ≡ O.fault_count out.old) }
{
    let mut children = Children { count: 0, last: 0 };
    for step in steps {
        take_step(step, &mut children, kids, out)?;
    }
    Ok(())
}

/// Runs a pair: starts its children and waits for them, in the order of its steps, and reports the status of each. After a fault it waits for no further child.
pub fn run_pair<P: Spawner, O: Sink>(
    alloc: Global,
    role: &PairRole,
    kids: &mut P,
    out: &mut O,
) -> Result<(), NodeEnd>
    requires { role.now.base ≤ 65533 }
    ensures done { OnOk result (IsPair (steps_of role.now) (P.started kids.old) (P.reported kids.old) (P.reported kids.new)
        (Appends (O.taken out.old) (O.taken out.new))) }
    ensures stops { IfErr result (PairStops role.now (P.started kids.old) (P.reported kids.old) (P.reported kids.new) (O.taken out.old) (O.taken out.new)) }
    ensures child_cause { IsErrOf result NodeEnd.ChildFault → Rose (P.fault_count kids.old) (P.fault_count kids.new) }
    ensures write_cause { IsErrOf result NodeEnd.WriteFault → Rose (O.fault_count out.old) (O.fault_count out.new) }
    ensures no_child_fault { UnlessFault result (P.fault_count kids.new ≡ P.fault_count kids.old) }
    ensures no_write_fault { UnlessFault result (O.fault_count out.new ≡ O.fault_count out.old) }
{
    let steps = steps(alloc, role)?;
    match take_steps(&steps, kids, out) {
        Ok(()) => Ok(()),
        Err(PairFault::Child) => Err(NodeEnd::ChildFault),
        Err(PairFault::Write) => Err(NodeEnd::WriteFault),
    }
}
