//! The server, while it is up.

ghost use Rattle.std.specs.Prelude.{◌≡◌, ◌≤◌, ◌^◌, OnOk, IsTrue, ◌↔◌, is_some};
ghost use Rattle.ft_model.specs.Lawful.{fence};
ghost use Rattle.ft_model.specs.Legal.{machines};
ghost use Rattle.ft_model.specs.Node.{Node};
ghost use Rattle.plain_world.specs.Values.{input_in, IsReadInput};
ghost use Rattle.plain_world.specs.Turns.{Serves};
ghost use Rattle.plain_world.specs.WorldState.{IsServedUp, opened_of};

use crate::input::Input;
use crate::node::PlainNode;
use ft_io::NoMemory;
use logger_wire::Body;
use plain_packets::PlainPackets;
use server_trait::Service;
use std::alloc::Global;

/// Returns whether an input fences a server of this boot number.
fn fences(boot: u64, input: &Input<'_>) -> bool
    ensures { (node : Node) → node.boot ≡ boot → result ≡ is_some (fence node (input_in input.now)) }
{
    match input {
        Input::Message(msg) => match msg.body {
            Body::Stale { newer } => msg.boot == boot && boot < newer,
            _ => false,
        },
        _ => false,
    }
}

/// Takes the server's turn on an input, if it is up. No server of a legal trace is fenced, so an input that would fence it is ignored. After `NoMemory` the
/// node and the packets may only be dropped.
pub(crate) fn serve<S: Service>(
    node: &mut Option<PlainNode<S>>,
    alloc: Global,
    input: &Input<'_>,
    sent: &mut PlainPackets,
) -> Result<(), NoMemory>
    requires read { IsReadInput input.now }
    requires served { IsServedUp (machines S.started S.after S.greeting) node.old }
    requires few { opened_of node.old ≤ 2 ^ 32 }
    ensures { OnOk result (Serves (machines S.started S.after S.greeting) (input_in input.now) node.old node.new sent.old sent.new) }
{
    let Some(up) = node else {
        return Ok(());
    };
    if fences(up.boot(), input) {
        return Ok(());
    }
    up.turn(alloc, input, sent)
}
