//! The delta of each connection that the server has live at the end of a schedule: the client's number of a unit of output less the inner TCP's.

use net_schedule::World;
use schedule_text::Schedule;
use server_trait::Saved;
use std::alloc::Global;
use test_data::Said;

/// Plays a schedule's events in its world, and says a line for each client whose connection is live at the end: its delta.
pub(crate) fn write_deltas<S: Saved>(
    alloc: Global,
    name: &str,
    schedule: &Schedule,
    world: &mut World<S>,
    said: &mut Said,
) {
    for event in schedule.events.as_slice() {
        if world.step(alloc, event).is_err() {
            return said.line("not played");
        }
    }
    write_live_deltas(name, schedule, world, said)
}

/// Says the line of each client whose connection is live.
fn write_live_deltas<S: Saved>(name: &str, schedule: &Schedule, world: &World<S>, said: &mut Said) {
    let Some(node) = world.node() else {
        return;
    };
    for client in schedule.clients.as_slice() {
        if let Some(conn) = node.conn(client.key) {
            let delta = conn.inside().delta;
            write!(said, "{name}: delta {delta}\n");
        }
    }
}
