//! A live connection as its client knows it.

ghost use Rattle.limits.specs.Limits.{most_units};
ghost use Rattle.std.specs.Prelude.{◌≡◌, ◌≤◌, ℕ};
ghost use Rattle.ft_io.specs.declared.Addr.{Addr as Address};
ghost use Rattle.ft_model.specs.Point.{Point};
ghost use Rattle.lasting_lives.specs.Watches.{ShowsPoint};
ghost use Rattle.lasting_node.specs.Shown.{is_past_syn as is_past_syn_lem};
ghost use Rattle.node_serving.specs.Conn.{IsOursAt};
ghost use Rattle.server_trait.specs.Service.{Machine};
ghost use Rattle.wrapped_conn.specs.Sound.{IsSound};

use ft_io::Key;
use lasting_lives::Outside;
use server_trait::Service;
use tcp_endpoint::StateName;
use wrapped_conn::Conn;

/// Looks at a connection between two turns.
pub(crate) fn outside_of<S: Service>(key: Key, conn: &Conn<S>) -> Outside
    requires { IsSound conn.now }
    ensures shows { (service : Machine S) (server : Address) (boot : ℕ) (p : Point) → p.key ≡ key → IsOursAt service server boot conn.now p
        → ShowsPoint result p }
    ensures small { result.taken ≤ most_units }
{
    let inside = conn.inside();
    let south = conn.south();
    let reported = south.ack_now();
    Outside {
        key,
        cisn: south.cisn(),
        sisn: south.sisn(),
        taken: inside.taken,
        reads: inside.reads,
        una: inside.una,
        sent: inside.sent,
        syn_acked: is_past_syn(conn.endpoint().state().name),
        reset: conn.is_reset(),
        ack: reported.ack,
        window: reported.window,
    }
}

/// Whether the SYN of a connection in this state is acknowledged.
fn is_past_syn(name: StateName) -> bool
    ensures { result ≡ is_past_syn_lem name }
{
    match name {
        StateName::SynReceived => false,
        _ => true,
    }
}
