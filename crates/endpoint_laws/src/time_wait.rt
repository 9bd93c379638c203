//! How long a connection stays in TIME-WAIT (RFC 9293, 3.6.1, 3.10.7.4 and 3.10.8).

ghost use Rattle.std.specs.Prelude.{◌≡◌, true, false, List};
ghost use Rattle.ft_model.specs.News.{News};
ghost use Rattle.tcp_endpoint.specs.States.{is_time_wait, has_begun};
ghost use Rattle.tcp_endpoint.specs.Tcb.{Tcb};
ghost use Rattle.endpoint_laws.specs.Turn.{Call, Events, IsBetweenTurns, before_flush, turned};
ghost use Rattle.endpoint_laws.specs.ConnectionEnd.{IsNamedRightly};
ghost use Rattle.endpoint_laws.specs.TimeWait.{WaitsOut};

/// From the turn in which it enters TIME-WAIT an endpoint stays there until the fourth tick, counted again from each turn in which the peer repeats its FIN.
/// Then it is CLOSED. This holds whatever else arrives, except a RST at exactly the next number, and whatever the user does.
pub fn time_wait_lasts_four_ticks()
    ensures { (news : News) (calls : List Call) (turns : List Events) (e : Tcb) → has_begun e.name ≡ true → IsBetweenTurns e → IsNamedRightly e
        → is_time_wait e.name ≡ false → is_time_wait (before_flush news calls e).name ≡ true → WaitsOut 0 (turned news calls e) turns }
{}
