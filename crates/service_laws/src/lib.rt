//! A worked run of the services that come with this library, packet by packet: its trace is legal. Nothing here runs; the function is a theorem.
#![tactic(auto)]

ghost use Rattle.std.specs.Prelude.{◌≡◌, [], ◌∷◌};
ghost use Rattle.std.specs.List.{concat};
ghost use Rattle.sample_servers.specs.AnyService.{any_machine};
ghost use Rattle.ft_model.specs.World.{world_after};
ghost use Rattle.ft_model.specs.Legal.{Legal, start_of};
ghost use Rattle.ft_model.specs.Report.{report};
ghost use Rattle.service_laws.specs.CrashRun;

/// A text and its read are logged, both answers are lost, and the server crashes. The next boot fetches the log, and the client gets its echo: the
/// trace of these thirty events is legal for the services that a schedule names, and its report is that of an independent model.
pub fn crash_run_is_legal()
    ensures legal { Legal any_machine CrashRun.schedule CrashRun.trace }
    ensures served { (world_after (start_of CrashRun.schedule) CrashRun.trace).clients ≡ CrashRun.served ∷ [] }
    ensures reported { report CrashRun.schedule CrashRun.trace ≡ concat CrashRun.report_lines }
{}
