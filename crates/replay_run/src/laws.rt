//! Laws of every trace that a run plays. Nothing here runs.

ghost use Rattle.std.specs.Prelude.{◌≡◌, List};
ghost use Rattle.ft_model.specs.Readable.{FitsSchedule};
ghost use Rattle.ft_model.specs.declared.event.Event.{Event};
ghost use Rattle.ft_model.specs.declared.schedule.Schedule.{Schedule};
ghost use Rattle.replay_run.specs.Causes.{AllHappen, OneIsRefused, PacketsExceed};
ghost use Rattle.replay_run.specs.Traces.{traces, Traced, IsLegalTraced, report_of};

use ft_model::laws::{legal_traces_are_determined, schedules_have_one_outcome};
use mark_laws::{
    legal_marked_traces_are_determined, marked_reports_determine_their_traces,
    marked_schedules_are_masked, marked_schedules_have_one_outcome, marked_traces_cut_the_bytes,
    marked_traces_fence_no_server, marked_traces_reset_no_logged_connection, marks_are_true,
};
use replay_check::joint_traces_are_safe;
use sample_servers::AnyService;
use twin_laws::{
    legal_traces_are_masked, legal_twin_traces_are_determined, twin_reports_determine_their_traces,
    twin_schedules_have_one_outcome,
};

/// Every legal trace is safe. With one log the trace is joint; with two loggers its reduction to one log is; and with marks the
/// laws of `mark_laws` say of the trace what those of `ft_model` say without them, and that the marks are true.
pub(crate) fn legal_traces_are_safe()
    ensures { (schedule : Schedule) (events : List Event) (trace : List (traces schedule).Turn) → (traces schedule).IsLegal schedule events trace
        → (traces schedule).IsSafe schedule trace }
{
    joint_traces_are_safe();
    legal_traces_are_masked::<AnyService>();
    marked_schedules_are_masked::<AnyService>();
    marked_traces_reset_no_logged_connection::<AnyService>();
    marked_traces_fence_no_server::<AnyService>();
    marked_traces_cut_the_bytes::<AnyService>();
    marks_are_true::<AnyService>();
}

/// Proves that a schedule's events have only one of the three outcomes, with one log, with two loggers and with marks.
pub(crate) fn schedules_end_in_one_way()
    ensures whole_or_refused { (schedule : Schedule) → AllHappen schedule.twin schedule.marks schedule → OneIsRefused schedule.twin schedule.marks schedule
        → ⊥ }
    ensures whole_or_past { (schedule : Schedule) → AllHappen schedule.twin schedule.marks schedule → PacketsExceed schedule.twin schedule.marks schedule → ⊥ }
    ensures refused_or_past { (schedule : Schedule) → OneIsRefused schedule.twin schedule.marks schedule
        → PacketsExceed schedule.twin schedule.marks schedule → ⊥ }
{
    schedules_have_one_outcome::<AnyService>();
    twin_schedules_have_one_outcome::<AnyService>();
    marked_schedules_have_one_outcome::<AnyService>();
}

/// A schedule has at most one legal trace, with one log, with two loggers or with marks.
pub fn schedules_have_one_trace()
    ensures { (schedule : Schedule) (trace other : List (traces schedule).Turn) → (traces schedule).IsLegal schedule schedule.events trace
        → (traces schedule).IsLegal schedule schedule.events other → trace ≡ other }
{
    legal_traces_are_determined::<AnyService>();
    legal_twin_traces_are_determined::<AnyService>();
    legal_marked_traces_are_determined::<AnyService>();
}

/// A report determines its schedule and its trace, with one log, with two loggers or with marks: two legal traces have the same report only where their
/// schedules are the same, and the traces too.
pub fn reports_determine_schedule_and_trace()
    ensures { (traced other : Traced) → FitsSchedule traced.schedule → FitsSchedule other.schedule → IsLegalTraced traced → IsLegalTraced other
        → report_of traced ≡ report_of other → traced ≡ other }
{
    schedules_have_one_trace();
    twin_reports_determine_their_traces::<AnyService>();
    marked_reports_determine_their_traces::<AnyService>();
}
