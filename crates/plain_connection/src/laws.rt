//! The plain point's own definitions in terms of the model's.

ghost use Rattle.std.specs.Prelude.{◌≡◌, ℕ};
ghost use Rattle.server_trait.specs.Service.{machine};
ghost use Rattle.ft_model.specs.News.{News};
ghost use Rattle.ft_model.specs.Point.{Point, made, released};
ghost use Rattle.ft_model.specs.Reads.{may_read};
ghost use Rattle.ft_model.specs.Timer.{is_tick, must_run, interval_after, rest_after};
ghost use Rattle.plain_point.specs.Turn.{may_read_at, timer_of, interval_since, rest_since};

use server_trait::Service;

/// The timer after a turn, and the test for one more read, are the model's.
pub fn plain_turns_are_the_models<S: Service>()
    ensures interval { (news : News) (before after : Point) → interval_after news before after ≡ interval_since (is_tick news) (timer_of before) after }
    ensures rest { (kind : ℕ) (news : News) (before after : Point) → rest_after (machine (S.started kind) S.after S.greeting) news before after
        ≡ rest_since (must_run (machine (S.started kind) S.after S.greeting) after) (is_tick news) (timer_of before) after }
    ensures reads { (kind : ℕ) (p : Point) → may_read (machine (S.started kind) S.after S.greeting) p
        ≡ may_read_at (made (machine (S.started kind) S.after S.greeting) p) (released (machine (S.started kind) S.after S.greeting) p) p }
{}
