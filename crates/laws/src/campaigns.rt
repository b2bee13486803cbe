//! Laws of the rows of a campaign, and of their totals.
ghost use Rattle.std.specs.Prelude.{◌≡◌, ◌≤◌, ◌+◌, [], false, List};
ghost use Rattle.model.specs.declared.plan.Injection.{Injection};
ghost use Rattle.model.specs.declared.totals.Totals.{Totals};
ghost use Rattle.model.specs.Application.{Application, Limits};
ghost use Rattle.model.specs.Campaign.{Row, totals_of};
ghost use Rattle.model.specs.Run.{Run, IsRun, IsRow};

/// Each row of a campaign ends in one way, so the ends in its totals add up to the number of rows. The number of points that are
/// not reached is at most the number of rows.
pub fn ends_add_up()
    ensures ends { (rows : List Row) (t : Totals) → t ≡ totals_of rows
        → t.pass + t.check + t.misuse + t.ticks + t.steps + t.stuck ≡ t.rows }
    ensures not_reached { (rows : List Row) (t : Totals) → t ≡ totals_of rows → t.not_reached ≤ t.rows }
{}

/// The row of a point that is not reached is the base run.
pub fn unreached_row_is_the_base_run()
    ensures { (app : Application) (limits : Limits) (point : List Injection) (run : Run)
        → IsRow app limits point false run → IsRun app [] limits run }
{}
