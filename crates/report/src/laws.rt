//! Laws of the definitions: each is the contract of a function that does nothing.
ghost use Rattle.std.specs.Prelude.{◌≡◌, ◌<◌, ◌++◌, ℕ, List, codes, length, map, true, false, []};
ghost use Rattle.std.specs.List.{flat_map};
ghost use Rattle.report.specs.Examples.{delay_one, delay_one_run, two_unlocks, two_unlocks_row, two_unlocks_run, each_hold, each_hold_run, each_notification, each_notification_run, each_form, each_form_run, last_row, longest_row, two_marks, two_rows, all_pass, each_end, failing_rows, heads_alone, second_half};
ghost use Rattle.report.specs.Text.{head_text, run_text, verdict_text, total_text, campaign_text};
ghost use Rattle.report.specs.declared.title.Title.TheVariants.{Base};
ghost use Rattle.report.specs.Shards.{Shard, added, first_of, part_of, shards, undivided};
ghost use Rattle.report.specs.Views.{plain, report_text, shown_rows};
ghost use Rattle.report.specs.declared.view.View.{View};
ghost use Rattle.model.specs.Application.{Application, Limits};
ghost use Rattle.model.specs.Campaign.{Row, AreRows, totals_of};
ghost use Rattle.model.specs.declared.plan.Injection.{Injection};
ghost use Rattle.model.specs.declared.event.End.TheVariants.{Pass, Check, Misuse};
ghost use Rattle.model.specs.declared.event.Misuse.TheVariants.{WhileSuspended, NotSuspended, NotHolder, EndedSuspended, WhileCritical, NotCritical, EndedCritical};

/// The report of a `delay 1` beside a task that only marks, letter by letter.
pub fn report_of_delay_one()
    ensures { run_text delay_one Base delay_one_run ≡
        codes "base: pass in 4 steps, 1 ticks\n"
        ++ codes "0 0 call a 0 delay = 0\n"
        ++ codes "0 0 run b\n"
        ++ codes "1 0 mark b 2\n"
        ++ codes "1 0 run -\n"
        ++ codes "2 1 run a\n"
        ++ codes "3 1 mark a 1\n"
        ++ codes "3 1 run -\n" }
{}

/// The report of a row in which a task gives a mutex back twice, and doesn't hold it the second time, letter by letter.
pub fn report_of_two_unlocks()
    ensures { run_text two_unlocks two_unlocks_row two_unlocks_run ≡
        codes "row 0 at 0 h: misuse a 4 3 in 5 steps, 0 ticks\n"
        ++ codes "0 0 isr h 0 give = 1\n"
        ++ codes "0 0 call a 0 give = 0\n"
        ++ codes "1 0 call a 1 take = 1\n"
        ++ codes "2 0 call a 2 lock = 1\n"
        ++ codes "3 0 call a 3 unlock = 1\n" }
{}

/// The words of ops on an event group, of those that suspend and resume, and of the commands of the daemon, letter by letter.
pub fn report_of_each_hold()
    ensures { run_text each_hold Base each_hold_run ≡
        codes "base: misuse a 7 1 in 10 steps, 0 ticks\n"
        ++ codes "1 0 call a 0 set = 5\n"
        ++ codes "2 0 call a 1 wait = 5\n"
        ++ codes "3 0 call a 2 clear = 1\n"
        ++ codes "4 0 call a 3 bits = 0\n"
        ++ codes "5 0 call a 4 resume = 0\n"
        ++ codes "6 0 call a 5 suspend = 1\n"
        ++ codes "7 0 isr h 0 bits = 0\n"
        ++ codes "7 0 isr h 1 resume = 1\n"
        ++ codes "7 0 isr h 2 set = 1\n"
        ++ codes "7 0 isr h 3 clear = 0\n"
        ++ codes "8 0 call a 6 suspend_all = 0\n"
        ++ codes "9 0 call a 7 resume_all = 0\n"
        ++ codes "9 0 call a 1 set = 1\n"
        ++ codes "9 0 call a 1 clear = 1\n" }
{}

/// The words of ops on notifications, letter by letter.
pub fn report_of_each_notification()
    ensures { run_text each_notification Base each_notification_run ≡
        codes "base: pass in 11 steps, 5 ticks\n"
        ++ codes "0 0 isr h 0 notify = 1\n"
        ++ codes "0 0 call a 0 notify = 1\n"
        ++ codes "1 0 call a 1 notify_take = 1\n"
        ++ codes "8 5 call a 2 notify_wait = none\n"
        ++ codes "9 5 call a 3 notify_clear = 0\n"
        ++ codes "10 5 call a 4 notify_value_clear = 4294967295\n" }
{}

/// How each misuse is printed, letter by letter.
pub fn verdicts_of_misuses()
    ensures while_suspended { verdict_text each_form (Misuse 0 65535 WhileSuspended) ≡
        codes "misuse abcdefghijklmnop 65535 1" }
    ensures not_suspended { verdict_text each_form (Misuse 0 0 NotSuspended) ≡
        codes "misuse abcdefghijklmnop 0 2" }
    ensures not_holder { verdict_text each_form (Misuse 0 0 NotHolder) ≡
        codes "misuse abcdefghijklmnop 0 3" }
    ensures ended_suspended { verdict_text each_form (Misuse 0 0 EndedSuspended) ≡
        codes "misuse abcdefghijklmnop 0 4" }
    ensures while_critical { verdict_text each_form (Misuse 0 0 WhileCritical) ≡
        codes "misuse abcdefghijklmnop 0 5" }
    ensures not_critical { verdict_text each_form (Misuse 0 0 NotCritical) ≡
        codes "misuse abcdefghijklmnop 0 6" }
    ensures ended_critical { verdict_text each_form (Misuse 0 0 EndedCritical) ≡
        codes "misuse abcdefghijklmnop 0 7" }
{}

/// An event of each form, with the largest numbers, letter by letter.
pub fn report_of_each_form()
    ensures { run_text each_form Base each_form_run ≡
        codes "base: check abcdefghijklmnop 65535 in 4294967295 steps, 281474976710656 ticks\n"
        ++ codes "4294967295 4294967295 call abcdefghijklmnop 0 delay_until = 4294967295\n"
        ++ codes "0 0 call abcdefghijklmnop 0 delay_until = none\n"
        ++ codes "0 0 call abcdefghijklmnop 1  = none\n"
        ++ codes "1 10 call abcdefghijklmnop 1 clear = 4294967295\n"
        ++ codes "1 10 mark abcdefghijklmnop 4294967295\n"
        ++ codes "1 10 run abcdefghijklmnop\n"
        ++ codes "1 10 run -\n"
        ++ codes "1 10 isr ABCDEFGHIJKLMNOP 0 send_front = 4294967295\n"
        ++ codes "1 10 isr ABCDEFGHIJKLMNOP 0 send_front = none\n"
        ++ codes "1 10 isr ABCDEFGHIJKLMNOP 1  = none\n"
        ++ codes "1 10 mark ABCDEFGHIJKLMNOP 4294967295\n" }
{}

/// The head lines of a row, letter by letter: of one that is reached, of one that isn't, and of one with three injections.
pub fn heads_of_rows()
    ensures reached { head_text each_form (last_row true) 1000000 7 (Check 0 65535) ≡
        codes "row 1000000 at 1000000 ABCDEFGHIJKLMNOP: check abcdefghijklmnop 65535 in 1000000 steps, 7 ticks\n" }
    ensures not_reached { head_text each_form (last_row false) 12 0 Pass ≡
        codes "row 1000000 at 1000000 ABCDEFGHIJKLMNOP: not reached, pass in 12 steps, 0 ticks\n" }
    ensures three { head_text each_form (longest_row false) 1000000 7 (Check 0 65535) ≡
        codes "row 1000000 at 1000000 ABCDEFGHIJKLMNOP 1000000 ABCDEFGHIJKLMNOP 1000000 ABCDEFGHIJKLMNOP: "
        ++ codes "not reached, check abcdefghijklmnop 65535 in 1000000 steps, 7 ticks\n" }
{}

/// The line that ends the report of a campaign, letter by letter.
pub fn lines_of_totals()
    ensures all_pass { total_text all_pass ≡
        codes "total 7: pass 7, check 0, misuse 0, ticks 0, steps 0, stuck 0, not reached 1\n" }
    ensures each_end { total_text each_end ≡
        codes "total 4294967295: pass 1, check 20, misuse 3, ticks 40, steps 5, stuck 60, not reached 7\n" }
{}

/// The report of a campaign without points, and that of one with two, the second of which is not
/// reached, letter by letter.
pub fn reports_of_campaigns()
    ensures no_rows { (app : Application) → campaign_text app [] ≡
        codes "total 0: pass 0, check 0, misuse 0, ticks 0, steps 0, stuck 0, not reached 0\n" }
    ensures two_rows { campaign_text two_marks two_rows ≡
        codes "row 0 at 0 h: pass in 1 steps, 0 ticks\n"
        ++ codes "0 0 mark h 2\n"
        ++ codes "0 0 mark a 1\n"
        ++ codes "0 0 run -\n"
        ++ codes "row 1 at 1 h: not reached, pass in 1 steps, 0 ticks\n"
        ++ codes "0 0 mark a 1\n"
        ++ codes "0 0 run -\n"
        ++ codes "total 2: pass 2, check 0, misuse 0, ticks 0, steps 0, stuck 0, not reached 1\n" }
{}

/// The same campaign if only heads are asked for, if only rows that don't pass are, and the second
/// of two parts of it, letter by letter.
pub fn reports_in_views()
    ensures heads { report_text two_marks heads_alone 0 two_rows ≡
        codes "row 0 at 0 h: pass in 1 steps, 0 ticks\n"
        ++ codes "row 1 at 1 h: not reached, pass in 1 steps, 0 ticks\n"
        ++ codes "total 2: pass 2, check 0, misuse 0, ticks 0, steps 0, stuck 0, not reached 1\n" }
    ensures failing { report_text two_marks failing_rows 0 two_rows ≡
        codes "total 2: pass 2, check 0, misuse 0, ticks 0, steps 0, stuck 0, not reached 1\n" }
    ensures second { report_text two_marks heads_alone (first_of second_half 2) (part_of second_half two_rows) ≡
        codes "row 1 at 1 h: not reached, pass in 1 steps, 0 ticks\n"
        ++ codes "total 1: pass 1, check 0, misuse 0, ticks 0, steps 0, stuck 0, not reached 1\n" }
{}

/// In the plain view, the report of all rows is that of the campaign.
pub fn plain_view()
    ensures { (app : Application) (rows : List Row) → report_text app plain 0 rows ≡ campaign_text app rows }
{}

/// All rows in one part are all rows, numbered from 0.
pub fn undivided_rows()
    ensures rows { (rows : List Row) → part_of undivided rows ≡ rows }
    ensures first { (rows : ℕ) → first_of undivided rows ≡ 0 }
{}

/// What the reports of all parts write of their rows is, one after the other, what the report of
/// all rows writes, and their totals add up to its totals: in each view, and however many parts
/// there are.
pub fn shards_join()
    ensures rows { (app : Application) (view : View) (rows : List Row) (count : ℕ) → 0 < count
        → flat_map (λ shard. shown_rows app view (first_of shard (length rows)) (part_of shard rows)) (shards count) ≡ shown_rows app view 0 rows }
    ensures totals { (rows : List Row) (count : ℕ) → 0 < count
        → added (map (λ shard. totals_of (part_of shard rows)) (shards count)) ≡ totals_of rows }
{}

/// The rows of a part of the points are that part of the rows of all points.
pub fn rows_of_a_shard()
    ensures { (app : Application) (limits : Limits) (points : List (List Injection)) (rows : List Row) (shard : Shard)
        → AreRows app limits points rows → AreRows app limits (part_of shard points) (part_of shard rows) }
{}
