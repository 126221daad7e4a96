// Request One's refusals: 15 and 16, both after those of the lists, the horizon and the schedule.
ghost use Rattle.std.specs.Prelude.{◌≡◌, ◌≤◌, length};
ghost use Rattle.tables.specs.Tables.{task_count};
ghost use Rattle.index.specs.Code.{plan_of};
ghost use Rattle.index.specs.Answers.{build_answer, check_asked, check_placed};
ghost use Rattle.index.specs.Refusals.{check_length, check_range, check_task, check_tick};

use crate::counts::all_jobs_or_idle;
use crate::given::Plan;
use crate::rows::{row_at, row_count};
use tables::{Outcome, check_schedule, refuse};

// 16: an index of the wrong length.
fn check_length(given: Plan, numbers: usize) -> Outcome
    requires { (task_count given.tasks.now ≤ 16) × (given.horizon ≤ 16384) }
    ensures { result ≡ check_length given.entry.tasks.now given.entry.horizon numbers }
{
    let whole = row_at(given, row_count(given.horizon));
    refuse(!(numbers == whole), 16, 0)
}

// 15: a > b, or b beyond the horizon.
#[tactic(auto, unfolding(crate::specs::Refusals::check_range))]
fn check_range(horizon: u32, a: u32, b: u32) -> Outcome
    ensures { result ≡ check_range horizon a b }
{
    refuse((b < a) | (horizon < b), 15, 0)
}

// 16: a task above the task count.
#[tactic(auto, unfolding(crate::specs::Refusals::check_task, tables::specs::Tables::task_count))]
fn check_task(given: Plan, task: u32) -> Outcome
    ensures { result ≡ check_task given.entry.tasks.now task }
{
    refuse(given.tasks.len() / 7 < (task as usize), 16, 0)
}

// 15: a replaced tick not below the horizon.
#[tactic(auto, unfolding(crate::specs::Refusals::check_tick))]
fn check_tick(horizon: u32, tick: u32) -> Outcome
    ensures { result ≡ check_tick horizon tick }
{
    refuse(!(tick < horizon), 15, 0)
}

// All checks of building an index, in their order.
#[tactic(auto, unfolding(crate::specs::Answers::build_answer, crate::specs::Refusals::check_built, crate::specs::Refusals::built_from, tables::specs::Refusals::before))]
pub(crate) fn check_build(given: Plan, schedule: &[u16], index: &[u32]) -> Outcome
    ensures { result ≡ build_answer (plan_of given.entry) schedule.now index.now }
{
    check_schedule(given.tasks, given.jobs, given.horizon, schedule.len())?;
    check_length(given, index.len())?;
    let end = (given.horizon / 64 * 64) as usize;
    let built = all_jobs_or_idle(given.jobs, &schedule[..end]);
    refuse(!built, 16, 0)
}

// What a question about a range is checked for before anything is read.
#[tactic(auto, unfolding(crate::specs::Answers::check_asked, tables::specs::Refusals::before))]
pub(crate) fn check_asked(
    given: Plan,
    entries: usize,
    numbers: usize,
    task: u32,
    a: u32,
    b: u32,
) -> Outcome
    ensures { result ≡ check_asked (plan_of given.entry) entries numbers task a b }
{
    check_schedule(given.tasks, given.jobs, given.horizon, entries)?;
    check_range(given.horizon, a, b)?;
    check_length(given, numbers)?;
    check_task(given, task)
}

// What a replacement is checked for before anything is read.
#[tactic(auto, unfolding(crate::specs::Answers::check_placed, tables::specs::Refusals::before))]
pub(crate) fn check_placed(given: Plan, entries: usize, numbers: usize, tick: u32) -> Outcome
    ensures { result ≡ check_placed (plan_of given.entry) entries numbers tick }
{
    check_schedule(given.tasks, given.jobs, given.horizon, entries)?;
    check_tick(given.horizon, tick)?;
    check_length(given, numbers)
}
