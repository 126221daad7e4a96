// Request One, the schedule in stretches, indexed by task: an index of 32-bit numbers beside the schedule, a row for each multiple of 64,
// which answers how many ticks a task had between two moments, and follows the schedule when one entry is replaced.
#![tactic(auto)]

ghost use Rattle.std.specs.Prelude.{◌≡◌};
ghost use Rattle.index.specs.Answers.{between_answer, build_answer, build_index, replace_answer, replace_index, replace_schedule};
ghost use Rattle.index.specs.Counts.{plan};

use changes::{check_replace, move_rows};
use counts::column;
use ends::between_ends;
use given::Plan;
use refusals::{check_asked, check_build};
use rows::write_rows;

mod changes;
mod counts;
mod ends;
mod given;
mod refusals;
mod rows;

pub use tables::{Outcome, Refusal};

// The index of the schedule, written whole: of each multiple of 64 from 0 to the horizon a row, the ticks before it given to each task and,
// last, idle. Refusals: 2 to 10, then 16 for an index of another length, or an entry before the last multiple that is neither job nor idle.
// A refusal leaves it as it was.
pub fn build(
    tasks: &[u32],
    jobs: &[u32],
    horizon: u32,
    schedule: &[u16],
    index: &mut [u32],
) -> Outcome
    ensures answers { result ≡ build_answer (plan tasks.now jobs.now horizon) schedule.now index.old }
    ensures writes { index.new ≡ build_index (plan tasks.now jobs.now horizon) schedule.now index.old }
{
    let given = Plan {
        tasks,
        jobs,
        horizon,
    };
    check_build(given, schedule, index)?;
    write_rows(given, schedule, index);
    Ok(())
}

// How many ticks from a up to b the index and the entries since its rows give to the task, or to idle where it is the task count. Refusals:
// 2 to 10; 15 for a > b or b beyond the horizon; 16 for an index of another length, a task above the task count, an entry read that is
// neither job nor idle, or a count, an end's or the answer, outside 0 to the horizon.
#[tactic(auto, unfolding(crate::specs::Answers::between_answer, crate::specs::Answers::check_between, tables::specs::Refusals::before, tables::specs::Refusals::unless))]
pub fn between(
    tasks: &[u32],
    jobs: &[u32],
    horizon: u32,
    schedule: &[u16],
    index: &[u32],
    task: u32,
    a: u32,
    b: u32,
) -> Result<u32, Refusal>
    ensures { result ≡ between_answer (plan tasks.now jobs.now horizon) schedule.now index.now task a b }
{
    let given = Plan {
        tasks,
        jobs,
        horizon,
    };
    check_asked(given, schedule.len(), index.len(), task, a, b)?;
    between_ends(given, schedule, index, task, a, b)
}

// One entry of the schedule replaced, and the index with it: in each row past the tick the old entry's column loses 1 and the new one's
// gains 1. Refusals: 2 to 10; 15 for a tick not below the horizon; 16 for an index of another length, an entry, given or replaced, that is
// neither job nor idle, or a changed count outside 0 to the horizon, found before anything is written. Rows at or before the tick, and other
// columns, keep their numbers; where both are the same column no row is touched.
pub fn replace(
    tasks: &[u32],
    jobs: &[u32],
    horizon: u32,
    schedule: &mut [u16],
    index: &mut [u32],
    tick: u32,
    entry: u16,
) -> Outcome
    ensures answers { result ≡ replace_answer (plan tasks.now jobs.now horizon) schedule.old index.old tick entry }
    ensures schedules { schedule.new ≡ replace_schedule (plan tasks.now jobs.now horizon) schedule.old index.old tick entry }
    ensures indexes { index.new ≡ replace_index (plan tasks.now jobs.now horizon) schedule.old index.old tick entry }
{
    let given = Plan {
        tasks,
        jobs,
        horizon,
    };
    check_replace(given, schedule, index, tick, entry)?;
    let at = tick as usize;
    let old = column(given, schedule[at]);
    let new = column(given, entry);
    move_rows(given, index, tick, old, new);
    schedule[at] = entry;
    Ok(())
}
