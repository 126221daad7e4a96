// What one replaced entry changes: in each row past its tick the old column loses 1 and the new gains 1. All those numbers are looked at
// before any is written.
ghost use Rattle.std.specs.Prelude.{Bool, ◌≡◌, ◌≤◌};
ghost use Rattle.tables.specs.Tables.{lists, task_count};
ghost use Rattle.index.specs.Answers.{check_change, moved, replace_answer};
ghost use Rattle.index.specs.Code.{Checked, Sized, plan_of};
ghost use Rattle.index.specs.Refusals.{leaves, strays};
ghost use Rattle.index.specs.Rows.{row_count, row_by_row, row_width};

use crate::counts::{column, job_or_idle};
use crate::given::Plan;
use crate::refusals::check_placed;
use crate::rows::{first_past, row_at, row_count};
use tables::{Outcome, refuse};

// Whether the number that would lose 1, or the one that would gain 1, would leave 0 to the horizon; in 64 bits, as each may be any.
#[tactic(auto, unfolding(crate::specs::Refusals::leaves))]
fn leaves(horizon: u32, loses: u32, gains: u32) -> bool
    ensures { result ≡ leaves horizon loses gains }
{
    let most = horizon as u64;
    (loses < 1) | (most + 1 < (loses as u64)) | (most < (gains as u64) + 1)
}

// Whether some row past the tick has such a number; none does where both columns are the same.
fn strays(given: Plan, index: &[u32], tick: u32, old: usize, new: usize) -> bool
    requires sized { Sized given.tasks.now given.horizon index.now }
    requires bound { (old ≤ task_count given.tasks.now) × (new ≤ task_count given.tasks.now) }
    ensures { result ≡ strays given.entry.tasks.now given.entry.horizon index.now tick old new }
{
    if old == new {
        return false;
    }
    for r in first_past(tick)..row_count(given.horizon) {
        let at = row_at(given, r);
        if leaves(given.horizon, index[at + old], index[at + new]) {
            return true;
        }
    }
    false
}

// The rows past the tick, at most (horizon - tick) / 64 + 1 of them, with 1 moved from the old column to the new.
pub(crate) fn move_rows(given: Plan, index: &mut [u32], tick: u32, old: usize, new: usize)
    requires sized { Sized given.tasks.now given.horizon index.old }
    requires bound { (old ≤ task_count given.tasks.now) × (new ≤ task_count given.tasks.now) }
    requires value { strays given.tasks.now given.horizon index.old tick old new ≡ Bool.false }
    ensures { index.new ≡ row_by_row (row_width given.entry.tasks.now) (row_count given.entry.horizon) (moved given.entry.tasks.now index.old tick old new) }
{
    if old == new {
        return;
    }
    for row in first_past(tick)..row_count(given.horizon) {
        let at = row_at(given, row);
        index[at + old] -= 1;
        index[at + new] += 1;
    }
}

// 16: an entry given, or the one that stands there, is neither job nor idle, or a changed count lies outside 0 to the horizon.
#[tactic(auto, unfolding(crate::specs::Answers::check_change, crate::specs::Refusals::check_entries, tables::specs::Refusals::before))]
fn check_change(given: Plan, index: &[u32], tick: u32, stands: u16, entry: u16) -> Outcome
    requires checked { Checked (lists given.tasks.now given.jobs.now) }
    requires sized { Sized given.tasks.now given.horizon index.now }
    ensures { result ≡ check_change (plan_of given.entry) index.now tick stands entry }
{
    let strange = !job_or_idle(given.jobs, stands) | !job_or_idle(given.jobs, entry);
    refuse(strange, 16, 0)?;
    let old = column(given, stands);
    let new = column(given, entry);
    refuse(strays(given, index, tick, old, new), 16, 0)
}

// All checks of a replacement, in their order.
#[tactic(auto, unfolding(crate::specs::Answers::replace_answer, tables::specs::Refusals::before))]
pub(crate) fn check_replace(
    given: Plan,
    schedule: &[u16],
    index: &[u32],
    tick: u32,
    entry: u16,
) -> Outcome
    ensures { result ≡ replace_answer (plan_of given.entry) schedule.now index.now tick entry }
{
    check_placed(given, schedule.len(), index.len(), tick)?;
    check_change(given, index, tick, schedule[tick as usize], entry)
}
