// Request Twelve's refusals, 19 and 20, after those that the verdicts meet.
ghost use Rattle.std.specs.Prelude.{◌≡◌};
ghost use Rattle.tables.specs.Refusals.{before};
ghost use Rattle.window.specs.Refusals.{check19, check20};

use tables::refuse;
use zsrm::Outcome;

// 19: K = 0, K over 64 or m > K.
#[tactic(auto, unfolding(crate::specs::Refusals::check19))]
fn check19(m: u32, k: u32) -> Outcome
    ensures { result ≡ check19 m k }
{
    refuse((k == 0) | (64 < k) | (k < m), 19, 0)
}

// 20: the task is not in the table.
#[tactic(auto, unfolding(crate::specs::Refusals::check20, tables::specs::Tables::task_count))]
fn check20(tasks: &[u32], task: u32) -> Outcome
    ensures { result ≡ check20 tasks.now task }
{
    let known = (task as usize) < tasks.len() / 7;
    refuse(!known, 20, 0)
}

// The checks in the order of their numbers, behind what the verdicts are refused with.
#[tactic(auto, unfolding(tables::specs::Refusals::before))]
pub(crate) fn check_judge(judged: Outcome, tasks: &[u32], task: u32, m: u32, k: u32) -> Outcome
    ensures { result ≡ before judged (before (check19 m k) (check20 tasks.now task)) }
{
    judged?;
    check19(m, k)?;
    check20(tasks, task)
}
