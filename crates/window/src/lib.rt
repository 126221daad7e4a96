// Request Twelve, deadline misses over a window: by the (m, K) notion, whether every K consecutive jobs of one task contain at most m misses.
// The verdicts are the library's own, asked once.
#![tactic(auto)]

ghost use Rattle.std.specs.Prelude.{◌≡◌};
ghost use Rattle.zsrm.specs.Given.{given};
ghost use Rattle.window.specs.Answers.{judge_answer};

use jobs::gather;
use refusals::check_judge;
use windows::windows_from;
use zsrm::{Mode, Record, verdicts};

mod answers;
mod jobs;
mod refusals;
mod windows;

pub use answers::Windows;
pub use zsrm::Refusal;

// From a consistent record, such as a run returns: whether every window of k consecutive jobs of the task contains at most m misses, or the
// first that does not, and how many of its jobs are open; refusals 2 to 8, 11, 19, 20.
pub fn judge(
    rec: Record,
    mode: Mode,
    tasks: &[u32],
    jobs: &[u32],
    task: u32,
    m: u32,
    k: u32,
) -> Result<Windows, Refusal>
    ensures { result ≡ judge_answer (given mode tasks.now jobs.now) rec task m k }
{
    let all = verdicts(rec, mode, tasks, jobs);
    check_judge(all.outcome, tasks, task, m, k)?;
    Ok(windows_from(gather(all, jobs, task), m, k as usize))
}
