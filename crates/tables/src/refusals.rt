// Document 01, "Refusal numbers": each check under its number, and the order of those that a task table and a job list meet.
// The lists may be of any length and hold any numbers: a field past a list's end is 0, and no sum wraps.
ghost use Rattle.std.specs.Prelude.{◌≡◌, List, ℕ, ◌+◌, ◌≤◌, get_or, set};
ghost use Rattle.tables.specs.Tables.{lists, task_count};
ghost use Rattle.tables.specs.Fields.{task_at};
ghost use Rattle.tables.specs.Refusals.{refuse, before, outside, check3, check4, check_tasks, check6, check7, check8, check_jobs, check_lists, check9, check10, check_schedule, check13};
ghost use Rattle.tables.specs.Bytes.{numbers_in, check_tasks_in, check_jobs_in, check_lists_in};
ghost use Rattle.tables.specs.Code.{soonest, Noted, Seen};

use crate::answers::{Outcome, Refusal};
use crate::fields::{Job, Task};
use crate::listed::Listed;

// A check refuses, with its number and place, exactly when its test passes.
pub fn refuse(test: bool, number: u32, place: u32) -> Outcome
    ensures { result ≡ refuse test number place }
{
    if test {
        Err(Refusal { number, place })
    } else {
        Ok(())
    }
}

// Less than the least, or more than the most.
fn outside(low: u32, high: u32, x: u32) -> bool
    ensures { result ≡ outside low high x }
{
    (x < low) | (high < x)
}

// 3: a field of task k is outside its range.
fn check3(task: Task, k: u32) -> Outcome
    ensures { (tasks : List ℕ) → task ≡ task_at tasks k → result ≡ check3 tasks k }
{
    refuse(
        outside(1, 16384, task.period)
            | outside(1, 16384, task.deadline)
            | outside(1, 16384, task.nominal)
            | outside(1, 16384, task.overload)
            | (255 < task.criticality.0)
            | (63 < task.priority.0)
            | (16384 < task.offset),
        3,
        k,
    )
}

// 4: C > Co, D > T or Z > D.
fn check4(task: Task, k: u32) -> Outcome
    ensures { (tasks : List ℕ) → task ≡ task_at tasks k → result ≡ check4 tasks k }
{
    refuse(
        (task.overload < task.nominal)
            | (task.period < task.deadline)
            | (task.deadline < task.offset),
        4,
        k,
    )
}

// 3 before 4, for task k, whose fields are given.
#[tactic(auto, unfolding(crate::specs::Refusals::before))]
pub fn check_task(task: Task, k: u32) -> Outcome
    ensures { (tasks : List ℕ) → task ≡ task_at tasks k → result ≡ before (check3 tasks k) (check4 tasks k) }
{
    check3(task, k)?;
    check4(task, k)
}

// 2: the task list's length is no multiple of 7, or there is no task, or over 16; then the tasks ascending.
fn check_tasks_of<L: Listed>(tasks: L) -> Outcome
    ensures { result ≡ check_tasks (L.numbers tasks) }
{
    let size = tasks.size();
    let count = size / 7;
    refuse((size % 7 != 0) | ((count < 1) | (16 < count)), 2, 0)?;
    for k in 0..count {
        check_task(tasks.task(k as u32), k as u32)?;
    }
    Ok(())
}

// The same of a list of numbers.
pub fn check_tasks(tasks: &[u32]) -> Outcome
    ensures { result ≡ check_tasks tasks.now }
{
    check_tasks_of(tasks)
}

// 6, 7, 8 in this order, for job j: the table has so many tasks, the job above arrived at `above`, and the job's task allows it `from` then on.
fn check_job(job: Job, task: Task, count: usize, above: u32, from: u64, j: u32) -> Outcome
    ensures { (tasks jobs : List ℕ) → Seen tasks jobs j job task count above from
        → result ≡ before (check6 tasks jobs j) (before (check7 jobs j) (check8 tasks jobs j)) }
{
    // 6: the job's task is not in the table, its arrival is over 16,384, or c > Co
    let known = (job.task as usize) < count;
    refuse(
        !known | (16384 < job.arrival) | (task.overload < job.execution),
        6,
        j,
    )?;
    // 7: its arrival lies before that of the job above it in the list
    refuse(job.arrival < above, 7, j)?;
    // 8: it comes less than T after the preceding job of its task
    refuse((job.arrival as u64) < from, 8, j)
}

// The soonest that a job of task k may arrive behind the first n jobs, by looking back at them.
fn looked_back<L: Listed>(tasks: L, jobs: L, n: u32, k: u32) -> u64
    ensures { result ≡ soonest (L.numbers tasks) (L.numbers jobs) n k }
{
    for i in (0..n).rev() {
        let job = jobs.job(i);
        if job.task == k {
            return (job.arrival as u64) + (tasks.task(k).period as u64);
        }
    }
    0
}

// The same, as it is noted for the first 16 tasks. Only a table that is refused has more; their jobs are looked back at.
fn soonest<L: Listed>(noted: &[u64], tasks: L, jobs: L, n: u32, k: u32) -> u64
    requires { Noted (L.numbers tasks) (L.numbers jobs) n noted.now }
    ensures { result ≡ soonest (L.numbers tasks) (L.numbers jobs) n k }
{
    if k < 16 {
        noted[k as usize]
    } else {
        looked_back(tasks, jobs, n, k)
    }
}

// A job is noted: the next of its task may come a period later.
fn note(noted: &mut [u64], job: Job, task: Task)
    ensures { noted.new ≡ set noted.old job.task (job.arrival + task.period) }
{
    let at = job.task as usize;
    if at < noted.len() {
        noted[at] = (job.arrival as u64) + (task.period as u64);
    }
}

// 5: the job list's length is no multiple of 3, or there are over 64 jobs; then the jobs ascending, each looked at once.
fn check_jobs_of<L: Listed>(tasks: L, jobs: L) -> Outcome
    ensures { result ≡ check_jobs (L.numbers tasks) (L.numbers jobs) }
{
    let size = jobs.size();
    let count = size / 3;
    refuse((size % 3 != 0) | (64 < count), 5, 0)?;
    let known = tasks.size() / 7;
    let mut noted = [0u64; 16];
    let mut above: u32 = 0;
    for j in 0..count {
        let job = jobs.job(j as u32);
        let task = tasks.task(job.task);
        let from = soonest(&noted, tasks, jobs, j as u32, job.task);
        check_job(job, task, known, above, from, j as u32)?;
        note(&mut noted, job, task);
        above = job.arrival;
    }
    Ok(())
}

// The same of lists of numbers.
pub fn check_jobs(tasks: &[u32], jobs: &[u32]) -> Outcome
    ensures { result ≡ check_jobs tasks.now jobs.now }
{
    check_jobs_of(tasks, jobs)
}

// What every entry point that is given tasks and jobs checks first.
#[tactic(auto, unfolding(crate::specs::Refusals::check_lists, crate::specs::Refusals::before))]
pub fn check_lists(tasks: &[u32], jobs: &[u32]) -> Outcome
    ensures { result ≡ check_lists (lists tasks.now jobs.now) }
{
    check_tasks(tasks)?;
    check_jobs(tasks, jobs)
}

// 2 to 4 for a table that lies in bytes; a count of them that makes no whole number is refused as the list's length.
pub fn check_tasks_in(tasks: &[u8]) -> Outcome
    ensures { result ≡ check_tasks_in tasks.now }
{
    refuse(tasks.len() % 4 != 0, 2, 0)?;
    check_tasks_of::<&[u8]>(tasks)
}

// 5 to 8 for a job list that lies in bytes.
fn check_jobs_in(tasks: &[u8], jobs: &[u8]) -> Outcome
    ensures { result ≡ check_jobs_in tasks.now jobs.now }
{
    refuse(jobs.len() % 4 != 0, 5, 0)?;
    check_jobs_of::<&[u8]>(tasks, jobs)
}

// What every entry point that is given tasks and jobs in bytes checks first, without copying them.
#[tactic(auto, unfolding(crate::specs::Bytes::check_lists_in, crate::specs::Refusals::before))]
pub fn check_lists_in(tasks: &[u8], jobs: &[u8]) -> Outcome
    ensures { result ≡ check_lists_in tasks.now jobs.now }
{
    check_tasks_in(tasks)?;
    check_jobs_in(tasks, jobs)
}

// 9: the horizon is over 16,384.
pub fn check9(horizon: u32) -> Outcome
    ensures { result ≡ check9 horizon }
{
    refuse(16384 < horizon, 9, 0)
}

// 10: the schedule list's length differs from the horizon.
pub fn check10(entries: usize, horizon: u32) -> Outcome
    ensures { result ≡ check10 entries horizon }
{
    refuse(!(entries == (horizon as usize)), 10, 0)
}

// What every entry point that is given lists, a horizon and a schedule checks: 2 to 10.
#[tactic(auto, unfolding(crate::specs::Refusals::check_schedule, crate::specs::Refusals::before))]
pub fn check_schedule(tasks: &[u32], jobs: &[u32], horizon: u32, entries: usize) -> Outcome
    ensures { result ≡ check_schedule (lists tasks.now jobs.now) horizon entries }
{
    check_lists(tasks, jobs)?;
    check9(horizon)?;
    check10(entries, horizon)
}

// 13: the call names a job not in the list.
pub fn check13(jobs: &[u32], j: u32) -> Outcome
    ensures { result ≡ check13 jobs.now j }
{
    let known = (j as usize) < jobs.len() / 3;
    refuse(!known, 13, 0)
}
