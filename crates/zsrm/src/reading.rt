// A call's lists read from their bytes, each task and each job once: checked, and what the ticks need of it kept.
ghost use Rattle.std.specs.Prelude.{◌≡◌, ℕ, ◌+◌, ◌*◌, ◌/◌, ◌≤◌, ◌<◌, eqb, length, get_or, set};
ghost use Rattle.std.proofs.lemmas.List.Edits.{sets};
ghost use Rattle.tables.specs.Outcomes.{Done};
ghost use Rattle.tables.specs.Bytes.{numbers_in, check_tasks_in, check_jobs_in, uneven};
ghost use Rattle.tables.specs.Refusals.{before, check9, check10, check_tasks};
ghost use Rattle.tables.specs.Tables.{lists};
ghost use Rattle.bits.specs.Word.{with_bit};
ghost use Rattle.zsrm.specs.Bytes.{check_bytes, given_bytes};
ghost use Rattle.zsrm.specs.Code.Calls.{Call};
ghost use Rattle.zsrm.specs.Code.Reading.{task_row, TaskFits, Tasked, job_tested, job_row, JobFits, Jobbed, Cleared};

use crate::gather::Numbers;
use crate::masks::{Masks, make_masks};
use tables::{Job, Outcome, Task, check_task, check9, check10, job_in, refuse, task_in};

// The six numbers of task k put in the list.
fn put_task(of: &mut [u16; 96], k: usize, task: Task)
    requires { (k < 16) × TaskFits task }
    ensures { of.new ≡ sets of.old (6 * k) (task_row task) }
{
    let first = 6 * k;
    of[first] = task.period as u16;
    of[first + 1] = task.overload as u16;
    of[first + 2] = task.nominal as u16;
    of[first + 3] = task.offset as u16;
    of[first + 4] = task.criticality.0 as u16;
    of[first + 5] = task.priority.0 as u16;
}

// 2, then 3 and 4 of the tasks ascending; the numbers of a table that passes are put in the list.
pub(crate) fn read_tasks(tasks: &[u8], of: &mut [u16; 96]) -> Outcome
    ensures found { result ≡ check_tasks_in tasks.now }
    ensures holds { result ≡ Done → Tasked (numbers_in 4 tasks.now) of.new }
{
    let count = tasks.len() / 28;
    refuse((tasks.len() % 28 != 0) | ((count < 1) | (16 < count)), 2, 0)?;
    for k in 0..count {
        let task = task_in(tasks, k as u32);
        check_task(task, k as u32)?;
        put_task(of, k, task);
    }
    Ok(())
}

// 6, 7, 8 in this order, for job j, by what is kept of the tasks and of the jobs above it.
fn check_job(
    of: &[u16; 96],
    noted: &[u32; 16],
    job: Job,
    count: usize,
    above: u32,
    j: u32,
) -> Outcome
    requires { count ≤ 16 }
    ensures { result ≡ job_tested of.now noted.now count above job j }
{
    refuse((count as u32) <= job.task, 6, j)?;
    let k = job.task as usize;
    refuse(
        (16384 < job.arrival) | ((of[6 * k + 1] as u32) < job.execution),
        6,
        j,
    )?;
    refuse(job.arrival < above, 7, j)?;
    refuse(job.arrival < noted[k], 8, j)
}

// The five numbers of job j put in the list.
fn put_job(of: &[u16; 96], job: Job, out: &mut Numbers, j: usize)
    requires { (j < 64) × JobFits of.now job }
    ensures { out.new ≡ sets out.old (5 * j) (job_row of.now job) }
{
    let k = job.task as usize;
    let z = (job.arrival as u16) + of[6 * k + 3];
    let nominal = of[6 * k + 2];
    let first = 5 * j;
    out[first] = job.arrival as u16;
    out[first + 1] = job.execution as u16;
    out[first + 2] = z;
    out[first + 3] = nominal;
    out[first + 4] = job.task as u16;
}

// A job is noted: the next of its task may come a period later.
fn note_job(of: &[u16; 96], job: Job, noted: &mut [u32; 16])
    requires { JobFits of.now job }
    ensures { noted.new ≡ set noted.old job.task (job.arrival + get_or of.now (6 * job.task) 0) }
{
    let k = job.task as usize;
    noted[k] = job.arrival + (of[6 * k] as u32);
}

// Job j joins the word of task k.
fn mark_job(words: &mut [u64; 16], k: usize, j: u32)
    requires { k < 16 }
    ensures { words.new ≡ set words.old k (with_bit (get_or words.old k 0) j) }
{
    let word = words[k];
    words[k] = bits::with_bit(word, j);
}

// 5, then 6, 7, 8 of the jobs ascending, beside a table that passed; the numbers of jobs that pass are put in the list, and the jobs of
// each task in its word.
pub(crate) fn read_jobs(
    tasks: &[u8],
    of: &[u16; 96],
    jobs: &[u8],
    out: &mut Numbers,
    words: &mut [u64; 16],
) -> Outcome
    requires tasks_value { check_tasks (numbers_in 4 tasks.now) ≡ Done }
    requires tasked { Tasked (numbers_in 4 tasks.now) of.now × Cleared words.old }
    ensures found { result ≡ check_jobs_in tasks.now jobs.now }
    ensures holds { result ≡ Done → Jobbed (lists (numbers_in 4 tasks.now) (numbers_in 4 jobs.now)) out.new words.new }
{
    let count = tasks.len() / 28;
    let n = jobs.len() / 12;
    refuse((jobs.len() % 12 != 0) | (64 < n), 5, 0)?;
    let mut noted = [0u32; 16];
    let mut above: u32 = 0;
    for j in 0..n {
        let job = job_in(jobs, j as u32);
        check_job(of, &noted, job, count, above, j as u32)?;
        put_job(of, job, out, j);
        note_job(of, job, &mut noted);
        mark_job(words, job.task as usize, j as u32);
        above = job.arrival;
    }
    Ok(())
}

// 9, then 10 for an odd byte count or another number of entries.
#[tactic(auto, unfolding(tables::specs::Bytes::uneven, tables::specs::Refusals::before))]
pub(crate) fn check_ticks(horizon: u32, count: usize) -> Outcome
    ensures { result ≡ before (check9 horizon) (before (uneven count 2 10) (check10 (count / 2) horizon)) }
{
    check9(horizon)?;
    refuse(count % 2 != 0, 10, 0)?;
    check10(count / 2, horizon)
}

// All checks of a call from C, in their order; count bytes are the schedule's. The numbers of lists that pass are put in theirs.
pub(crate) fn read_call(
    mode: u32,
    tasks: &[u8],
    jobs: &[u8],
    horizon: u32,
    count: usize,
    of: &mut [u16; 96],
    out: &mut Numbers,
    words: &mut [u64; 16],
) -> Outcome
    requires { Cleared words.old }
    ensures found { result ≡ check_bytes mode tasks.now jobs.now horizon count }
    ensures table { result ≡ Done → Tasked (numbers_in 4 tasks.now) of.new }
    ensures list { result ≡ Done → Jobbed (lists (numbers_in 4 tasks.now) (numbers_in 4 jobs.now)) out.new words.new }
{
    refuse(1 < mode, 1, 0)?;
    read_tasks(tasks, of)?;
    read_jobs(tasks, of, jobs, out, words)?;
    check_ticks(horizon, count)
}

// The same, and of lists that pass the numbers of the jobs and the masks, whose words are 0 before. What is read of the tasks goes with it.
pub(crate) fn prepare(
    mode: u32,
    tasks: &[u8],
    jobs: &[u8],
    horizon: u32,
    count: usize,
    g: &mut Numbers,
    masks: &mut Masks,
) -> Outcome
    requires { (q : ℕ) → q < 16 → get_or masks.old q 0 ≡ 0 }
    ensures found { result ≡ check_bytes mode tasks.now jobs.now horizon count }
    ensures ready { result ≡ Done → Call (given_bytes mode tasks.now jobs.now) g.new masks.new (length jobs.now / 12) (eqb mode 1) }
{
    let mut of = [0u16; 96];
    let mut words = [0u64; 16];
    read_call(mode, tasks, jobs, horizon, count, &mut of, g, &mut words)?;
    make_masks(&of, &words, tasks.len() / 28, masks);
    Ok(())
}
