// What an entry is given to, and how many entries are given to it.
ghost use Rattle.std.specs.Prelude.{Bool, ◌≡◌, ◌+◌, ◌*◌, ◌≤◌, ◌<◌, length, take};
ghost use Rattle.tables.specs.Tables.{lists};
ghost use Rattle.index.specs.Code.{Checked, counts_of, tally};
ghost use Rattle.index.specs.Counts.{all_jobs_or_idle, column, job_or_idle};

use crate::given::Plan;
use bits::one_if;
use tables::{IDLE, job_at, job_count};

// Whether the entry is a job of the list or idle.
#[tactic(auto, unfolding(crate::specs::Counts::job_or_idle))]
pub(crate) fn job_or_idle(jobs: &[u32], entry: u16) -> bool
    ensures { result ≡ job_or_idle jobs.now entry }
{
    ((entry as usize) < job_count(jobs)) | (entry == IDLE)
}

// The task of the entry's job; the task count for idle.
pub(crate) fn column(given: Plan, entry: u16) -> usize
    ensures { result ≡ column (lists given.entry.tasks.now given.entry.jobs.now) entry }
{
    if entry == IDLE {
        given.tasks.len() / 7
    } else {
        let job = job_at(given.jobs, entry as u32);
        job.task as usize
    }
}

// Whether every entry is a job or idle.
#[tactic(auto, unfolding(crate::specs::Counts::all_jobs_or_idle))]
pub(crate) fn all_jobs_or_idle(jobs: &[u32], entries: &[u16]) -> bool
    ensures { result ≡ all_jobs_or_idle jobs.now entries.now }
{
    entries.iter().all(|entry| job_or_idle(jobs, *entry))
}

// How many of the entries are given to c, each looked at once; none where one is neither job nor idle.
pub(crate) fn ticks_of(given: Plan, c: usize, entries: &[u16]) -> Option<u64>
    ensures { result ≡ tally (lists given.entry.tasks.now given.entry.jobs.now) c entries.now }
{
    let mut sum: u64 = 0;
    for &entry in entries {
        if !job_or_idle(given.jobs, entry) {
            return None;
        }
        sum += one_if(column(given, entry) == c) as u64;
    }
    Some(sum)
}

// The counts of the entries before row r's multiple, by column, brought up to the next row's.
pub(crate) fn count_on(given: Plan, counts: [u32; 17], schedule: &[u16], r: usize) -> [u32; 17]
    requires checked { Checked (lists given.tasks.now given.jobs.now) }
    requires counts_value { counts ≡ counts_of (lists given.tasks.now given.jobs.now) (take (r * 64) schedule.now) }
    requires r_in_bounds { ((r + 1) * 64 ≤ length schedule.now) × (length schedule.now ≤ 16384) }
    requires schedule_value { all_jobs_or_idle given.jobs.now (take ((r + 1) * 64) schedule.now) ≡ Bool.true }
    ensures { result ≡ counts_of (lists given.entry.tasks.now given.entry.jobs.now) (take ((r + 1) * 64) schedule.now) }
{
    let mut out = counts;
    for t in r * 64..(r + 1) * 64 {
        let c = column(given, schedule[t]);
        out[c] += 1;
    }
    out
}
