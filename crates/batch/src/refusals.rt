// Request Five's refusals: 17, its place after the checks of the table and 9, and the runs' own checks, run by run.
ghost use Rattle.std.specs.Prelude.{◌≡◌, ◌*◌, ◌≤◌, length, sum};
ghost use Rattle.batch.specs.Runs.{jobs_before};
ghost use Rattle.batch.specs.Refusals.{with_run, check17, check_call, check_runs, check_batch};

use crate::given::Offer;
use crate::runs::list_length;
use tables::{Refusal, check_jobs, check_tasks, check9, refuse};
use zsrm::Outcome;

// A refusal, and the number of the run that it is about.
#[derive(Clone, Copy, Debug, PartialEq, Eq)]
pub(crate) struct RefusedRun {
    pub refusal: Refusal,
    pub run: u32,
}

// A refusal is named with its run.
#[tactic(auto, unfolding(crate::specs::Refusals::with_run))]
fn with_run(run: u32, outcome: Outcome) -> Result<(), RefusedRun>
    ensures { result ≡ with_run run outcome }
{
    outcome.map_err(|refusal| RefusedRun { refusal, run })
}

// The jobs of all lists; in 64 bits, as a count may be any number: at most 32 times 4,294,967,295.
fn all_jobs(counts: &[u32]) -> u64
    requires { length counts.now ≤ 32 }
    ensures all { result ≡ sum counts.now }
    ensures most { result ≤ 137438953440 }
{
    counts.iter().map(|count| u64::from(*count)).sum()
}

// 17: more than 32 runs, counts whose sum times three is not the flat list's length, or a schedule list not runs times horizon long.
fn check17(given: Offer, entries: usize) -> Outcome
    ensures { result ≡ check17 given.entry.jobs.now given.entry.counts.now given.entry.horizon entries }
{
    let runs = given.counts.len();
    if 32 < runs {
        return Err(Refusal {
            number: 17,
            place: 0,
        });
    }
    let listed = all_jobs(given.counts) * 3 == (given.jobs.len() as u64);
    let placed = (entries as u64) == (runs as u64) * (given.horizon as u64);
    refuse(!listed | !placed, 17, 0)
}

// What is checked of the call as a whole: 2 to 4, 9, 17.
#[tactic(auto, unfolding(crate::specs::Refusals::check_call, tables::specs::Refusals::before))]
fn check_call(given: Offer, entries: usize) -> Outcome
    ensures { result ≡ check_call given.entry.tasks.now given.entry.jobs.now given.entry.counts.now given.entry.horizon entries }
{
    check_tasks(given.tasks)?;
    check9(given.horizon)?;
    check17(given, entries)
}

// The runs' own checks, run by run: 5 to 8 of their lists. Each run is asked, and the first refusal goes first.
fn check_runs(given: Offer) -> Result<(), RefusedRun>
    requires counts_len_bound { length given.counts.now ≤ 32 }
    requires counts_value { jobs_before given.counts.now (length given.counts.now) * 3 ≡ length given.jobs.now }
    ensures { result ≡ check_runs given.entry.tasks.now given.entry.jobs.now given.entry.counts.now (length given.entry.counts.now) }
{
    let mut found = Ok(());
    let mut from: usize = 0;
    for (r, count) in given.counts.iter().enumerate() {
        let to = from + list_length(*count);
        let own = check_jobs(given.tasks, &given.jobs[from..to]);
        found = found.and(with_run(r as u32, own));
        from = to;
    }
    found
}

// All checks of a batch, in their order.
pub(crate) fn check_batch(given: Offer, entries: usize) -> Result<(), RefusedRun>
    ensures { result ≡ check_batch given.entry.tasks.now given.entry.jobs.now given.entry.counts.now given.entry.horizon entries }
{
    with_run(0, check_call(given, entries))?;
    check_runs(given)
}
