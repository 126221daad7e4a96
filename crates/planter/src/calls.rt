// The library's calls on the planter's table; where several jobs are candidates, the job of the previous tick stays. Each answers what the
// library answers there, refusals too.
ghost use Rattle.std.specs.Prelude.{◌≡◌};
ghost use Rattle.zsrm.specs.declared.tie.Tie.{Tie};
ghost use Rattle.zsrm.specs.Answers.{claim_answer, fresh_answer, go_on_answer, go_on_schedule, replay_answer, response_answer};
ghost use Rattle.zsrm.specs.Answers.{run_answer, run_schedule, step_answer, verdict_answer, verdicts_answer, witness_answer};
ghost use Rattle.zsrm.specs.Verdict.{Shows};
ghost use Rattle.planter.specs.Table.{planter, table};

use crate::tasks::TABLE;
use zsrm::{Claim, Mode, Ran, Record, Refusal, Replayed, Stepped, Tie, Verdict, Verdicts, Witness};

// The fresh record of the jobs; refusals 5 to 8. The library's method is called on some record, whatever that holds.
pub fn fresh(jobs: &[u32]) -> Ran
    ensures { result ≡ fresh_answer table jobs.now }
{
    let stale = Record::blank();
    stale.fresh(&TABLE, jobs)
}

// The record advanced by one tick, with what the tick did; refusals 5 to 8, 11, 12.
pub fn step(rec: Record, mode: Mode, jobs: &[u32]) -> Stepped
    ensures { result ≡ step_answer (planter mode jobs.now) Tie.Stay rec }
{
    rec.step(mode, Tie::Stay, &TABLE, jobs)
}

// Our run from a record on, for as many ticks as are asked for, its entries written into the caller's list; refusals 5 to 8, 10 to 12,
// the list then keeping its entries.
pub fn go_on(rec: Record, mode: Mode, jobs: &[u32], ticks: u32, schedule: &mut [u16]) -> Ran
    ensures answers { result ≡ go_on_answer (planter mode jobs.now) Tie.Stay rec ticks schedule.old }
    ensures writes { schedule.new ≡ go_on_schedule (planter mode jobs.now) Tie.Stay rec ticks schedule.old }
{
    rec.go_on(mode, Tie::Stay, &TABLE, jobs, ticks, schedule)
}

// Our run from the fresh record, its entries written into the caller's list; refusals 5 to 10, the list then keeping its entries.
pub fn run(mode: Mode, jobs: &[u32], horizon: u32, schedule: &mut [u16]) -> Ran
    ensures answers { result ≡ run_answer (planter mode jobs.now) Tie.Stay horizon schedule.old }
    ensures writes { schedule.new ≡ run_schedule (planter mode jobs.now) Tie.Stay horizon schedule.old }
{
    zsrm::run(mode, Tie::Stay, &TABLE, jobs, horizon, schedule)
}

// Whether a claimed schedule is legal, or the least tick at which it is not; refusals 5 to 10.
pub fn claim(mode: Mode, jobs: &[u32], horizon: u32, schedule: &[u16]) -> Result<Claim, Refusal>
    ensures { result ≡ claim_answer (planter mode jobs.now) horizon schedule.now }
{
    zsrm::claim(mode, &TABLE, jobs, horizon, schedule)
}

// A claimed schedule replayed: the claim check's own answer, and the record at the schedule's end where it is legal, else the blank one;
// refusals 5 to 10.
pub fn replay(mode: Mode, jobs: &[u32], horizon: u32, schedule: &[u16]) -> Replayed
    ensures { result ≡ replay_answer (planter mode jobs.now) horizon schedule.now }
{
    zsrm::replay(mode, &TABLE, jobs, horizon, schedule)
}

// The verdict on a job from a record, such as a run or a replay returns; refusals 5 to 8, 11, 13.
pub fn verdict(rec: Record, mode: Mode, jobs: &[u32], job: u32) -> Result<Verdict, Refusal>
    ensures { result ≡ verdict_answer (planter mode jobs.now) rec job }
{
    zsrm::verdict(rec, mode, &TABLE, jobs, job)
}

// Every job's verdict at once: what `verdict` answers for each job number below 64; refusals 5 to 8, 11.
pub fn verdicts(rec: Record, mode: Mode, jobs: &[u32]) -> Verdicts
    ensures { result ≡ verdicts_answer (planter mode jobs.now) rec }
{
    zsrm::verdicts(rec, mode, &TABLE, jobs)
}

// Whether a claimed schedule is a witness that the job missed though every strictly more critical job keeps to its C; refusals 5 to 10, 13.
pub fn witness(
    mode: Mode,
    jobs: &[u32],
    horizon: u32,
    schedule: &[u16],
    job: u32,
) -> Result<Witness, Refusal>
    ensures { result ≡ witness_answer (planter mode jobs.now) horizon schedule.now job }
{
    zsrm::witness(mode, &TABLE, jobs, horizon, schedule, job)
}

// The caller's own entries from a job's arrival up to its finishing instant, in a schedule that is legal; for anything else, refused input
// too, the empty part.
pub fn response<'a>(
    mode: Mode,
    jobs: &[u32],
    horizon: u32,
    schedule: &'a [u16],
    job: u32,
) -> &'a [u16]
    ensures { Shows schedule.entry.ref_ptr (response_answer (planter mode jobs.now) horizon schedule.now job) result.ref_ptr result.now }
{
    zsrm::response(mode, &TABLE, jobs, horizon, schedule, job)
}
