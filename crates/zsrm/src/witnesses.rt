// Document 01, witnesses, and the part of the caller's schedule that is shown: both replay a claimed schedule.
ghost use Rattle.std.specs.Prelude.{◌≡◌, true, ◌<◌, ◌≤◌};
ghost use Rattle.tables.specs.Tables.{arrival, job_count, lists};
ghost use Rattle.zsrm.specs.Record.{standing_at};
ghost use Rattle.zsrm.specs.Code.Claims.{FitsIn};
ghost use Rattle.zsrm.specs.Verdict.{blamed, breaks, outsider, answered, part_to, shown_by, Shows};
ghost use Rattle.zsrm.specs.Given.{given};
ghost use Rattle.zsrm.specs.Answers.{check_witness, witness_answer, response_answer};

use crate::answers::{Verdict, Witness};
use crate::claims::walk;
use crate::judging::judge_at;
use crate::mode::Mode;
use crate::record::{Record, Standing};
use tables::{
    Outcome, Refusal, check_schedule, check13, criticality_of, job_at, job_count, nominal_of,
};

// Against a job that missed a witness is accepted.
fn blame(verdict: Verdict) -> Witness
    ensures { result ≡ blamed verdict }
{
    match verdict {
        Verdict::Met => Witness::NotMissed,
        Verdict::Late(by, exact) => Witness::AcceptedLate(by, exact),
        Verdict::Ended => Witness::AcceptedEnded,
        Verdict::Open => Witness::NotMissed,
    }
}

// Whether job i breaks the assumption for job j: it is strictly more critical, and its c exceeds its C.
fn is_breaking(i: u32, j: u32, tasks: &[u32], jobs: &[u32]) -> bool
    ensures { result ≡ breaks (lists tasks.now jobs.now) j i }
{
    let job = job_at(jobs, i);
    let named = criticality_of(tasks, jobs, j);
    criticality_of(tasks, jobs, i).exceeds(named) & (nominal_of(tasks, jobs, i) < job.execution)
}

// The first job that breaks the assumption for job j, or the number of jobs.
fn first_breaking(j: u32, tasks: &[u32], jobs: &[u32]) -> u32
    requires { job_count jobs.now ≤ 64 }
    ensures { result ≡ outsider (lists tasks.now jobs.now) j }
{
    let n = job_count(jobs) as u32;
    for i in 0..n {
        if is_breaking(i, j, tasks, jobs) {
            return i;
        }
    }
    n
}

// The answers to a witness, in order; `ticks` is the length of the schedule's legal beginning, `first` the job to be named where the
// witness is outside the assumption. "Not missed" has a branch of its own, so that the order reads as document 01's.
fn answer_witness(legal: bool, ticks: u32, outside: bool, first: u32, verdict: Verdict) -> Witness
    ensures { result ≡ answered legal ticks outside first verdict }
{
    let missed = verdict.is_missed();
    if !legal {
        Witness::NotLegal(ticks)
    } else if outside {
        Witness::Outside(first)
    } else if missed {
        blame(verdict)
    } else {
        Witness::NotMissed
    }
}

// What a witness and the response part check of their input: 2 to 10, 13.
#[tactic(auto, unfolding(crate::specs::Answers::check_witness, tables::specs::Refusals::before))]
fn check_witness(tasks: &[u32], jobs: &[u32], horizon: u32, entries: usize, j: u32) -> Outcome
    ensures { result ≡ check_witness (lists tasks.now jobs.now) horizon entries j }
{
    check_schedule(tasks, jobs, horizon, entries)?;
    check13(jobs, j)
}

// Whether a claimed schedule is a witness that the job missed though every strictly more critical job keeps to its C; refusals 2 to 10, 13.
pub fn witness(
    mode: Mode,
    tasks: &[u32],
    jobs: &[u32],
    horizon: u32,
    schedule: &[u16],
    job: u32,
) -> Result<Witness, Refusal>
    ensures { result ≡ witness_answer (given mode tasks.now jobs.now) horizon schedule.now job }
{
    check_witness(tasks, jobs, horizon, schedule.len(), job)?;
    let walked = walk(mode, tasks, jobs, schedule);
    let ticks = walked.ticks;
    let verdict = judge_at(walked.record, tasks, jobs, job);
    let first = first_breaking(job, tasks, jobs);
    let outside = (first as usize) < job_count(jobs);
    let legal = (ticks as usize) == schedule.len();
    Ok(answer_witness(legal, ticks, outside, first, verdict))
}

// The entries of a finished job, from its arrival up to its finishing instant; for every other standing the empty part.
fn finished_part<'a>(standing: Standing, jobs: &[u32], j: u32, schedule: &'a [u16]) -> &'a [u16]
    requires { FitsIn (arrival jobs.now j) schedule.now standing }
    ensures { Shows schedule.entry.ref_ptr (part_to (arrival jobs.now j) schedule.now standing) result.ref_ptr result.now }
{
    let Standing::Finished(f) = standing else {
        return &schedule[0..0];
    };
    let job = job_at(jobs, j);
    let from = job.arrival as usize;
    let to = f as usize;
    &schedule[from..to]
}

// The part of a job of the list in a schedule that was replayed; empty where it is not legal.
fn replayed_part<'a>(
    legal: bool,
    rec: Record,
    jobs: &[u32],
    j: u32,
    schedule: &'a [u16],
) -> &'a [u16]
    requires { (j < 64) × (legal ≡ true → FitsIn (arrival jobs.now j) schedule.now (standing_at rec j)) }
    ensures { Shows schedule.entry.ref_ptr (shown_by legal (part_to (arrival jobs.now j) schedule.now (standing_at rec j))) result.ref_ptr result.now }
{
    let place = rec.places[j as usize];
    if legal {
        finished_part(place.standing, jobs, j, schedule)
    } else {
        &schedule[0..0]
    }
}

// The caller's own entries from a job's arrival up to its finishing instant, in a schedule that is legal; for anything else, refused
// input too, the empty part.
pub fn response<'a>(
    mode: Mode,
    tasks: &[u32],
    jobs: &[u32],
    horizon: u32,
    schedule: &'a [u16],
    job: u32,
) -> &'a [u16]
    ensures { Shows schedule.entry.ref_ptr (response_answer (given mode tasks.now jobs.now) horizon schedule.now job) result.ref_ptr result.now }
{
    match check_witness(tasks, jobs, horizon, schedule.len(), job) {
        Ok(()) => {
            let walked = walk(mode, tasks, jobs, schedule);
            let legal = (walked.ticks as usize) == schedule.len();
            replayed_part(legal, walked.record, jobs, job, schedule)
        }
        Err(_) => &schedule[0..0],
    }
}
