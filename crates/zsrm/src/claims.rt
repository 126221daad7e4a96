// Document 01, "Legal schedules": a claimed schedule replayed from instant to instant, up to the least tick that is not legal.
ghost use Rattle.std.specs.Prelude.{◌≡◌, true, ◌+◌, ◌≤◌, length};
ghost use Rattle.tables.specs.Outcomes.{Done};
ghost use Rattle.tables.specs.Tables.{job_count, lists};
ghost use Rattle.tables.specs.Refusals.{check_lists};
ghost use Rattle.zsrm.specs.Legal.{is_finished_at, scheduling_instant};
ghost use Rattle.zsrm.specs.Code.Claims.{WalkedAs, instant_at};
ghost use Rattle.zsrm.specs.Code.Underway.{repeated};
ghost use Rattle.zsrm.specs.Given.{given};
ghost use Rattle.zsrm.specs.Answers.{claim_answer, replay_answer};

use crate::answers::{Claim, Replayed};
use crate::gather::gathered;
use crate::leap::{ahead, leap, started};
use crate::look;
use crate::look::look;
use crate::mode::{Mode, is_se};
use crate::record::{Place, Record, Standing, fresh_record};
use tables::{Refusal, check_schedule, job_at, job_count, nominal_of, zero_slack_instant};

// Whether the standing is finished, at the instant t.
fn is_finished_at(t: u32, standing: Standing) -> bool
    ensures { result ≡ is_finished_at t standing }
{
    matches!(standing, Standing::Finished(f) if f as u32 == t)
}

// Whether a job, at its place, makes tick t a scheduling instant.
fn is_instant_by(
    se: bool,
    last: u16,
    t: u32,
    j: u32,
    place: Place,
    tasks: &[u32],
    jobs: &[u32],
) -> bool
    ensures { result ≡ instant_at (lists tasks.now jobs.now) se last t j place }
{
    let job = job_at(jobs, j);
    let reached = se & ((last as u32) == j) & ((place.done as u32) == nominal_of(tasks, jobs, j));
    (job.arrival == t)
        | is_finished_at(t, place.standing)
        | (zero_slack_instant(tasks, jobs, j) == (t as u64))
        | reached
}

// Whether the record's tick is a scheduling instant, the entry before it being the one that the record keeps.
pub(crate) fn is_instant(rec: Record, mode: Mode, tasks: &[u32], jobs: &[u32]) -> bool
    requires { job_count jobs.now ≤ 64 }
    ensures { result ≡ scheduling_instant (given mode tasks.now jobs.now) rec rec.previous }
{
    let n = job_count(jobs);
    let se = is_se(mode);
    let t = rec.tick;
    let last = rec.previous;
    for j in 0..n {
        if is_instant_by(se, last, t, j as u32, rec.places[j], tasks, jobs) {
            return true;
        }
    }
    false
}

// As far as a schedule repeats the entry from t on, at most so many ticks.
fn repeats(schedule: &[u16], t: usize, most: u32, entry: u16) -> u32
    requires { t + most ≤ length schedule.now }
    ensures { result ≡ repeated schedule.now t entry most }
{
    for i in 0..most {
        if schedule[t + i as usize] != entry {
            return i;
        }
    }
    most
}

// How many entries of a schedule are legal, up to the first that is not, and the record there.
#[derive(Clone, Copy)]
pub(crate) struct Walked {
    pub ticks: u32,
    pub record: Record,
}

// A whole schedule replayed, up to the least tick that is not legal. At each instant its entry is looked at anew, also where it goes on;
// between two of them it is legal exactly where it is the one before.
pub(crate) fn walk(mode: Mode, tasks: &[u32], jobs: &[u32], schedule: &[u16]) -> Walked
    requires { (check_lists (lists tasks.now jobs.now) ≡ Done) × (length schedule.now ≤ 16384) }
    ensures { WalkedAs (given mode tasks.now jobs.now) schedule.now result }
{
    let g = gathered(tasks, jobs);
    let n = job_count(jobs);
    let mut s = started(fresh_record(jobs), n, &g);
    let mut t: usize = 0;
    // a turn takes a whole stretch of ticks, as many as nothing happens in, so t goes over no range
    while t < schedule.len() {
        let entry = schedule[t];
        let rec = s.record;
        let se = is_se(mode);
        let seen = look(s.alive, rec.tick, &g);
        if look::is_top_or_idle(seen, entry, n, &g) {
            let most = (schedule.len() - t) as u32;
            let far = ahead(s, se, entry, most, n, &g);
            let k = repeats(schedule, t, far.ticks, entry);
            s = leap(s, seen, se, entry, k, far.early, n, &g);
            t += k as usize;
            if k < far.ticks {
                return Walked {
                    ticks: t as u32,
                    record: s.record,
                };
            }
        } else {
            return Walked {
                ticks: t as u32,
                record: rec,
            };
        }
    }
    Walked {
        ticks: t as u32,
        record: s.record,
    }
}

// A claimed schedule replayed: the claim check's own answer, and the record at the schedule's end where it is legal, else the blank one;
// refusals 2 to 10.
pub fn replay(mode: Mode, tasks: &[u32], jobs: &[u32], horizon: u32, schedule: &[u16]) -> Replayed
    ensures { result ≡ replay_answer (given mode tasks.now jobs.now) horizon schedule.now }
{
    match check_schedule(tasks, jobs, horizon, schedule.len()) {
        Ok(()) => {
            let walked = walk(mode, tasks, jobs, schedule);
            if (walked.ticks as usize) == schedule.len() {
                Replayed {
                    claim: Ok(Claim::Legal),
                    record: walked.record,
                }
            } else {
                Replayed {
                    claim: Ok(Claim::NotLegal(walked.ticks)),
                    record: Record::blank(),
                }
            }
        }
        Err(refusal) => Replayed {
            claim: Err(refusal),
            record: Record::blank(),
        },
    }
}

// Whether a claimed schedule is legal, or the least tick at which it is not; refusals 2 to 10.
pub fn claim(
    mode: Mode,
    tasks: &[u32],
    jobs: &[u32],
    horizon: u32,
    schedule: &[u16],
) -> Result<Claim, Refusal>
    ensures { result ≡ claim_answer (given mode tasks.now jobs.now) horizon schedule.now }
{
    replay(mode, tasks, jobs, horizon, schedule).claim
}
