// Document 01, verdicts: of one job, and of all at once, from a record.
ghost use Rattle.std.specs.Prelude.{◌≡◌, ◌-◌, ◌<◌, length};
ghost use Rattle.tables.specs.Outcomes.{Refused};
ghost use Rattle.tables.specs.Refusals.{before, check13, unless};
ghost use Rattle.tables.specs.Tables.{deadline_instant, lists};
ghost use Rattle.zsrm.specs.Verdict.{judged, verdict};
ghost use Rattle.zsrm.specs.Given.{given};
ghost use Rattle.zsrm.specs.Answers.{check_verdict, check_verdicts, verdict_answer, verdicts_answer};

use crate::answers::{Verdict, Verdicts};
use crate::mode::Mode;
use crate::record::{Record, Standing, check11, is_consistent};
use tables::{Outcome, Refusal, check_lists, check13, deadline_instant};

// From the deadline's instant to another; 0 where that lies before it.
fn lateness(due: u64, at: u32) -> u32
    ensures { result ≡ at - due }
{
    (at as u64).saturating_sub(due) as u32
}

// The verdict by a job's standing at the instant h, due being its arrival + D.
fn judge_standing(due: u64, h: u32, standing: Standing) -> Verdict
    ensures { result ≡ judged due h standing }
{
    match standing {
        Standing::NotArrived => Verdict::Open,
        Standing::Unfinished => {
            if due <= h as u64 {
                Verdict::Late(lateness(due, h), false)
            } else {
                Verdict::Open
            }
        }
        Standing::Finished(f) => {
            if f as u64 <= due {
                Verdict::Met
            } else {
                Verdict::Late(lateness(due, f as u32), true)
            }
        }
        Standing::Ended(_) => Verdict::Ended,
    }
}

// The verdict on a job of the list from a record, at the record's own tick.
pub(crate) fn judge_at(rec: Record, tasks: &[u32], jobs: &[u32], j: u32) -> Verdict
    requires { j < 64 }
    ensures { result ≡ verdict (lists tasks.now jobs.now) rec j }
{
    judge_standing(
        deadline_instant(tasks, jobs, j),
        rec.tick,
        rec.places[j as usize].standing,
    )
}

// What all verdicts check of their input: 2 to 8, 11.
#[tactic(auto, unfolding(crate::specs::Answers::check_verdicts, tables::specs::Refusals::before))]
fn check_verdicts(rec: Record, mode: Mode, tasks: &[u32], jobs: &[u32]) -> Outcome
    ensures { result ≡ check_verdicts (given mode tasks.now jobs.now) rec }
{
    check_lists(tasks, jobs)?;
    check11(is_consistent(rec, mode, tasks, jobs))
}

// What a verdict checks of its input: 2 to 8, 11, 13.
#[tactic(auto, unfolding(crate::specs::Answers::check_verdicts, crate::specs::Answers::check_verdict, tables::specs::Refusals::before))]
fn check_verdict(rec: Record, mode: Mode, tasks: &[u32], jobs: &[u32], j: u32) -> Outcome
    ensures { result ≡ check_verdict (given mode tasks.now jobs.now) rec j }
{
    check_verdicts(rec, mode, tasks, jobs)?;
    check13(jobs, j)
}

// The verdict on a job from a record, such as a run or a replay returns; refusals 2 to 8, 11, 13.
pub fn verdict(
    rec: Record,
    mode: Mode,
    tasks: &[u32],
    jobs: &[u32],
    job: u32,
) -> Result<Verdict, Refusal>
    ensures { result ≡ verdict_answer (given mode tasks.now jobs.now) rec job }
{
    check_verdict(rec, mode, tasks, jobs, job)?;
    Ok(judge_at(rec, tasks, jobs, job))
}

// One of all verdicts, where the lists and the record have been checked: by the standing at place j, at tick t.
fn judged_at(
    checked: Outcome,
    standing: Standing,
    t: u32,
    tasks: &[u32],
    jobs: &[u32],
    j: u32,
) -> Result<Verdict, Refusal>
    ensures { result ≡ unless (before checked (check13 jobs.now j)) Refused (Ok (judged (deadline_instant (lists tasks.now jobs.now) j) t standing)) }
{
    checked?;
    check13(jobs, j)?;
    Ok(judge_standing(deadline_instant(tasks, jobs, j), t, standing))
}

// Room for all verdicts, with what their checks found.
fn no_verdicts(outcome: Outcome) -> Verdicts
    ensures told { result.outcome ≡ outcome }
    ensures long { length result.of ≡ 64 }
{
    Verdicts {
        outcome,
        of: [Ok(Verdict::Open); 64],
    }
}

// Every job's verdict at once: what `verdict` answers for each job number below 64; the checks are made once; refusals 2 to 8, 11.
pub fn verdicts(rec: Record, mode: Mode, tasks: &[u32], jobs: &[u32]) -> Verdicts
    ensures { result ≡ verdicts_answer (given mode tasks.now jobs.now) rec }
{
    let checked = check_verdicts(rec, mode, tasks, jobs);
    let t = rec.tick;
    let mut all = no_verdicts(checked);
    for j in 0..64 {
        all.of[j] = judged_at(checked, rec.places[j].standing, t, tasks, jobs, j as u32);
    }
    all
}
