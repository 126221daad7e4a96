// A day's admission: offered one more job, whether the list with that job appended is accepted, and how every verdict at the horizon
// changes. No schedule is kept: either list's run goes on from its fresh record 64 ticks at a time.
ghost use Rattle.std.specs.Prelude.{◌≡◌, ◌+◌, ◌<◌, ◌≤◌, length, take};
ghost use Rattle.bits.specs.Below.{list_from};
ghost use Rattle.tables.specs.Outcomes.{Done};
ghost use Rattle.tables.specs.Tables.{lists};
ghost use Rattle.tables.specs.Refusals.{check_schedule};
ghost use Rattle.zsrm.specs.declared.tie.Tie.{Tie};
ghost use Rattle.zsrm.specs.Run.{run_record};
ghost use Rattle.planter.specs.Table.{planter, table};
ghost use Rattle.planter.specs.Admission.{appended};
ghost use Rattle.planter.specs.Answers.{admission, admit_answer, refused_admission};
ghost use Rattle.planter.specs.Code.{OnTheWay, change_of};

use crate::answers::{Admission, Change};
use crate::calls::{fresh, go_on, verdicts};
use crate::tasks::TABLE;
use tables::{check_lists, check9, job_count};
use zsrm::{Mode, Outcome, Record, Refusal, Verdicts};

// A refused admission counts no job, and every change is blank.
#[tactic(auto, unfolding(crate::specs::Answers::refused_admission))]
fn refused_admission(refusal: Refusal) -> Admission
    ensures { result ≡ refused_admission refusal.number refusal.place }
{
    let none = Err(Refusal {
        number: 0,
        place: 0,
    });
    let blank = Change {
        before: none,
        after: none,
    };
    Admission {
        outcome: Err(refusal),
        count: 0,
        changes: [blank; 64],
    }
}

// What a run is refused with whose schedule is as long as the horizon.
fn check_run(jobs: &[u32], horizon: u32) -> Outcome
    ensures { result ≡ check_schedule (lists table jobs.now) horizon horizon }
{
    check_lists(&TABLE, jobs)?;
    check9(horizon)
}

// How many of the ticks that are left go into one piece.
fn piece(left: u32) -> u32
    requires { 0 < left }
    ensures { (0 < result) × (result ≤ left) × (result ≤ 64) }
{
    left.min(64)
}

// Our run's record one piece nearer to the horizon.
fn run_on(rec: Record, mode: Mode, jobs: &[u32], horizon: u32) -> Record
    requires horizon_value { check_schedule (lists table jobs.now) horizon horizon ≡ Done }
    requires on_the_way { OnTheWay (planter mode jobs.now) horizon rec × (rec.tick < horizon) }
    ensures { OnTheWay (planter mode jobs.now) horizon result × (rec.tick < result.tick) }
{
    let mut part = [0u16; 64];
    let ticks = piece(horizon - rec.tick);
    let n = ticks as usize;
    let ran = go_on(rec, mode, jobs, ticks, &mut part[..n]);
    ran.record
}

// The record of our run of an accepted list at the horizon.
fn run_to(mode: Mode, jobs: &[u32], horizon: u32) -> Record
    requires { check_schedule (lists table jobs.now) horizon horizon ≡ Done }
    ensures { result ≡ run_record (planter mode jobs.now) Tie.Stay horizon }
{
    let mut rec = fresh(jobs).record;
    // no `for`, as the record tells how far the run is; and by way of `next`: a record that goes right into `rec` gets no proof yet
    while rec.tick < horizon {
        let next = run_on(rec, mode, jobs, horizon);
        rec = next;
    }
    rec
}

// The change of every job number, from all verdicts on either list.
fn changed(count: u32, old: Verdicts, new: Verdicts) -> Admission
    ensures { result ≡ record { outcome = Done; count = count; changes = list_from 0 64 (change_of old new) } }
{
    let mut out = refused_admission(Refusal {
        number: 0,
        place: 0,
    });
    for j in 0..64 {
        out.changes[j] = Change {
            before: old.of[j],
            after: new.of[j],
        };
    }
    Admission {
        outcome: Ok(()),
        count,
        changes: out.changes,
    }
}

// The caller's list with the offered job appended, where there is room for it; zeros behind it.
fn append_job(jobs: &[u32], task: u32, arrival: u32, execution: u32) -> [u32; 192]
    requires { length jobs.now + 3 ≤ 192 }
    ensures long { length result ≡ 192 }
    ensures holds { take (length jobs.now + 3) result ≡ appended jobs.now task arrival execution }
{
    let mut out = [0u32; 192];
    let at = jobs.len();
    out[..at].copy_from_slice(jobs);
    out[at..at + 3].copy_from_slice(&[task, arrival, execution]);
    out
}

// The admission where both lists are accepted: all verdicts at the horizon, asked once per list.
fn compared(mode: Mode, jobs: &[u32], longer: &[u32], horizon: u32) -> Admission
    requires horizon_value { check_schedule (lists table jobs.now) horizon horizon ≡ Done }
    requires horizon_value_2 { check_schedule (lists table longer.now) horizon horizon ≡ Done }
    ensures { result ≡ admission mode jobs.now longer.now horizon }
{
    let old = verdicts(run_to(mode, jobs, horizon), mode, jobs);
    let new = verdicts(run_to(mode, longer, horizon), mode, longer);
    changed(job_count(longer) as u32, old, new)
}

// The admission from a list to a longer one, which is accepted only where the list itself is.
fn weighed(mode: Mode, jobs: &[u32], longer: &[u32], horizon: u32) -> Admission
    requires { check_schedule (lists table longer.now) horizon horizon ≡ Done → check_schedule (lists table jobs.now) horizon horizon ≡ Done }
    ensures { result ≡ admission mode jobs.now longer.now horizon }
{
    match check_run(longer, horizon) {
        Ok(()) => compared(mode, jobs, longer, horizon),
        Err(refusal) => refused_admission(refusal),
    }
}

// Whether the list with one more job is accepted at the horizon, and how every verdict there changes; refusals 5 to 9, those of a run of the
// longer list. A list with no room for the job is 5.
pub fn admit(
    mode: Mode,
    jobs: &[u32],
    horizon: u32,
    task: u32,
    arrival: u32,
    execution: u32,
) -> Admission
    ensures { result ≡ admit_answer mode jobs.now horizon task arrival execution }
{
    if 189 < jobs.len() {
        return refused_admission(Refusal {
            number: 5,
            place: 0,
        });
    }
    let longer = append_job(jobs, task, arrival, execution);
    let n = jobs.len() + 3;
    weighed(mode, jobs, &longer[..n], horizon)
}
