// Runs, from instant to instant: their entries written into the caller's list.
ghost use Rattle.std.specs.Prelude.{◌≡◌, true, ◌+◌, ◌≤◌, length, replicate};
ghost use Rattle.std.proofs.lemmas.List.Edits.{sets};
ghost use Rattle.tables.specs.Outcomes.{Done};
ghost use Rattle.tables.specs.Refusals.{check_lists};
ghost use Rattle.zsrm.specs.Record.{consistent};
ghost use Rattle.zsrm.specs.Run.{entries_by, final_by};
ghost use Rattle.zsrm.specs.Given.{given};
ghost use Rattle.zsrm.specs.Answers.{check_go_on, go_on_answer, go_on_schedule, run_answer, run_schedule};
ghost use Rattle.tables.specs.Tables.{lists};
ghost use Rattle.zsrm.specs.Tick.{choice};

use crate::answers::{Ran, or_blank};
use crate::gather::gathered;
use crate::leap::{ahead, leap, started};
use crate::look::{choice, look};
use crate::mode::{Mode, is_se};
use crate::record::{Record, check_room, check11, fresh_record, is_consistent};
use crate::tie::Tie;
use tables::{Outcome, check_lists, check_schedule, check10, job_count};

// The entry written k times, from t on.
pub(crate) fn fill(schedule: &mut [u16], t: usize, k: usize, entry: u16)
    requires { t + k ≤ length schedule.old }
    ensures { schedule.new ≡ sets schedule.old t (replicate k entry) }
{
    schedule[t..t + k].fill(entry);
}

// A run from any consistent record for as many ticks as the list has entries.
pub(crate) fn run_from(
    start: Record,
    mode: Mode,
    tie: Tie,
    tasks: &[u32],
    jobs: &[u32],
    schedule: &mut [u16],
) -> Record
    requires jobs_value { check_lists (lists tasks.now jobs.now) ≡ Done }
    requires start_value { (consistent (given mode tasks.now jobs.now) start ≡ true) × (start.tick + length schedule.old ≤ 16384) }
    ensures ends { result ≡ final_by (given mode tasks.now jobs.now)
        (choice (given mode tasks.now jobs.now) tie) start (length schedule.old) }
    ensures writes { schedule.new ≡ entries_by (given mode tasks.now jobs.now)
        (choice (given mode tasks.now jobs.now) tie) start (length schedule.old) }
{
    let g = gathered(tasks, jobs);
    let n = job_count(jobs);
    let mut s = started(start, n, &g);
    let mut t: usize = 0;
    // a turn takes a whole stretch of ticks, as many as nothing happens in, so t goes over no range
    while t < schedule.len() {
        let rec = s.record;
        let se = is_se(mode);
        let seen = look(s.alive, rec.tick, &g);
        let entry = choice(seen, tie, rec.previous, n, &g);
        let most = (schedule.len() - t) as u32;
        let far = ahead(s, se, entry, most, n, &g);
        let k = far.ticks;
        fill(schedule, t, k as usize, entry);
        s = leap(s, seen, se, entry, k, far.early, n, &g);
        t += k as usize;
    }
    s.record
}

// Our run from the fresh record, its entries written into the caller's list; refusals 2 to 10, the list then keeping its entries.
pub fn run(
    mode: Mode,
    tie: Tie,
    tasks: &[u32],
    jobs: &[u32],
    horizon: u32,
    schedule: &mut [u16],
) -> Ran
    ensures answers { result ≡ run_answer (given mode tasks.now jobs.now) tie horizon schedule.old }
    ensures writes { schedule.new ≡ run_schedule (given mode tasks.now jobs.now) tie horizon schedule.old }
{
    let outcome = check_schedule(tasks, jobs, horizon, schedule.len());
    match outcome {
        Ok(()) => {
            let made = run_from(fresh_record(jobs), mode, tie, tasks, jobs, schedule);
            or_blank(outcome, made)
        }
        Err(_) => or_blank(outcome, Record::blank()),
    }
}

// What going on checks of its input: 2 to 8, 10, 11, 12.
#[tactic(auto, unfolding(crate::specs::Answers::check_go_on, tables::specs::Refusals::before))]
fn check_go_on(
    rec: Record,
    mode: Mode,
    tasks: &[u32],
    jobs: &[u32],
    ticks: u32,
    entries: usize,
) -> Outcome
    ensures { result ≡ check_go_on (given mode tasks.now jobs.now) rec ticks entries }
{
    check_lists(tasks, jobs)?;
    check10(entries, ticks)?;
    check11(is_consistent(rec, mode, tasks, jobs))?;
    check_room(rec.tick, ticks)
}

impl Record {
    // Our run from this record on, for as many ticks as are asked for, its entries written into the caller's list; refusals 2 to 8, 10
    // to 12, the list then keeping its entries.
    pub fn go_on(
        self,
        mode: Mode,
        tie: Tie,
        tasks: &[u32],
        jobs: &[u32],
        ticks: u32,
        schedule: &mut [u16],
    ) -> Ran
        ensures answers { result ≡ go_on_answer (given mode tasks.now jobs.now) tie self ticks schedule.old }
        ensures writes { schedule.new ≡ go_on_schedule (given mode tasks.now jobs.now) tie self ticks schedule.old }
    {
        let outcome = check_go_on(self, mode, tasks, jobs, ticks, schedule.len());
        match outcome {
            Ok(()) => {
                let made = run_from(self, mode, tie, tasks, jobs, schedule);
                or_blank(outcome, made)
            }
            Err(_) => or_blank(outcome, Record::blank()),
        }
    }
}
