// Days of the planter: its runs and verdicts against the simulator's, what is promised of down-force, and admissions against two separate
// runs of the simulator.
use crate::flight::fly;
use crate::leap::{Sim, Way};
use crate::records::holds;
use crate::runs::{came_of, held, verdict_of};
use crate::tally::{CHANGED, Call, TO_ENDED};
use drawn::answers::Answer;
use drawn::draw::draw;
use drawn::inputs::{Input, Size, make_day};
use drawn::judge::{Fault, refusal, schedule_fault, ticks_of};
use drawn::list::{ARRIVAL, Case, EXECUTION, Line, List, OWNER, at, front, job, lent, no_line};
use drawn::tally::Tally;
use planter::{Admission, Change};
use std::io;
use zsrm::{Mode, Record, Standing, Tie};

// Down-force, depth, log: the numbers of the request.
const DOWN_FORCE_DEPTH_LOG: [u32; 21] = [
    20, 20, 4, 8, 3, 2, 12, 10, 10, 3, 4, 2, 3, 6, 40, 40, 6, 6, 1, 1, 30,
];

// The way of the planter's runs.
const STAYING: Way = Way::Our(Tie::Stay);

// The three tasks at one time, down-force taking more than its nominal time, and a horizon somewhat after its zero-slack instant.
fn full_day(tasks: List, trial: u32, mode: Mode) -> Input {
    let a = draw(trial, 140, 30);
    let log = a % 64 + draw(trial, 145, 3) % 64;
    let horizon = a % 64 + 12 + draw(trial, 147, 14) % 64;
    let mut jobs = List::new();
    jobs.extend(&[0, a, 5 + draw(trial, 143, 4)]);
    jobs.extend(&[1, a, 1 + draw(trial, 144, 4)]);
    jobs.extend(&[2, log, 3 + draw(trial, 146, 4)]);
    Input {
        mode,
        horizon,
        room: horizon as usize,
        tasks,
        jobs,
    }
}

// A day: every other one full, else up to 15 jobs of the three tasks by lot, or 62 to 64; now and then too long a horizon, another number of
// entries, a job list without its last number, or a job that runs for too long.
pub(crate) fn a_day(trial: u32, mode: Mode) -> Input {
    let tasks = List::from(DOWN_FORCE_DEPTH_LOG.as_slice());
    let size = Size {
        tasks: 3,
        jobs: match draw(trial, 8, 8) {
            0 => 62 + draw(trial, 9, 3),
            _ => draw(trial, 9, 16),
        },
        period: 1,
        range: 1,
        gap: 9,
        horizon: 500,
    };
    let mut day = if trial % 2 == 0 {
        full_day(tasks, trial, mode)
    } else {
        make_day(tasks, trial, mode, size)
    };
    let jobs = day.jobs;
    let n = jobs.len();
    match draw(trial, 110, 40) {
        0 => day.horizon = 16385,
        1 => day.room = day.room % 65536 + 1,
        2 => day.jobs = jobs.with_len(if n == 0 { 1 } else { n - 1 }),
        3 => day.jobs = jobs.with(2, 9),
        _ => {}
    }
    day
}

// What is promised of a down-force job that is due by the horizon: it is met and not missed, it finished by its arrival + 12 + its execution
// time, and it was never suspended.
fn try_promise(
    rt: &impl Print,
    t: &mut Tally,
    case: Case,
    rec: Record,
    line: &[u16],
    i: u32,
) -> io::Result<()> {
    let j = (i % 64) as usize;
    let a = u64::from(case.job(j, ARRIVAL));
    let by = a + 12 + u64::from(case.job(j, EXECUTION));
    let place = rec.places[j];
    if (a + 20 <= u64::from(case.horizon)) & (case.job(j, OWNER) == 0) {
        let verdict = planter::verdict(rec, case.mode, case.jobs, i);
        let witness = planter::witness(case.mode, case.jobs, case.horizon, line, i);
        let timely = match place.standing {
            Standing::Finished(f) => u64::from(f) <= by,
            _ => false,
        };
        let got = came_of(verdict, Answer::Met)
            .and_words(Answer::from(witness) == Answer::NotMissed)
            .and_record(timely & (place.suspended == 0));
        t.note(rt, Call::Promised, i, Answer::Met, got)?;
    }
    Ok(())
}

// The verdicts on the jobs of a day that is done, and what is promised.
fn try_jobs(
    rt: &impl Print,
    t: &mut Tally,
    case: Case,
    rec: Record,
    line: &[u16],
    end: Sim,
) -> io::Result<()> {
    let judged = planter::verdicts(rec, case.mode, case.jobs);
    let told = Answer::from(judged.outcome) == Answer::Done;
    for j in 0..case.job_count().min(64) {
        let i = j as u32;
        let due = verdict_of(end, case, i);
        let got = came_of(judged.of[j], due).and_words(told);
        t.note(rt, Call::DayVerdict, i, due, got)?;
        try_promise(rt, t, case, rec, line, i)?;
    }
    Ok(())
}

// A list of jobs, and where the simulator's run of it ends.
#[derive(Clone, Copy)]
struct Flown<'a> {
    case: Case<'a>,
    end: Sim,
}

impl Flown<'_> {
    // The verdict that must be given on a job, or what must be given where the list has no such job.
    fn verdict(&self, job: u32, none: Answer) -> Answer {
        if (job as usize) < self.case.job_count() {
            verdict_of(self.end, self.case, job)
        } else {
            none
        }
    }
}

// The change of one job, by the simulator: 13 where a list has no such job; 0 in a refused admission, of which both lists come empty.
fn try_change(
    rt: &impl Print,
    t: &mut Tally,
    without: Flown,
    with: Flown,
    change: Change,
    job: u32,
) -> io::Result<()> {
    let none = Answer::Refused {
        number: if with.case.jobs.is_empty() { 0 } else { 13 },
        place: 0,
    };
    let own = without.verdict(job, none);
    let new = with.verdict(job, none);
    let right = (came_of(change.before, own) == own) & (came_of(change.after, new) == new);
    let got = Answer::Done.and_record(right);
    t.note(rt, Call::Day, job, Answer::Done, got)?;
    if ((job as usize) < without.case.job_count()) & (own != new) {
        t.add(CHANGED, 1);
        if new == Answer::Ended {
            t.add(TO_ENDED, 1);
        }
    }
    Ok(())
}

// The list with one more job: most often a depth job that fits, else one of any task, or of none, that may come too soon or run for too long.
fn offered(trial: u32, jobs: &[u32]) -> List {
    let n = jobs.len() / 3;
    let last = if 0 < n { job(jobs, n - 1, ARRIVAL) } else { 0 };
    let after = last % 65536;
    let kind = draw(trial, 112, 6);
    let k = match kind {
        0 | 1 => draw(trial, 114, 4),
        _ => 1,
    };
    let arrival = match kind {
        0 => (after + draw(trial, 113, 12) % 64).saturating_sub(1),
        _ => after + 10 + draw(trial, 113, 3) % 64,
    };
    let work = match kind {
        1 => draw(trial, 115, 10),
        _ => 1 + draw(trial, 115, 4),
    };
    let mut list = List::from(jobs);
    list.extend(&[k, arrival, work]);
    list
}

// What the simulator makes of a list, or of none where it is refused.
fn fly_held<'a>(case: Case<'a>, fault: Option<Fault>, line: &mut Line) -> Flown<'a> {
    let case = held(case, fault);
    Flown {
        case,
        end: fly(case, ticks_of(fault, case.horizon), STAYING, line),
    }
}

// One more job is offered.
fn try_admission(rt: &impl Print, t: &mut Tally, case: Case) -> io::Result<()> {
    let list = offered(case.trial, case.jobs);
    let longer = list.as_slice();
    let n = case.jobs.len() % 65536;
    let h = case.horizon;
    let (k, arrival, work) = (at(longer, n), at(longer, n + 1), at(longer, n + 2));
    let fault = schedule_fault(case.tasks, longer, h, h as usize);
    let got = planter::admit(case.mode, case.jobs, h, k, arrival, work);
    let mut line = no_line();
    let without = fly_held(case, fault, &mut line);
    let with = fly_held(case.with_jobs(longer), fault, &mut line);
    let counted = (got.count as usize) == with.case.job_count();
    let answer = Answer::from(got.outcome).and_words(counted);
    t.note(rt, Call::Admit, k, refusal(fault), answer)?;
    for j in 0..64 {
        let change = got.changes[j as usize];
        try_change(rt, t, without, with, change, j)?;
    }
    Ok(())
}

// One day: its run, its verdicts, and one more job.
pub(crate) fn try_day(rt: &impl Print, t: &mut Tally, case: Case) -> io::Result<()> {
    let fault = schedule_fault(case.tasks, case.jobs, case.horizon, case.room);
    let mut own = no_line();
    let mut line = no_line();
    let due = fly_held(case, fault, &mut own);
    let room = lent(&mut line, case.room);
    let ran = planter::run(case.mode, case.jobs, case.horizon, room);
    let got = Answer::from(ran.outcome)
        .and_entries(front(&line, case.room) == front(&own, case.room))
        .and_record(holds(ran.record, due.case.jobs, due.end));
    t.note(rt, Call::Day, 0, refusal(fault), got)?;
    if fault.is_none() {
        try_jobs(rt, t, case, ran.record, front(&own, case.room), due.end)?;
    }
    try_admission(rt, t, case)
}
