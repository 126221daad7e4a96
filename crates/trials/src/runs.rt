// Runs, fresh records, steps and verdicts, against the simulator. All that a call gives is compared: the outcome, every entry of the lent
// list, the words, the record at all 64 places. A refused call must leave the list as it was, answer a blank record, and 0 for every
// number.
use crate::flight::{entry_of, fly};
use crate::leap::{Fate, Sim, Way};
use crate::records::{begin, consistent, holds, taken_up};
use crate::tally::{
    AFTER, BUSY_TICKS, Call, ENDING, IDLE_TICKS, LATE_TURNS, LONGEST, NO_TICK, TIES_DIFFER_LOWEST,
    TIES_DIFFER_STAYING,
};
use drawn::answers::Answer;
use drawn::judge::{Fault, first, lists_fault, refusal, rule, ticks_of};
use drawn::list::{ARRIVAL, Case, DEADLINE, IDLE, KEPT, Line, front, lent, no_line};
use drawn::tally::Tally;
use std::io;
use zsrm::{Record, Refusal, Stepped, Tie, Verdict};

// Whether the entries of a list are those of another from a place on.
pub(crate) fn alike(got: &[u16], want: &[u16], from: usize) -> bool {
    let start = from.min(want.len());
    got == front(&want[start..], got.len())
}

// The case that a record is to hold: without jobs where the call is refused.
pub(crate) fn held<'a>(case: Case<'a>, fault: Option<Fault>) -> Case<'a> {
    if fault.is_none() {
        case
    } else {
        case.with_jobs(&[])
    }
}

// A run that must be refused for a fault or leave the entries that the simulator writes, up to a horizon that is 0 where it is refused. Its
// record is the answer.
pub(crate) fn try_run(
    rt: &impl Print,
    t: &mut Tally,
    case: Case,
    fault: Option<Fault>,
    own: &mut Line,
) -> io::Result<Record> {
    let held = held(case, fault);
    let end = fly(held, ticks_of(fault, case.horizon), Way::Our(case.tie), own);
    let mut line = no_line();
    let ran = zsrm::run(
        case.mode,
        case.tie,
        case.tasks,
        case.jobs,
        case.horizon,
        lent(&mut line, case.room),
    );
    let got = Answer::from(ran.outcome)
        .and_entries(front(&line, case.room) == front(own, case.room))
        .and_record(holds(ran.record, held.jobs, end));
    t.note(rt, Call::Run, 0, refusal(fault), got)?;
    Ok(ran.record)
}

// The idle and the busy ticks of a run, and how often another entry follows in the last 4,096 of 16,384 ticks.
pub(crate) fn count_ticks(t: &mut Tally, line: &Line, ticks: u32) {
    let mut last = KEPT;
    if ticks == 0 {
        t.add(NO_TICK, 1);
    }
    if ticks == 16384 {
        t.add(LONGEST, 1);
    }
    for (i, entry) in front(line, ticks as usize).iter().enumerate() {
        let what = match *entry {
            IDLE => IDLE_TICKS,
            _ => BUSY_TICKS,
        };
        t.add(what, 1);
        if (12288 <= i) & (last != *entry) {
            t.add(LATE_TURNS, 1);
        }
        last = *entry;
    }
}

// The fresh record, from any record.
pub(crate) fn try_fresh(
    rt: &impl Print,
    t: &mut Tally,
    case: Case,
    stale: Record,
) -> io::Result<Record> {
    let ran = stale.fresh(case.tasks, case.jobs);
    let fault = lists_fault(case.tasks, case.jobs);
    let held = held(case, fault);
    let same = holds(ran.record, held.jobs, begin(held.jobs));
    let got = Answer::from(ran.outcome).and_record(same);
    t.note(rt, Call::Fresh, 0, refusal(fault), got)?;
    Ok(ran.record)
}

// What a step comes to: its outcome, where the entry, the words and the record are as they must be.
fn step_told(got: Stepped, s: Sim, case: Case) -> Answer {
    let ready = s.ready(case);
    let x = s.chosen(case, Way::Our(case.tie));
    let next = s.leap(case, x, s.now % 65536 + 1);
    let words = (got.ready == ready.word) & (got.ones == ready.ones) & (got.ended == next.cut);
    Answer::from(got.outcome)
        .and_entries(got.entry == entry_of(x))
        .and_words(words)
        .and_record(holds(got.record, case.jobs, next))
}

fn refused_told(got: Stepped) -> Answer {
    Answer::from(got.outcome)
        .and_entries(got.entry == 0)
        .and_words((got.ready == 0) & (got.ones == 0) & (got.ended == 0))
        .and_record(holds(got.record, &[], begin(&[])))
}

// What stood before a step: where the ways to choose differ, and what the job before has come to.
fn count_before(t: &mut Tally, case: Case, s: Sim) {
    let stay = s.chosen(case, Way::Our(Tie::Stay));
    if stay != s.chosen(case, Way::Our(Tie::Lowest)) {
        let what = match case.tie {
            Tie::Lowest => TIES_DIFFER_LOWEST,
            Tie::Stay => TIES_DIFFER_STAYING,
        };
        t.add(what, 1);
    }
    t.add((Call::Step, AFTER + (s.after(case) as usize)), 1);
}

// One step from any record. The record after it is the answer.
pub(crate) fn try_step(
    rt: &impl Print,
    t: &mut Tally,
    case: Case,
    rec: Record,
) -> io::Result<Record> {
    let fault = first(&[record_fault(case, rec), rule(rec.tick == 16384, 12)]);
    let stepped = rec.step(case.mode, case.tie, case.tasks, case.jobs);
    let got = if fault.is_none() {
        step_told(stepped, taken_up(rec, case.jobs), case)
    } else {
        refused_told(stepped)
    };
    t.note(rt, Call::Step, rec.tick, refusal(fault), got)?;
    if stepped.ended != 0 {
        t.add(ENDING, 1);
    }
    if fault.is_none() {
        count_before(t, case, taken_up(rec, case.jobs));
    }
    Ok(stepped.record)
}

// So many steps.
pub(crate) fn try_steps(
    rt: &impl Print,
    t: &mut Tally,
    case: Case,
    fresh: Record,
    n: u32,
) -> io::Result<()> {
    let mut rec = fresh;
    for _ in 0..n {
        rec = try_step(rt, t, case, rec)?;
    }
    Ok(())
}

// The verdict on a job at the simulator's instant.
pub(crate) fn verdict_of(s: Sim, case: Case, j: u32) -> Answer {
    let i = (j % 64) as usize;
    let now = u64::from(s.now);
    let arrival = u64::from(case.job(i, ARRIVAL));
    let due = arrival + u64::from(case.task_of(i, DEADLINE));
    if now < arrival {
        return Answer::Open;
    }
    match s.jobs[i].fate {
        Fate::Open if now < due => Answer::Open,
        Fate::Open => Answer::Late {
            by: now - due,
            exact: false,
        },
        Fate::Ended(_) => Answer::Ended,
        Fate::Finished(f) if due < u64::from(f) => Answer::Late {
            by: u64::from(f) - due,
            exact: true,
        },
        Fate::Finished(_) | Fate::Absent => Answer::Met,
    }
}

// What is wrong with lists or record.
pub(crate) fn record_fault(case: Case, rec: Record) -> Option<Fault> {
    let unfit = rule(!consistent(rec, case), 11);
    first(&[lists_fault(case.tasks, case.jobs), unfit])
}

// The verdict that must be given on a job.
fn verdict_due(fault: Option<Fault>, case: Case, s: Sim, j: u32) -> Answer {
    let unknown = rule(case.job_count() <= (j as usize), 13);
    match first(&[fault, unknown]) {
        Some(fault) => fault.into(),
        None => verdict_of(s, case, j),
    }
}

// Whether a job is missed by what must be said of it: it is neither met nor open, and nothing is refused.
fn is_missed(due: Answer) -> bool {
    !matches!(due, Answer::Met | Answer::Open | Answer::Refused { .. })
}

// The verdict that came; one that is due must say of itself, too, whether the job is missed.
pub(crate) fn came_of(verdict: Result<Verdict, Refusal>, due: Answer) -> Answer {
    let came = Answer::from(verdict);
    let missed = match verdict {
        Ok(verdict) => verdict.is_missed(),
        Err(_) => false,
    };
    came.and_words((came != due) | (missed == is_missed(due)))
}

// The verdict on a job from any record.
fn try_verdict(
    rt: &impl Print,
    t: &mut Tally,
    case: Case,
    rec: Record,
    fault: Option<Fault>,
    j: u32,
) -> io::Result<()> {
    let got = zsrm::verdict(rec, case.mode, case.tasks, case.jobs, j);
    let due = verdict_due(fault, case, taken_up(rec, case.jobs), j);
    t.note(rt, Call::Verdict, j, due, came_of(got, due))
}

// All verdicts at once, with which it is told whether the lists and the record are refused.
fn try_all(
    rt: &impl Print,
    t: &mut Tally,
    case: Case,
    rec: Record,
    fault: Option<Fault>,
) -> io::Result<()> {
    let all = zsrm::verdicts(rec, case.mode, case.tasks, case.jobs);
    let s = taken_up(rec, case.jobs);
    let told = Answer::from(all.outcome) == refusal(fault);
    for j in 0..64 {
        let due = verdict_due(fault, case, s, j);
        let got = came_of(all.of[j as usize], due).and_words(told);
        t.note(rt, Call::AllVerdicts, j, due, got)?;
    }
    Ok(())
}

// A number beyond every list, which in 16 bits would be 0.
pub(crate) const FAR_JOB: u32 = 65536;

// The verdicts on all jobs, and on two beyond the list.
pub(crate) fn try_verdicts(
    rt: &impl Print,
    t: &mut Tally,
    case: Case,
    rec: Record,
) -> io::Result<()> {
    let fault = record_fault(case, rec);
    try_all(rt, t, case, rec, fault)?;
    try_verdict(rt, t, case, rec, fault, FAR_JOB)?;
    for j in 0..=case.job_count().min(64) as u32 {
        try_verdict(rt, t, case, rec, fault, j)?;
    }
    Ok(())
}
