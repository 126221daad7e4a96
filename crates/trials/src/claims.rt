// Claims, and on each the witnesses, the parts that are shown and what it is mended to. The simulator takes the claim by stretches; what it
// holds at the claim's end decides the rest.
use crate::flight::{Replay, fly, replayed};
use crate::leap::{Fate, Way};
use crate::lines::{KINDS, Kind, change};
use crate::mends::try_mend;
use crate::runs::{FAR_JOB, alike, verdict_of};
use crate::tally::{Call, UNLIKE_OURS};
use drawn::answers::Answer;
use drawn::judge::{Fault, first, rule, schedule_fault, ticks_of};
use drawn::list::{ARRIVAL, CRITICALITY, Case, EXECUTION, Line, NOMINAL, front, no_line};
use drawn::tally::{Tally, numbers};
use std::io;

// A claimed schedule, what it is refused for, and what the simulator makes of it.
#[derive(Clone, Copy)]
pub(crate) struct Claimed<'a> {
    pub line: &'a [u16],
    pub fault: Option<Fault>,
    pub replay: Replay,
}

impl<'a> Claimed<'a> {
    pub(crate) fn new(case: Case, line: &'a [u16]) -> Claimed<'a> {
        let fault = schedule_fault(case.tasks, case.jobs, case.horizon, line.len());
        Claimed {
            line,
            fault,
            replay: replayed(case, ticks_of(fault, case.horizon), line),
        }
    }

    // What must be answered to it: a refusal, legal, or not legal at a tick.
    pub(crate) fn due(&self) -> Answer {
        match (self.fault, self.replay.bad) {
            (Some(fault), _) => fault.into(),
            (None, Some(tick)) => Answer::Numbered(tick),
            (None, None) => Answer::Legal,
        }
    }
}

// The first job that lets a witness against job j prove too much: of a task that matters more than j's, and longer than planned.
fn outsider(case: Case, j: u32) -> Option<u32> {
    let bar = case.task_of((j % 64) as usize, CRITICALITY);
    (0..64).find(|i| {
        let k = *i as usize;
        let over = case.task_of(k, NOMINAL) < case.job(k, EXECUTION);
        (k < case.job_count()) & over & (bar < case.task_of(k, CRITICALITY))
    })
}

fn witness_due(claim: Claimed, case: Case, j: u32) -> Answer {
    let due = claim.due();
    if due != Answer::Legal {
        return due;
    }
    if let Some(job) = outsider(case, j) {
        return Answer::Outside(job);
    }
    match verdict_of(claim.replay.end, case, j) {
        Answer::Ended => Answer::AcceptedEnded,
        Answer::Late { by, exact } => Answer::Late { by, exact },
        _ => Answer::NotMissed,
    }
}

// How long the part must be that is shown of a job.
fn part_length(claim: Claimed, case: Case, j: u32) -> u32 {
    let i = (j % 64) as usize;
    match claim.replay.end.jobs[i].fate {
        Fate::Finished(f) if claim.due() == Answer::Legal => {
            f.saturating_sub(case.job(i, ARRIVAL))
        }
        _ => 0,
    }
}

// A part as an answer, by its length.
fn of_part(length: usize) -> Answer {
    if length == 0 {
        Answer::Empty
    } else {
        Answer::Numbered((length % 65536) as u32)
    }
}

fn try_witness(
    rt: &impl Print,
    t: &mut Tally,
    case: Case,
    claim: Claimed,
    j: u32,
) -> io::Result<()> {
    let line = claim.line;
    let unknown = rule(case.job_count() <= (j as usize), 13);
    let mut asked = claim;
    asked.fault = first(&[claim.fault, unknown]);
    let got = zsrm::witness(case.mode, case.tasks, case.jobs, case.horizon, line, j);
    t.note(
        rt,
        Call::Witness,
        j,
        witness_due(asked, case, j),
        got.into(),
    )?;
    let part = zsrm::response(case.mode, case.tasks, case.jobs, case.horizon, line, j);
    let same = alike(part, line, case.job((j % 64) as usize, ARRIVAL) as usize);
    let due = of_part(part_length(asked, case, j) as usize);
    let got = of_part(part.len()).and_entries(same);
    t.note(rt, Call::Part, j, due, got)
}

// The witness and the part of two jobs beyond the list, and of every job before them, or of those so many apart.
fn try_witnesses(
    rt: &impl Print,
    t: &mut Tally,
    case: Case,
    claim: Claimed,
    between: usize,
) -> io::Result<()> {
    let n = case.job_count();
    try_witness(rt, t, case, claim, FAR_JOB)?;
    for j in 0..65 {
        let i = j as usize;
        if (i == n) | (i < n) & (i % (between % 64 + 1) == 0) {
            try_witness(rt, t, case, claim, j)?;
        }
    }
    Ok(())
}

// A claim of a kind, its witnesses, its parts and its mending.
fn try_claim(
    rt: &impl Print,
    t: &mut Tally,
    case: Case,
    kind: Kind,
    line: &[u16],
    own: &Line,
    between: usize,
) -> io::Result<()> {
    let before = t.differences;
    let claim = Claimed::new(case, line);
    let got = zsrm::claim(case.mode, case.tasks, case.jobs, case.horizon, line);
    t.note(rt, kind, 0, claim.due(), got.into())?;
    try_witnesses(rt, t, case, claim, between)?;
    try_mend(rt, t, case, claim, own)?;
    if !alike(line, own, 0) {
        t.add((kind, UNLIKE_OURS), 1);
    }
    if before < t.differences {
        numbers(rt, "  schedule", line)?;
    }
    Ok(())
}

// Our run is claimed always, the others where there is a tick. On a long run, where a claim costs most, there is one change.
pub(crate) fn is_claimed(kind: Kind, ticks: u32, trial: u32) -> bool {
    let one = (kind == Kind::LastOfEquals) | ((kind as u32) == 2 + trial % 6);
    (kind == Kind::OurRun) | (0 < ticks) & ((ticks <= 500) | one)
}

// Writes the claim of a kind; every other time the last four are made to the run that takes the last of equals.
pub(crate) fn make_claim(case: Case, kind: Kind, ticks: u32, line: &mut Line) {
    let n = (case.job_count() % 128) as u32;
    let other = (Kind::ExchangedFrom < kind) & (case.trial % 2 == 1);
    let way = if other | (kind == Kind::LastOfEquals) {
        Way::Last
    } else {
        Way::Our(case.tie)
    };
    fly(case, ticks, way, line);
    change(line, kind, case.trial, n, ticks);
}

pub(crate) fn try_claims(
    rt: &impl Print,
    t: &mut Tally,
    case: Case,
    own: &Line,
    ticks: u32,
    between: usize,
) -> io::Result<()> {
    let mut line = no_line();
    for kind in KINDS {
        if is_claimed(kind, ticks, case.trial) {
            make_claim(case, kind, ticks, &mut line);
            try_claim(rt, t, case, kind, front(&line, case.room), own, between)?;
        }
    }
    Ok(())
}
