// The calls that are counted, and what is written of them.
use crate::lines::Kind;
use drawn::tally::Tally;
use std::io;

// The calls in the order of a report. The claims of each kind are calls of their own, 7 to 14.
#[derive(Clone, Copy)]
pub(crate) enum Call {
    Run = 1,
    Fresh,
    Step,
    Verdict,
    Witness,
    Part,
    AllVerdicts = 15,
    GoOn,
    Parts,
    Day,
    Promised,
    Admit,
    DayVerdict,
    Batch,
    BatchRun,
    Blank,
    Mend,
    Member,
    Replay,
    DayReplay,
}

impl drawn::tally::Call for Call {
    fn number(self) -> usize {
        self as usize
    }
}

impl drawn::tally::Call for Kind {
    fn number(self) -> usize {
        7 + (self as usize)
    }
}

// What is counted beside the answers, with its place behind them.
pub(crate) const IDLE_TICKS: (Call, usize) = (Call::Run, 1);

pub(crate) const BUSY_TICKS: (Call, usize) = (Call::Run, 2);

pub(crate) const NO_TICK: (Call, usize) = (Call::Run, 3);

pub(crate) const LONGEST: (Call, usize) = (Call::Run, 4);

pub(crate) const LATE_TURNS: (Call, usize) = (Call::Run, 5);

pub(crate) const ENDING: (Call, usize) = (Call::Step, 1);

pub(crate) const TIES_DIFFER_LOWEST: (Call, usize) = (Call::Step, 2);

pub(crate) const TIES_DIFFER_STAYING: (Call, usize) = (Call::Step, 3);

// The first of seven, for what the job before has come to.
pub(crate) const AFTER: usize = 4;

// The place of what a claim or a replay is counted for beside its answer.
pub(crate) const UNLIKE_OURS: usize = 2;

pub(crate) const OF_OUR_RUN: usize = 2;

pub(crate) const NO_TICK_ON: (Call, usize) = (Call::GoOn, 1);

pub(crate) const CHANGED: (Call, usize) = (Call::Admit, 1);

pub(crate) const TO_ENDED: (Call, usize) = (Call::Admit, 2);

pub(crate) const NO_RUNS: (Call, usize) = (Call::Batch, 1);

pub(crate) const ENTRIES_CHANGED: (Call, usize) = (Call::Mend, 2);

pub(crate) const MENDED_UNLIKE_OURS: (Call, usize) = (Call::Mend, 3);

pub(crate) const PREMISE_DROPPED: (Call, usize) = (Call::Member, 1);

pub(crate) const DROPPED_UNLIKE: (Call, usize) = (Call::Member, 2);

// Our run itself is claimed wherever anything is.
fn claims(rt: &impl Print, t: &Tally) -> io::Result<()> {
    let our_run = "  claim of our run legal, not legal, unlike ours:";
    let neighbours = "  claim with neighbours exchanged, or an entry repeated:";
    t.line(rt, our_run, Kind::OurRun, 3)?;
    t.line(rt, "  claim of the last of equals:", Kind::LastOfEquals, 3)?;
    t.line(rt, "  claim with jobs exchanged:", Kind::Exchanged, 3)?;
    t.line(
        rt,
        "  claim with jobs exchanged from a tick on:",
        Kind::ExchangedFrom,
        3,
    )?;
    t.line(rt, "  claim with another job:", Kind::OtherJob, 3)?;
    t.line(rt, "  claim with an idle tick:", Kind::IdleTick, 3)?;
    t.line(rt, "  claim with no job's number:", Kind::NoJob, 3)?;
    t.line(rt, neighbours, Kind::Neighbours, 3)
}

// All that a group counted, or the sum of all.
pub(crate) fn report(rt: &impl Print, t: &Tally) -> io::Result<()> {
    let run = "  run done, ticks idle, busy, runs of no tick, of 16384, turns past 12288:";
    let step =
        "  step done, ending a job, where the ties differ taking the lowest, staying; after idle, a job that may run, finished, ended, to come, suspended, lower:";
    let verdict = "  verdict met, ended, open, late by at least, by exactly:";
    let witness =
        "  witness not missed, not legal, accepted for ended, for late by at least, by exactly, outside:";
    let promised = "  down-force job due, and met, without a tick suspended:";
    let admission = "  admission done, verdicts that it changed, of them to ended:";
    let day_verdict = "  planter's verdict met, ended, open, late by at least, by exactly:";
    let mending =
        "  mending whole, changed, entries that it changed, mended to another than our run:";
    let member =
        "  member's job the same beside fewer others; compared where others may be more critical, unlike:";
    let day_replay = "  planter's replay legal, not legal, of our run:";
    t.totals(rt)?;
    t.line(rt, run, Call::Run, 6)?;
    t.line(rt, "  fresh done:", Call::Fresh, 1)?;
    t.line(rt, step, Call::Step, 11)?;
    t.line(rt, verdict, Call::Verdict, 5)?;
    t.line(rt, witness, Call::Witness, 6)?;
    t.line(rt, "  part empty, shown:", Call::Part, 2)?;
    claims(rt, t)?;
    t.line(
        rt,
        "  verdicts, each of the 64, as verdict:",
        Call::AllVerdicts,
        5,
    )?;
    t.line(rt, "  going on done, by no tick:", Call::GoOn, 2)?;
    t.line(
        rt,
        "  run in parts, of them in 2, 3, 4, 5 parts:",
        Call::Parts,
        5,
    )?;
    t.line(rt, "  day run or change as it must be:", Call::Day, 1)?;
    t.line(rt, promised, Call::Promised, 1)?;
    t.line(rt, admission, Call::Admit, 3)?;
    t.line(rt, day_verdict, Call::DayVerdict, 5)?;
    t.line(rt, "  batch done, of no run:", Call::Batch, 2)?;
    t.line(rt, "  run of a batch as by itself:", Call::BatchRun, 1)?;
    t.line(rt, "  record of no run, blank:", Call::Blank, 1)?;
    t.line(rt, mending, Call::Mend, 4)?;
    t.line(rt, member, Call::Member, 3)?;
    t.line(
        rt,
        "  replay legal, not legal, of our run:",
        Call::Replay,
        3,
    )?;
    t.line(rt, day_replay, Call::DayReplay, 3)
}
