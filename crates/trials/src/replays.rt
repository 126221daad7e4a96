// Schedules replayed, by the library and by the planter: what is answered to each is the claim check's answer, and the record is the
// simulator's at its end where it is legal, that of the run itself where its own schedule is replayed, else the blank one.
use crate::claims::{Claimed, is_claimed, make_claim};
use crate::day::a_day;
use crate::lines::{KINDS, Kind};
use crate::records::{blank, holds, same_record};
use crate::runs::try_run;
use crate::tally::{Call, OF_OUR_RUN};
use drawn::answers::Answer;
use drawn::damage::damaged;
use drawn::draw::draw;
use drawn::inputs::{Input, long, make_input, short};
use drawn::judge::{schedule_fault, ticks_of};
use drawn::list::{Case, front, no_line};
use drawn::tally::{Tally, numbers};
use std::io;
use zsrm::{Mode, Record, Replayed};

// Every third trial is a day of the planter.
fn of_planter(trial: u32) -> bool {
    trial % 3 == 0
}

// A day of the planter; else lists of any tasks, one time in twenty as many as are allowed, in fifty with the longest horizon, in five damaged.
pub(crate) fn to_replay(trial: u32, mode: Mode) -> Input {
    if of_planter(trial) {
        return a_day(trial, mode);
    }
    let size = if draw(trial, 76, 50) == 0 {
        long(trial)
    } else {
        short(trial, draw(trial, 73, 20) == 0)
    };
    let whole = make_input(trial, mode, size);
    if draw(trial, 75, 5) == 0 {
        damaged(whole, trial, 20000)
    } else {
        whole
    }
}

// Whether a record is the one at the end of a legal schedule, or blank where the schedule is refused or not legal.
fn record_due(rec: Record, jobs: &[u32], claim: Claimed) -> bool {
    if claim.due() == Answer::Legal {
        holds(rec, jobs, claim.replay.end)
    } else {
        same_record(&rec, &blank()) & same_record(&rec, &Record::blank())
    }
}

// What came of a replay, held to the simulator's, and its record to that of the run itself where its own schedule is replayed.
fn try_replayed(
    rt: &impl Print,
    t: &mut Tally,
    call: Call,
    jobs: &[u32],
    claim: Claimed,
    got: Replayed,
    ran: Option<Record>,
) -> io::Result<()> {
    let tick = match claim.replay.bad {
        Some(tick) => tick % 65536 + 1,
        None => 0,
    };
    let same = match ran {
        Some(ran) => same_record(&got.record, &ran),
        None => true,
    };
    let answer = Answer::from(got.claim)
        .and_words(record_due(got.record, jobs, claim))
        .and_record(same);
    t.note(rt, call, tick, claim.due(), answer)?;
    if ran.is_some() {
        t.add((call, OF_OUR_RUN), 1);
    }
    Ok(())
}

// One schedule replayed by the library, and, on a day, by the planter.
fn try_replay(
    rt: &impl Print,
    t: &mut Tally,
    case: Case,
    line: &[u16],
    ran: Option<Record>,
) -> io::Result<()> {
    let before = t.differences;
    let claim = Claimed::new(case, line);
    let got = zsrm::replay(case.mode, case.tasks, case.jobs, case.horizon, line);
    try_replayed(rt, t, Call::Replay, case.jobs, claim, got, ran)?;
    if of_planter(case.trial) {
        let day = planter::replay(case.mode, case.jobs, case.horizon, line);
        try_replayed(rt, t, Call::DayReplay, case.jobs, claim, day, ran)?;
    }
    if before < t.differences {
        numbers(rt, "  schedule", line)?;
    }
    Ok(())
}

// A run, then its own schedule and every other kind of claim replayed.
pub(crate) fn try_replays(rt: &impl Print, t: &mut Tally, case: Case) -> io::Result<()> {
    let fault = schedule_fault(case.tasks, case.jobs, case.horizon, case.room);
    let ticks = ticks_of(fault, case.horizon);
    let mut line = no_line();
    let ran = try_run(rt, t, case, fault, &mut line)?;
    for kind in KINDS {
        if is_claimed(kind, ticks, case.trial) {
            make_claim(case, kind, ticks, &mut line);
            let own = if kind == Kind::OurRun {
                Some(ran)
            } else {
                None
            };
            try_replay(rt, t, case, front(&line, case.room), own)?;
        }
    }
    Ok(())
}
