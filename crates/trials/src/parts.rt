// Going on: from any record against the simulator, and a run cut into parts, its record saved as numbers at each cut, against the run.
use crate::flight::{between, fly_on};
use crate::leap::Way;
use crate::records::{begin, holds, same_record, taken_up};
use crate::runs::{alike, held, record_fault};
use crate::tally::{Call, NO_TICK_ON};
use drawn::answers::Answer;
use drawn::draw::{draw, draw_tie};
use drawn::judge::{first, refusal, rule, ticks_of};
use drawn::list::{Case, Line, front, lent, no_line, short};
use drawn::tally::Tally;
use std::io;
use zsrm::{Place, Record, Standing};

// A record as it is saved: tick, previous, and for each place done, suspended, waited, the case of the standing and its number or 0.
type Saved = [u32; 322];

fn saved(rec: Record) -> Saved {
    let mut out = [0; 322];
    out[0] = rec.tick;
    out[1] = u32::from(rec.previous);
    for j in 0..64 {
        let place = rec.places[j];
        let (kind, instant) = match place.standing {
            Standing::Unfinished => (0, 0),
            Standing::Finished(f) => (1, u32::from(f)),
            Standing::Ended(e) => (2, u32::from(e)),
            Standing::NotArrived => (3, 0),
        };
        let i = 2 + 5 * j;
        out[i] = u32::from(place.done);
        out[i + 1] = u32::from(place.suspended);
        out[i + 2] = u32::from(place.waited);
        out[i + 3] = kind;
        out[i + 4] = instant;
    }
    out
}

fn standing_of(kind: u32, instant: u32) -> Standing {
    match kind {
        0 => Standing::Unfinished,
        1 => Standing::Finished(short(instant)),
        2 => Standing::Ended(short(instant)),
        _ => Standing::NotArrived,
    }
}

fn put_back(from: Saved) -> Record {
    let empty = Place {
        done: 0,
        suspended: 0,
        waited: 0,
        standing: Standing::NotArrived,
    };
    let mut rec = Record {
        tick: from[0],
        previous: short(from[1]),
        places: [empty; 64],
    };
    for j in 0..64 {
        let i = 2 + 5 * j;
        rec.places[j] = Place {
            done: short(from[i]),
            suspended: short(from[i + 1]),
            waited: short(from[i + 2]),
            standing: standing_of(from[i + 3], from[i + 4]),
        };
    }
    rec
}

// So many ticks on from any record, into entries that nothing has been written to: refused for a fault, or the entries and the record of the
// simulator. The record then is the answer.
fn try_go_on(
    rt: &impl Print,
    t: &mut Tally,
    case: Case,
    rec: Record,
    ticks: u32,
    line: &mut [u16],
) -> io::Result<Record> {
    let fault = first(&[
        record_fault(case, rec),
        rule(line.len() != (ticks as usize), 10),
        rule(16384 < u64::from(rec.tick) + u64::from(ticks), 12),
    ]);
    let held = held(case, fault);
    let start = if fault.is_none() {
        taken_up(rec, case.jobs)
    } else {
        begin(held.jobs)
    };
    let mut own = no_line();
    let so_many = ticks_of(fault, ticks);
    let end = fly_on(
        start,
        held,
        so_many,
        Way::Our(case.tie),
        &mut own,
        start.now,
    );
    let ran = rec.go_on(case.mode, case.tie, case.tasks, case.jobs, ticks, line);
    let got = Answer::from(ran.outcome)
        .and_entries(alike(line, &own, 0))
        .and_record(holds(ran.record, held.jobs, end));
    t.note(rt, Call::GoOn, rec.tick, refusal(fault), got)?;
    if fault.is_none() & (ticks == 0) {
        t.add(NO_TICK_ON, 1);
    }
    Ok(ran.record)
}

// How many ticks: none, those up to tick 16,384 or to 64, one more than there are, more than any list has entries, or a few.
fn some_ticks(trial: u32, tick: u32) -> u32 {
    let left = 16384_u32.saturating_sub(tick);
    match draw(trial, 84, 7) {
        0 => 0,
        1 => left.min(64),
        2 => left % 16384 + 1,
        3 => 4294967295,
        _ => draw(trial, 85, 40),
    }
}

// From any record some ticks on, the list most often as long as it must be.
pub(crate) fn try_any(rt: &impl Print, t: &mut Tally, case: Case, rec: Record) -> io::Result<()> {
    let ticks = some_ticks(case.trial, rec.tick);
    let room = match draw(case.trial, 86, 8) {
        0 => ticks.saturating_sub(1),
        1 => ticks % 16384 + 1,
        _ => ticks,
    };
    let mut line = no_line();
    try_go_on(rt, t, case, rec, ticks, lent(&mut line, room as usize))?;
    Ok(())
}

// A run cut into two to five parts at drawn ticks, each with a tie choice of its own, is the run.
pub(crate) fn try_parts(
    rt: &impl Print,
    t: &mut Tally,
    case: Case,
    fresh: Record,
    ran: Record,
    own: &Line,
    ticks: u32,
) -> io::Result<()> {
    let n = draw(case.trial, 87, 4) % 4 + 2;
    let mut line = no_line();
    let mut rec = fresh;
    for k in 0..n {
        let mut its = case;
        its.tie = draw_tie(case.trial, 88 + k % 8);
        let left = ticks.saturating_sub(rec.tick);
        let some = draw(case.trial, 96 + k % 8, left % 65536 + 1);
        let so_many = if k % 8 + 1 == n { left } else { some };
        let from = rec.tick % 65536;
        let part = between(&mut line, from, from + so_many % 65536);
        rec = try_go_on(rt, t, its, put_back(saved(rec)), so_many, part)?;
    }
    let same = front(&line, ticks as usize) == front(own, ticks as usize);
    let got = Answer::Done
        .and_entries(same)
        .and_record(same_record(&rec, &ran));
    t.add((Call::Parts, (n as usize) - 1), 1);
    t.note(rt, Call::Parts, n, Answer::Done, got)
}
