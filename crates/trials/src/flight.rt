// Whole schedules by leaps: our run's entries with where they end, and a claimed schedule taken stretch by stretch.
use crate::leap::{Sim, Way, fixed_instant};
use crate::records::begin;
use drawn::list::{Case, IDLE, Line, entry_at};

// The entry of a job, and of none.
pub(crate) fn entry_of(x: Option<usize>) -> u16 {
    match x {
        Some(x) if x < 64 => x as u16,
        _ => IDLE,
    }
}

// The entries from a tick up to another, as far as the line goes.
pub(crate) fn between(line: &mut Line, from: u32, to: u32) -> &mut [u16] {
    let end = (to as usize).min(16384);
    let start = (from as usize).min(end);
    &mut line[start..end]
}

// A run of so many ticks, by a way to choose among equals: the entry of tick t is written at place t − front, and where it ends is the
// answer.
pub(crate) fn fly_on(
    start: Sim,
    case: Case,
    ticks: u32,
    way: Way,
    line: &mut Line,
    front: u32,
) -> Sim {
    let to = start.now % 65536 + ticks % 65536;
    let mut s = start;
    for _ in 0..ticks {
        if to <= s.now {
            break;
        }
        let x = s.chosen(case, way);
        let end = s.leap(case, x, to);
        let first = s.now.saturating_sub(front);
        between(line, first, end.now.saturating_sub(front)).fill(entry_of(x));
        s = end;
    }
    s
}

// A run of so many ticks from the beginning.
pub(crate) fn fly(case: Case, ticks: u32, way: Way, line: &mut Line) -> Sim {
    fly_on(begin(case.jobs), case, ticks, way, line, 0)
}

// The end of the stretch of equal entries that begins at a tick.
fn stretch_end(line: &[u16], from: u32, ticks: u32) -> u32 {
    let entry = entry_at(line, from as usize);
    let other = (from..ticks).find(|t| entry_at(line, *t as usize) != entry);
    other.unwrap_or(ticks)
}

// A claimed schedule up to an instant, and the tick that is not legal.
#[derive(Clone, Copy)]
pub(crate) struct Replay {
    pub bad: Option<u32>,
    pub end: Sim,
}

// One stretch of a claim. Its first entry must be a job that may run, or idle where none may, and differ from the one before only at an
// instant at which it may.
fn taken(s: Sim, case: Case, ticks: u32, line: &[u16]) -> Replay {
    let t = s.now;
    let entry = entry_at(line, t as usize);
    let before = entry_at(line, t.saturating_sub(1) as usize);
    let x = match entry {
        IDLE => None,
        job => Some(usize::from(job)),
    };
    let turns = s.turn | (entry == before) | fixed_instant(case, t);
    if s.may(case, x) & turns {
        Replay {
            bad: None,
            end: s.leap(case, x, stretch_end(line, t, ticks)),
        }
    } else {
        Replay {
            bad: Some(t),
            end: s,
        }
    }
}

pub(crate) fn replayed(case: Case, ticks: u32, line: &[u16]) -> Replay {
    let mut replay = Replay {
        bad: None,
        end: begin(case.jobs),
    };
    for _ in 0..ticks {
        if replay.bad.is_some() | (ticks <= replay.end.now) {
            break;
        }
        replay = taken(replay.end, case, ticks, line);
    }
    replay
}
