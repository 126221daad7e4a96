// Schedules made from a run's by one change: an entry, an idle tick, two jobs or two ticks exchanged, an entry repeated and the rest one
// tick late, a number that is no job. Some are legal still, where jobs tie or nothing is changed.
use crate::flight::{between, entry_of};
use drawn::draw::draw;
use drawn::list::{IDLE, Line, entry_at};

// The kinds of claims: our run, the run that takes the last of equals, and one with one of six changes.
#[derive(Clone, Copy, PartialEq, Eq, PartialOrd, Ord)]
pub(crate) enum Kind {
    OurRun,
    LastOfEquals,
    Exchanged,
    ExchangedFrom,
    OtherJob,
    IdleTick,
    NoJob,
    Neighbours,
}

pub(crate) const KINDS: [Kind; 8] = [
    Kind::OurRun,
    Kind::LastOfEquals,
    Kind::Exchanged,
    Kind::ExchangedFrom,
    Kind::OtherJob,
    Kind::IdleTick,
    Kind::NoJob,
    Kind::Neighbours,
];

// Two numbers exchanged from a tick up to another.
fn exchange(line: &mut Line, from: u32, to: u32, a: u16, b: u16) {
    for entry in between(line, from, to).iter_mut() {
        if *entry == a {
            *entry = b;
        } else if *entry == b {
            *entry = a;
        }
    }
}

// A number that is no job of so many: the next one, or one that only its low byte would take for a job.
fn no_job(trial: u32, place: u32, jobs: u32) -> u16 {
    match draw(trial, place, 5) {
        0 => (jobs % 128) as u16,
        1 => 64,
        2 => 256,
        3 => 65534,
        _ => 32768,
    }
}

// The entry at a tick repeated, and the rest one tick late.
fn delay(line: &mut Line, from: u32, to: u32) {
    let mut late = entry_at(line, from as usize);
    for entry in between(line, from, to).iter_mut() {
        let here = *entry;
        *entry = late;
        late = here;
    }
}

// One change of a kind at a tick by lot; the first two kinds have none.
pub(crate) fn change(line: &mut Line, kind: Kind, trial: u32, jobs: u32, horizon: u32) {
    let place = 9000 + 8 * (kind as u32);
    let t = draw(trial, place, horizon);
    let a = entry_of(Some(draw(trial, place + 1, jobs) as usize));
    let b = entry_of(Some(draw(trial, place + 2, jobs) as usize));
    let here = entry_at(line, t as usize);
    let next = entry_at(line, (t + 1) as usize);
    match kind {
        Kind::OurRun | Kind::LastOfEquals => {}
        Kind::Exchanged => exchange(line, 0, horizon, a, b),
        Kind::ExchangedFrom => exchange(line, t, horizon, a, b),
        Kind::OtherJob => between(line, t, t + 1).fill(a),
        Kind::IdleTick => between(line, t, t + 1).fill(IDLE),
        Kind::NoJob => between(line, t, t + 1).fill(no_job(trial, place + 3, jobs)),
        Kind::Neighbours if trial % 4 < 2 => delay(line, t, horizon),
        Kind::Neighbours => {
            between(line, t, t + 1).fill(next);
            between(line, t + 1, t + 2).fill(here);
        }
    }
}
