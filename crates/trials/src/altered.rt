// Records with one change, or with many at once, from which a step, some ticks and a verdict are asked: most with one are not consistent;
// of those with many a good part is, and no run leads there.
ghost use Rattle.std.specs.Prelude.{◌<◌};

use drawn::draw::draw;
use drawn::list::{ARRIVAL, Case, EXECUTION, IDLE, short};
use zsrm::{Mode, Place, Record, Standing};

// Any standing, its instant near the tick or anywhere before it.
fn some_standing(trial: u32, place: u32, tick: u32) -> Standing
    requires { place < 60000 }
{
    let near = (tick % 65536 + draw(trial, place + 1, 3)).saturating_sub(1);
    let any = draw(trial, place + 2, tick % 65536 + 1);
    match draw(trial, place, 6) {
        0 => Standing::NotArrived,
        1 => Standing::Unfinished,
        2 => Standing::Finished(short(near)),
        3 => Standing::Finished(short(any)),
        4 => Standing::Ended(short(near)),
        _ => Standing::Ended(short(any)),
    }
}

fn with_times(p: Place, done: u32, suspended: u32, waited: u32) -> Place {
    Place {
        done: short(done),
        suspended: short(suspended),
        waited: short(waited),
        standing: p.standing,
    }
}

// A place with other ticks lost: one more of either or of both; one moved from one number to another, which leaves the sum; or two whose
// sum is right in 16 bits alone.
fn with_losses(p: Place, trial: u32, place: u32) -> Place
    requires { place < 50000 }
{
    let d = u32::from(p.done);
    let s = u32::from(p.suspended);
    let w = u32::from(p.waited);
    let near = draw(trial, place + 1, 3);
    match draw(trial, place, 9) {
        0 => with_times(p, d, s + 1, w),
        1 => with_times(p, d, s, w + 1),
        2 => with_times(p, d, s + 1, w + 1),
        3 => with_times(p, d, s.saturating_sub(1), w + s.min(1)),
        4 => with_times(p, d, s + w.min(1), w.saturating_sub(1)),
        5 => with_times(p, d.saturating_sub(1), s, w + d.min(1)),
        6 => with_times(p, d + s.min(1), s.saturating_sub(1), w),
        7 => with_times(p, d, 65535 - near, s + w + near + 1),
        _ => with_times(p, d, s + w + near + 1, 65535 - near),
    }
}

// A place with other ticks lost, or with another standing, with more or fewer ticks done, or both.
fn altered_place(p: Place, trial: u32, place: u32, tick: u32) -> Place
    requires { place < 40000 }
{
    let d = u32::from(p.done);
    let done = match draw(trial, place + 5, 4) {
        0 => d + 1,
        1 => d.saturating_sub(1),
        _ => d,
    };
    let mut next = p;
    match draw(trial, place, 6) {
        0 => next.done = short(done),
        1 => next.standing = some_standing(trial, place + 1, tick),
        2 => {
            next.done = short(done);
            next.standing = some_standing(trial, place + 1, tick);
        }
        _ => next = with_losses(p, trial, place + 6),
    }
    next
}

fn some_tick(trial: u32, place: u32, tick: u32) -> u32
    requires { place < 60000 }
{
    match draw(trial, place, 6) {
        0 => tick % 65536 + 1,
        1 => tick.saturating_sub(1),
        2 => 16385,
        3 => 16383 - draw(trial, place + 1, 40) % 40,
        _ => 16384,
    }
}

// An entry before: a job of so many in most cases, idle, the first that is none of them, or one that no list has.
fn some_previous(trial: u32, place: u32, jobs: u32) -> u16
    requires { place < 60000 }
{
    match draw(trial, place, 8) {
        0 => IDLE,
        1 => short(jobs),
        2 => 65534,
        _ => short(draw(trial, place + 1, jobs)),
    }
}

// A place with so many ticks done that fits a job so many after its arrival: one finished or ended may have lost any number of those that
// are left, an unfinished one has lost them all, and what is lost falls to either number.
fn fitting_with(case: Case, place: u32, arrival: u32, c: u32, since: u32, done: u32) -> Place
    requires { place < 50000 }
{
    let trial = case.trial;
    let spare = since.saturating_sub(done) % 65536;
    let some = draw(trial, place, spare + 1);
    let instant = arrival % 65536 + done % 65536 + some;
    let ends = matches!(case.mode, Mode::SE)
        & (arrival < instant)
        & (draw(trial, place + 1, 3) == 0);
    let (standing, lost) = if done == c {
        (Standing::Finished(short(instant)), some)
    } else if ends {
        (Standing::Ended(short(instant.saturating_sub(1))), some)
    } else {
        (Standing::Unfinished, spare)
    };
    let suspended = draw(trial, place + 2, lost % 65536 + 1);
    Place {
        done: short(done),
        suspended: short(suspended),
        waited: short(lost.saturating_sub(suspended)),
        standing,
    }
}

// A place that fits job j at a tick, whether or not a run leads there: ticks done that it has work and time for, often the most.
fn fitting_place(case: Case, j: usize, tick: u32) -> Place {
    let place = 1000 + 8 * ((j % 64) as u32);
    let a = case.job(j, ARRIVAL);
    let c = case.job(j, EXECUTION);
    let since = tick.saturating_sub(a);
    let most = c.min(since);
    if tick < a {
        return Place {
            done: 0,
            suspended: 0,
            waited: 0,
            standing: Standing::NotArrived,
        };
    }
    let done = match draw(case.trial, place, 2) {
        0 => most,
        _ => draw(case.trial, place + 1, most % 65536 + 1),
    };
    fitting_with(case, place + 2, a, c, since, done)
}

// A record of which every place of a job fits.
fn fitting_record(rec: Record, case: Case) -> Record {
    let mut next = rec;
    let n = case.job_count();
    for (j, place) in next.places.iter_mut().enumerate().take(n) {
        *place = fitting_place(case, j, rec.tick);
    }
    next
}

// So many places changed, among the first so many and one more.
fn some_altered(rec: Record, trial: u32, jobs: u32, wild: u32) -> Record {
    let mut next = rec;
    for k in 0..wild {
        let place = 2000 + 16 * (k % 16);
        let i = (draw(trial, place, jobs % 64 + 1) % 64) as usize;
        next.places[i] = altered_place(next.places[i], trial, place + 1, rec.tick);
    }
    next
}

// A record with another tick, another entry before, or another place among those of the jobs and one more; or, with many changes, every
// place of a job another that fits, another entry before, another tick half of the time, and then up to three places that need not fit.
pub(crate) fn altered(rec: Record, case: Case, many: bool) -> Record {
    let trial = case.trial;
    let kind = draw(trial, 66, 6);
    let n = (case.job_count() % 64) as u32;
    let moves = if many {
        draw(trial, 70, 2) == 0
    } else {
        kind < 2
    };
    let wild = match kind {
        _ if many => draw(trial, 72, 4),
        0 | 5 => 0,
        _ => 1,
    };
    let mut next = rec;
    if moves {
        next.tick = some_tick(trial, 68, rec.tick);
    }
    if many | (kind == 5) {
        next.previous = some_previous(trial, 76, n);
    }
    if many {
        next = fitting_record(next, case);
    }
    some_altered(next, trial, n, wild)
}
