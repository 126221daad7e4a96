// Records: whether the library's holds what the simulator has, what the simulator makes of one, and whether one is consistent.
use crate::flight::entry_of;
use crate::leap::{Fate, Progress, Sim};
use drawn::list::{ARRIVAL, Case, EXECUTION, IDLE, job};
use zsrm::{Mode, Place, Record, Standing};

fn place_holds(place: Place, jobs: &[u32], j: usize, own: Progress, now: u32) -> bool {
    let coming = (now < job(jobs, j, ARRIVAL)) & (j < jobs.len() / 3);
    let meant = if coming { Fate::Absent } else { own.fate };
    let work = u64::from(place.done) + u64::from(own.left);
    let done = work == u64::from(job(jobs, j, EXECUTION));
    let held = u32::from(place.suspended) == own.held;
    let waited = u32::from(place.waited) == own.waited;
    done & held & waited & (Fate::from(place.standing) == meant)
}

// Whether a record is that of the simulator's instant, at all 64 places.
pub(crate) fn holds(rec: Record, jobs: &[u32], s: Sim) -> bool {
    let mut same = (rec.tick == s.now) & (rec.previous == entry_of(s.ran));
    for j in 0..64 {
        same &= place_holds(rec.places[j], jobs, j, s.jobs[j], s.now);
    }
    same
}

// Whether two places hold the same, number for number.
pub(crate) fn same_place(p: &Place, q: &Place) -> bool {
    let times = (p.done == q.done) & (p.suspended == q.suspended) & (p.waited == q.waited);
    times & (Fate::from(p.standing) == Fate::from(q.standing))
}

// Whether two records are the same, number for number.
pub(crate) fn same_record(a: &Record, b: &Record) -> bool {
    let mut places = a.places.iter().zip(b.places.iter());
    let same = places.all(|(p, q)| same_place(p, q));
    same & (a.tick == b.tick) & (a.previous == b.previous)
}

// The fate of a job at a place: one without work that is yet to come finishes as it arrives.
fn fate_of(place: Place, jobs: &[u32], j: usize) -> Fate {
    match Fate::from(place.standing) {
        Fate::Absent if job(jobs, j, EXECUTION) == 0 => Fate::Finished(job(jobs, j, ARRIVAL)),
        Fate::Absent => Fate::Open,
        fate => fate,
    }
}

// The simulator at the instant of a consistent record, or of one that no job has touched.
pub(crate) fn taken_up(rec: Record, jobs: &[u32]) -> Sim {
    let absent = Progress {
        left: 0,
        fate: Fate::Absent,
        held: 0,
        waited: 0,
    };
    let mut sim = Sim {
        now: rec.tick,
        turn: false,
        cut: 0,
        ran: if rec.previous < 64 {
            Some(usize::from(rec.previous))
        } else {
            None
        },
        jobs: [absent; 64],
    };
    for j in 0..(jobs.len() / 3).min(64) {
        let place = rec.places[j];
        sim.jobs[j] = Progress {
            left: job(jobs, j, EXECUTION).saturating_sub(u32::from(place.done)),
            fate: fate_of(place, jobs, j),
            held: u32::from(place.suspended),
            waited: u32::from(place.waited),
        };
    }
    sim
}

// A refusal's record.
pub(crate) fn blank() -> Record {
    let empty = Place {
        done: 0,
        suspended: 0,
        waited: 0,
        standing: Standing::NotArrived,
    };
    Record {
        tick: 0,
        previous: IDLE,
        places: [empty; 64],
    }
}

// The simulator before anything has happened.
pub(crate) fn begin(jobs: &[u32]) -> Sim {
    taken_up(blank(), jobs)
}

// Whether a place fits job j: nothing before it has come; then ticks done within its work and the time that there was, all of them
// where it is finished, and an instant at which it can have finished or have been ended.
fn place_fits(case: Case, j: usize, place: Place, now: u32) -> bool {
    let a = u64::from(case.job(j, ARRIVAL));
    let c = case.job(j, EXECUTION);
    let done = u32::from(place.done);
    let now = u64::from(now);
    let come = (j < case.job_count()) & (a <= now);
    let timely = come & (a + u64::from(done) <= now);
    match place.standing {
        Standing::NotArrived => !come & (done == 0),
        Standing::Unfinished => timely & (done < c),
        Standing::Finished(f) => {
            let f = u64::from(f);
            timely & (done == c) & (a + u64::from(c) <= f) & (f <= now)
        }
        Standing::Ended(e) => {
            let e = u64::from(e);
            matches!(case.mode, Mode::SE) & timely & (done < c) & (a <= e) & (e < now)
        }
    }
}

// Whether the ticks that a place has lost are all the time of its job beyond the ticks done, up to now, its finish, or the end of the tick
// that ended it, and none where it has not come. They are added in 64 bits, where no sum comes round to a smaller one.
fn losses_fit(jobs: &[u32], j: usize, place: Place, now: u32) -> bool {
    let lost = u64::from(place.suspended) + u64::from(place.waited);
    let spent = u64::from(job(jobs, j, ARRIVAL)) + u64::from(place.done) + lost;
    match place.standing {
        Standing::NotArrived => lost == 0,
        Standing::Unfinished => spent == u64::from(now),
        Standing::Finished(f) => spent == u64::from(f),
        Standing::Ended(e) => spent == u64::from(e) + 1,
    }
}

// Whether a record is consistent with the jobs.
pub(crate) fn consistent(rec: Record, case: Case) -> bool {
    let named = if rec.tick == 0 { 0 } else { case.job_count() };
    let before = (rec.previous == IDLE) | (usize::from(rec.previous) < named);
    let mut fit = before & (rec.tick <= 16384);
    for j in 0..64 {
        let place = rec.places[j];
        fit &= place_fits(case, j, place, rec.tick) & losses_fit(case.jobs, j, place, rec.tick);
    }
    fit
}
