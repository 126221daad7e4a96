// Document 01, "The record", with request Eight's two numbers and request Nine's entry: the tick, the previous entry, and for each of 64
// places the ticks done, suspended and waited, and one standing. In a consistent record each of a place's numbers is at most 16,384.
ghost use Rattle.std.specs.Prelude.{◌≡◌, ◌&&◌, ◌+◌, ◌≤◌, leb, eqb};
ghost use Rattle.tables.specs.Tables.{arrival, execution};
ghost use Rattle.zsrm.specs.Record.{arrived, blank, fresh_place, fresh, sound_place, accounted, sound_previous, consistent, check11, check12, check_room};
ghost use Rattle.zsrm.specs.Given.{is_se, given};
ghost use Rattle.zsrm.specs.Code.Next.{opening_of};

use crate::mode::{Mode, is_se};
use tables::{IDLE, Outcome, job_at, job_count, refuse};

#[derive(Clone, Copy, Debug, PartialEq, Eq)]
pub enum Standing {
    NotArrived,
    Unfinished,
    // with its instant
    Finished(u16),
    // with its tick
    Ended(u16),
}

#[derive(Clone, Copy, Debug, PartialEq, Eq)]
pub struct Place {
    pub done: u16,
    // ticks suspended while alive
    pub suspended: u16,
    // ticks eligible while another job ran
    pub waited: u16,
    pub standing: Standing,
}

#[derive(Clone, Copy, Debug, PartialEq, Eq)]
pub struct Record {
    pub tick: u32,
    // the entry of the tick before; idle at tick 0
    pub previous: u16,
    pub places: [Place; 64],
}

impl Record {
    // A refusal's record.
    pub fn blank() -> Record
        ensures { result ≡ blank }
    {
        let empty = Place {
            done: 0,
            suspended: 0,
            waited: 0,
            standing: Standing::NotArrived,
        };
        Record {
            tick: 0,
            previous: IDLE,
            places: [empty; 64],
        }
    }
}

// Whether the place is a job's, and the job has arrived by t.
fn has_arrived(jobs: &[u32], t: u32, j: u32) -> bool
    ensures { result ≡ arrived jobs.now t j }
{
    let job = job_at(jobs, j);
    ((j as usize) < job_count(jobs)) & (job.arrival <= t)
}

// Whether n ticks from the instant a on pass no later than at t. What is left up to t is compared, as a list may name any instant and the
// sum need not fit.
fn is_by(a: u32, n: u32, t: u32) -> bool
    ensures { result ≡ leb (a + n) t }
{
    a <= t && n <= t - a
}

// Whether n ticks from the instant a on pass exactly at t.
fn is_just(a: u32, n: u32, t: u32) -> bool
    ensures { result ≡ eqb (a + n) t }
{
    a <= t && n == t - a
}

// What consistency asks of one place, by its standing.
fn is_sound(se: bool, here: bool, a: u32, c: u32, t: u32, done: u32, standing: Standing) -> bool
    ensures { result ≡ sound_place se here a c t done standing }
{
    let room = is_by(a, done, t);
    match standing {
        Standing::NotArrived => !here & (done == 0),
        Standing::Unfinished => here & (done < c) & room,
        Standing::Finished(f) => {
            here & (done == c) & room & is_by(a, c, f as u32) & ((f as u32) <= t)
        }
        Standing::Ended(e) => {
            se & here & (done < c) & room & (a <= (e as u32)) & ((e as u32) < t)
        }
    }
}

// Whether the ticks done, suspended and waited account for all since arrival.
fn is_accounted(a: u32, t: u32, place: Place) -> bool
    ensures { result ≡ accounted a t place place.standing }
{
    let spent = (place.done as u32) + (place.suspended as u32) + (place.waited as u32);
    match place.standing {
        Standing::NotArrived => (place.suspended == 0) & (place.waited == 0),
        Standing::Unfinished => is_just(a, spent, t),
        Standing::Finished(f) => is_just(a, spent, f as u32),
        Standing::Ended(e) => is_just(a, spent, (e as u32) + 1),
    }
}

// What consistency asks of place j.
fn is_sound_at(mode: Mode, jobs: &[u32], t: u32, j: u32, place: Place) -> bool
    ensures { result ≡ (sound_place (is_se mode) (arrived jobs.now t j) (arrival jobs.now j) (execution jobs.now j) t
        place.done place.standing && accounted (arrival jobs.now j) t place place.standing) }
{
    let job = job_at(jobs, j);
    let here = has_arrived(jobs, t, j);
    let sound = is_sound(
        is_se(mode),
        here,
        job.arrival,
        job.execution,
        t,
        place.done as u32,
        place.standing,
    );
    sound & is_accounted(job.arrival, t, place)
}

// Whether the previous entry is idle, or after tick 0 a job in the list.
fn is_sound_previous(jobs: &[u32], t: u32, previous: u16) -> bool
    ensures { result ≡ sound_previous jobs.now t previous }
{
    let listed = (previous as usize) < job_count(jobs);
    (previous == IDLE) | ((0 < t) & listed)
}

// Whether the record is consistent with the jobs.
pub(crate) fn is_consistent(rec: Record, mode: Mode, tasks: &[u32], jobs: &[u32]) -> bool
    ensures { result ≡ consistent (given mode tasks.now jobs.now) rec }
{
    let t = rec.tick;
    let mut every = true;
    for j in 0..64 {
        every = is_sound_at(mode, jobs, t, j as u32, rec.places[j]) & every;
    }
    (t <= 16384) & is_sound_previous(jobs, t, rec.previous) & every
}

// The standing at t of a place at which nothing has run.
pub(crate) fn opening(listed: bool, a: u32, c: u32, t: u32) -> Standing
    requires { t ≤ 16384 }
    ensures { result ≡ opening_of listed a c t }
{
    if listed & (a <= t) {
        if c == 0 {
            Standing::Finished(a as u16)
        } else {
            Standing::Unfinished
        }
    } else {
        Standing::NotArrived
    }
}

// The place of job j at tick 0, nothing done.
fn fresh_place(jobs: &[u32], j: u32) -> Place
    ensures { result ≡ fresh_place jobs.now j }
{
    let job = job_at(jobs, j);
    let standing = opening(
        (j as usize) < job_count(jobs),
        job.arrival,
        job.execution,
        0,
    );
    Place {
        done: 0,
        suspended: 0,
        waited: 0,
        standing,
    }
}

// t = 0, no entry before, and nothing done.
pub(crate) fn fresh_record(jobs: &[u32]) -> Record
    ensures { result ≡ fresh jobs.now }
{
    let mut out = Record::blank();
    for j in 0..64 {
        out.places[j] = fresh_place(jobs, j as u32);
    }
    out
}

// 11: the record is not consistent with the jobs.
pub(crate) fn check11(consistent: bool) -> Outcome
    ensures { result ≡ check11 consistent }
{
    refuse(!consistent, 11, 0)
}

// 12: a step is asked at tick 16,384.
pub(crate) fn check12(tick: u32) -> Outcome
    ensures { result ≡ check12 tick }
{
    refuse(tick == 16384, 12, 0)
}

// 12 where a number of ticks is asked for: they would pass tick 16,384; in 64 bits, as any number may be asked for.
pub(crate) fn check_room(tick: u32, ticks: u32) -> Outcome
    ensures { result ≡ check_room tick ticks }
{
    refuse(16384 < (tick as u64) + (ticks as u64), 12, 0)
}
