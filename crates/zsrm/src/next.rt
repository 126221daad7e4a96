// Document 01, "One tick": what a tick does to the record, and k ticks in which nothing else happens.
ghost use Rattle.std.specs.Prelude.{◌≡◌, cond, ℕ, ◌+◌, ◌≤◌, ◌<◌};
ghost use Rattle.zsrm.specs.Record.{place_at, spent};
ghost use Rattle.zsrm.specs.Code.Next.{worked_on, next_standing, next_place};
ghost use Rattle.zsrm.specs.Code.Underway.{next_in};

use crate::gather::{Numbers, arrival_in, execution_in};
use crate::record::{Place, Record, Standing, opening};

// What a tick does to the jobs: the entry that runs, and as words those suspended, those eligible while another job runs, and those ended.
#[derive(Clone, Copy)]
pub(crate) struct Ticked {
    pub entry: u16,
    pub suspended: u64,
    pub waiting: u64,
    pub ended: u64,
}

// A job that was alive in tick t, k ticks after it.
fn worked_on(t: u32, k: u32, finishes: bool, ended: bool) -> Standing
    requires { t + k ≤ 16384 }
    ensures { result ≡ worked_on t k finishes ended }
{
    if finishes {
        Standing::Finished((t + k) as u16)
    } else if ended {
        Standing::Ended(t as u16)
    } else {
        Standing::Unfinished
    }
}

// Any job k ticks after t, done being what it has done by then.
fn next_standing(
    t: u32,
    k: u32,
    ran: bool,
    ended: bool,
    a: u32,
    c: u32,
    done: u16,
    standing: Standing,
) -> Standing
    requires { t + k ≤ 16384 }
    ensures { result ≡ next_standing t k ran ended a c done standing }
{
    match standing {
        Standing::NotArrived => opening(true, a, c, t + k),
        Standing::Unfinished => worked_on(t, k, ran & ((done as u32) == c), ended),
        Standing::Finished(f) => Standing::Finished(f),
        Standing::Ended(e) => Standing::Ended(e),
    }
}

// The ticks, with k more where they count.
pub(crate) fn more_if(counts: bool, ticks: u16, k: u32) -> u32
    requires { k ≤ 16384 }
    ensures { result ≡ ticks + cond counts k 0 }
{
    if counts {
        (ticks as u32) + k
    } else {
        ticks as u32
    }
}

// How many of k ticks a job is suspended that is so in the first: that one alone where it is ended in it.
fn held_for(ended: bool, k: u32) -> u32
    ensures { result ≡ cond ended 1 k }
{
    if ended { 1 } else { k }
}

// The place of job j, which arrives at a and has c to do, k ticks after t.
fn next_place(place: Place, t: u32, k: u32, ticked: Ticked, j: u32, a: u32, c: u32) -> Place
    requires { (t + k ≤ 16384) × (spent place ≤ t) }
    ensures { result ≡ next_place t k ticked j a c place }
{
    let ran = (ticked.entry as u32) == j;
    let held = bits::has_bit(ticked.suspended, j);
    let waits = bits::has_bit(ticked.waiting, j);
    let ended = bits::has_bit(ticked.ended, j);
    let standing = place.standing;
    let done = more_if(ran, place.done, k) as u16;
    let suspended = more_if(held, place.suspended, held_for(ended, k)) as u16;
    let waited = more_if(waits, place.waited, k) as u16;
    let next = next_standing(t, k, ran, ended, a, c, done, standing);
    Place {
        done,
        suspended,
        waited,
        standing: next,
    }
}

impl Record {
    // The record k ticks on, the places from the first to the last being made anew.
    pub(crate) fn after(
        self,
        k: u32,
        ticked: Ticked,
        first: usize,
        last: usize,
        g: &Numbers,
    ) -> Record
        requires last_bound { last ≤ 64 }
        requires k_bound { (self.tick + k ≤ 16384) × ((j : ℕ) → j < 64 → spent (place_at self j) ≤ self.tick) }
        ensures { result ≡ next_in g.now first last self k ticked }
    {
        let t = self.tick;
        let mut out = self;
        out.tick = t + k;
        for j in first..last {
            let place = out.places[j];
            let a = arrival_in(g, j);
            let c = execution_in(g, j);
            out.places[j] = next_place(place, t, k, ticked, j as u32, a as u32, c as u32);
        }
        out.previous = ticked.entry;
        out
    }
}
