// A run that goes by leaps, from instant to instant: as many ticks at once as nothing happens in.
ghost use Rattle.std.specs.Prelude.{◌≡◌, ℕ, ◌+◌, ◌≤◌, ◌<◌};
ghost use Rattle.bits.specs.Below.{word};
ghost use Rattle.zsrm.specs.Record.{place_at, spent};
ghost use Rattle.zsrm.specs.Tick.{is_unfinished};
ghost use Rattle.zsrm.specs.Code.Gathered.{ahead_in, gap_in};
ghost use Rattle.zsrm.specs.Code.Underway.{alive_in, done_in, first_in, leap_in, started_in};

use crate::gap::{Ahead, came_by, gap, with_span};
use crate::gather::Numbers;
use crate::look::{View, ended_in, ticked};
use crate::record::{Record, Standing};

// The record of a run underway, and what is kept beside it: the jobs alive, how many have come, and a set in which are all that have come
// and whose zero-slack instant lies ahead.
#[derive(Clone, Copy)]
pub(crate) struct Underway {
    pub record: Record,
    pub alive: u64,
    pub came: usize,
    pub early: u64,
}

// Whether the standing is that of a job alive.
fn is_unfinished(standing: Standing) -> bool
    ensures { result ≡ is_unfinished standing }
{
    matches!(standing, Standing::Unfinished)
}

// The jobs alive, of those from the first to the last.
pub(crate) fn alive_in(rec: Record, first: usize, last: usize) -> u64
    requires { (first ≤ last) × (last ≤ 64) }
    ensures { result ≡ alive_in rec first last }
{
    let mut word: u64 = 0;
    for j in first..last {
        word = bits::with_bit_if(word, j as u32, is_unfinished(rec.places[j].standing));
    }
    word
}

// A run of n jobs underway from a record.
pub(crate) fn started(rec: Record, n: usize, g: &Numbers) -> Underway
    requires { n ≤ 64 }
    ensures { result ≡ started_in g.now n rec }
{
    let alive = alive_in(rec, 0, n);
    let came = came_by(rec.tick, 0, n, g);
    let early = with_span(0, 0, came);
    Underway {
        record: rec,
        alive,
        came,
        early,
    }
}

// What the entry has done, where it is one of the n jobs.
fn done_in(rec: Record, entry: u16, n: usize) -> u16
    requires { n ≤ 64 }
    ensures { result ≡ done_in rec n entry }
{
    if (entry as usize) < n {
        rec.places[entry as usize].done
    } else {
        0
    }
}

// How many ticks nothing happens in while the entry runs, at most so many, and which of the early jobs are left.
pub(crate) fn ahead(s: Underway, se: bool, entry: u16, most: u32, n: usize, g: &Numbers) -> Ahead
    requires { n ≤ 64 }
    ensures ticks { result.ticks ≡ gap_in g.now n se s.«record».tick entry (done_in s.«record» n entry) s.came s.early most }
    ensures early { result.early ≡ word 64 (ahead_in g.now s.early s.«record».tick) }
{
    let rec = s.record;
    let done = done_in(rec, entry, n);
    gap(rec.tick, se, entry, done, s.came, s.early, most, n, g)
}

// The lowest job of a set, or where none of it has come, the next that comes.
fn first_of(alive: u64, came: usize) -> usize
    ensures { result ≡ first_in alive came }
{
    let lowest = bits::lowest(alive) as usize;
    if lowest < came { lowest } else { came }
}

// A leap by k ticks of the entry: the places of the jobs that were alive or have come by its end are made anew.
pub(crate) fn leap(
    s: Underway,
    seen: View,
    se: bool,
    entry: u16,
    k: u32,
    left: u64,
    n: usize,
    g: &Numbers,
) -> Underway
    requires n_bound { (n ≤ 64) × (s.came ≤ n) }
    requires k_bound { (s.«record».tick + k ≤ 16384) × ((j : ℕ) → j < 64 → spent (place_at s.«record» j) ≤ s.«record».tick) }
    ensures { result ≡ leap_in g.now n se s seen entry k left }
{
    let rec = s.record;
    let first = first_of(s.alive, s.came);
    let came = came_by(rec.tick + k, s.came, n, g);
    let ended = ended_in(seen, rec, se, entry, g);
    let record = rec.after(k, ticked(seen, entry, ended, n), first, came, g);
    let alive = alive_in(record, first, came);
    let early = with_span(left, s.came, came);
    Underway {
        record,
        alive,
        came,
        early,
    }
}
