// Document 01, "One tick", from the word of the jobs alive and the gathered numbers: each loop goes from set bit to set bit.
ghost use Rattle.std.specs.Prelude.{◌≡◌, ◌&&◌, cond, ◌≤◌, ltb};
ghost use Rattle.bits.specs.Below.{word, bit, greatest, least};
ghost use Rattle.tables.specs.Tables.{idle};
ghost use Rattle.zsrm.specs.Code.Gathered.{past_in, less_in, level_in, most_past, free_word, view_in, may_run_in, chosen_in, top_or_idle_in, waiting_in, ticked_in};
ghost use Rattle.zsrm.specs.Code.Underway.{ended_in, most_over};

use crate::gather::{Numbers, criticality_in, nominal_in, priority_in, slack_in};
use crate::next::{Ticked, more_if};
use crate::record::Record;
use crate::tie::{Tie, is_stay};
use tables::{Criticality, IDLE, Priority};

// The jobs alive, past zero slack, suspended and eligible, and the ready word: bit p for priority p.
#[derive(Clone, Copy)]
pub(crate) struct View {
    pub alive: u64,
    pub past: u64,
    pub suspended: u64,
    pub eligible: u64,
    pub ready: u64,
}

// The greater of two criticalities; the second where the first does not count.
pub(crate) fn greater_if(counts: bool, its: Criticality, most: Criticality) -> Criticality
    ensures { result.0 ≡ cond (counts && ltb most.0 its.0) its.0 most.0 }
{
    if counts & its.exceeds(most) {
        its
    } else {
        most
    }
}

// The jobs of a set that are past zero slack, and the greatest criticality among them, 0 where there is none.
#[derive(Clone, Copy)]
struct Past {
    jobs: u64,
    most: Criticality,
}

fn past_of(among: u64, t: u32, g: &Numbers) -> Past
    ensures jobs { result.jobs ≡ word 64 (past_in g.now among t) }
    ensures most { result.most.0 ≡ most_past g.now among t }
{
    let mut jobs: u64 = 0;
    let mut most = Criticality(0);
    for j in bits::each(among) {
        let past = (slack_in(g, j as usize) as u32) <= t;
        jobs = bits::with_bit_if(jobs, j, past);
        most = greater_if(past, criticality_in(g, j as usize), most);
    }
    Past { jobs, most }
}

// The jobs of a set that are less critical than c, and the priorities of the others.
#[derive(Clone, Copy)]
struct Held {
    jobs: u64,
    ready: u64,
}

fn held_of(among: u64, c: Criticality, g: &Numbers) -> Held
    ensures jobs { result.jobs ≡ word 64 (less_in g.now among c.0) }
    ensures ready { result.ready ≡ free_word g.now among c.0 }
{
    let mut jobs: u64 = 0;
    let mut ready: u64 = 0;
    for j in bits::each(among) {
        let held = c.exceeds(criticality_in(g, j as usize));
        let its = priority_in(g, j as usize);
        jobs = bits::with_bit_if(jobs, j, held);
        ready = bits::with_bit_if(ready, its.0, !held);
    }
    Held { jobs, ready }
}

// What tick t sees, by the jobs alive.
pub(crate) fn look(alive: u64, t: u32, g: &Numbers) -> View
    ensures { result ≡ view_in g.now alive t }
{
    let past = past_of(alive, t, g);
    let held = held_of(alive, past.most, g);
    let eligible = bits::without(alive, held.jobs);
    View {
        alive,
        past: past.jobs,
        suspended: held.jobs,
        eligible,
        ready: held.ready,
    }
}

// The jobs of a set that are strictly less critical than c.
pub(crate) fn less_critical_word(among: u64, c: Criticality, g: &Numbers) -> u64
    ensures { result ≡ word 64 (less_in g.now among c.0) }
{
    let mut jobs: u64 = 0;
    for j in bits::each(among) {
        let less = c.exceeds(criticality_in(g, j as usize));
        jobs = bits::with_bit_if(jobs, j, less);
    }
    jobs
}

// The greatest criticality among the jobs of a set that have done more than C, with one more for the entry, 0 where there is none.
fn most_over(among: u64, rec: Record, entry: u16, g: &Numbers) -> Criticality
    ensures { result.0 ≡ most_over g.now rec among entry }
{
    let mut most = Criticality(0);
    for j in bits::each(among) {
        let place = rec.places[j as usize];
        let done = more_if((entry as u32) == j, place.done, 1);
        let over = (nominal_in(g, j as usize) as u32) < done;
        most = greater_if(over, criticality_in(g, j as usize), most);
    }
    most
}

// The jobs that are ended in the tick in which the entry runs.
pub(crate) fn ended_in(seen: View, rec: Record, se: bool, entry: u16, g: &Numbers) -> u64
    ensures { result ≡ ended_in g.now se rec seen entry }
{
    if se {
        let most = most_over(seen.past, rec, entry, g);
        less_critical_word(seen.alive, most, g)
    } else {
        0
    }
}

// The lowest-numbered job of a set that has the priority, or idle.
fn lowest_of(among: u64, p: Priority, g: &Numbers) -> u16
    ensures { result ≡ least 64 (level_in g.now among p.0) idle }
{
    for j in bits::each(among) {
        let its = priority_in(g, j as usize);
        if its.equals(p) {
            return j as u16;
        }
    }
    IDLE
}

// Whether the entry is one of the n jobs, in the set, and has the priority.
fn may_run(among: u64, p: Priority, entry: u16, n: usize, g: &Numbers) -> bool
    requires { n ≤ 64 }
    ensures { result ≡ may_run_in g.now n among p.0 entry }
{
    if (entry as usize) < n {
        let its = priority_in(g, entry as usize);
        bits::has_bit(among, entry as u32) & its.equals(p)
    } else {
        false
    }
}

// The top priority that is ready; 64, which is no priority, where none is.
fn top_priority(ready: u64) -> Priority
    ensures { result.0 ≡ greatest 64 (bit ready) 64 }
{
    Priority(bits::highest(ready))
}

// The job that stays, or the lowest-numbered eligible job of the top priority that is ready, or idle: 64 is no priority.
pub(crate) fn choice(seen: View, tie: Tie, previous: u16, n: usize, g: &Numbers) -> u16
    requires { n ≤ 64 }
    ensures { result ≡ chosen_in g.now n tie seen previous }
{
    let top = top_priority(seen.ready);
    let may = may_run(seen.eligible, top, previous, n, g);
    if is_stay(tie) & may {
        previous
    } else {
        lowest_of(seen.eligible, top, g)
    }
}

// Whether the entry is a candidate, or idle with no candidate.
pub(crate) fn is_top_or_idle(seen: View, entry: u16, n: usize, g: &Numbers) -> bool
    requires { n ≤ 64 }
    ensures { result ≡ top_or_idle_in g.now n seen entry }
{
    let top = top_priority(seen.ready);
    may_run(seen.eligible, top, entry, n, g) | ((entry == IDLE) & (seen.ready == 0))
}

// The jobs of a set that wait while the entry runs: all but the entry, where it is one of the n jobs.
fn waiting_word(among: u64, entry: u16, n: usize) -> u64
    ensures { result ≡ waiting_in n among entry }
{
    if (entry as usize) < n {
        bits::without(among, bits::with_bit(0, entry as u32))
    } else {
        0
    }
}

// What the tick does in which the entry runs and the jobs of a word are ended.
pub(crate) fn ticked(seen: View, entry: u16, ended: u64, n: usize) -> Ticked
    ensures { result ≡ ticked_in n seen entry ended }
{
    let waiting = waiting_word(seen.eligible, entry, n);
    Ticked {
        entry,
        suspended: seen.suspended,
        waiting,
        ended,
    }
}
