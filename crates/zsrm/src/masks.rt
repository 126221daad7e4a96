// The jobs of each priority, and of each task the jobs less critical than it, as 32 words made once; and what a tick sees by them. Words
// 0 to 15 hold the jobs by how many tasks have a higher priority, words 16 + k the jobs less critical than task k.
ghost use Rattle.std.specs.Prelude.{◌≡◌, cond, ℕ, ◌≤◌, ◌<◌, get_or};
ghost use Rattle.zsrm.specs.Code.Masks.{join, criticality_at, priority_at, higher, less_than, MasksTo, top_of, may_stand, lowest_of, task_in, less_of, held_by, ended_of};

use crate::gather::{Numbers, nominal_in};
use crate::next::more_if;
use tables::{Criticality, IDLE, Priority};

pub(crate) type Masks = [u64; 32];

// The numbers in either word. It has a name of its own, as its proof, bit by bit, then serves all that join.
fn join(v: u64, w: u64) -> u64
    ensures { result ≡ join v w }
{
    v | w
}

// Word i of a list joined where the test passes. It is read there alone: a loop that always reads is compiled to take four at once,
// which for so few costs more.
fn join_word_if(v: u64, words: &[u64; 16], i: usize, test: bool) -> u64
    requires { i < 16 }
    ensures { result ≡ cond test (join v (get_or words.now i 0)) v }
{
    if test { join(v, words[i]) } else { v }
}

// The criticality of task k.
fn criticality_at(of: &[u16; 96], k: usize) -> Criticality
    requires { k < 16 }
    ensures { result.0 ≡ criticality_at of.now k }
{
    let criticality = of[6 * k + 4];
    Criticality(criticality as u32)
}

// The priority of task k.
fn priority_at(of: &[u16; 96], k: usize) -> Priority
    requires { k < 16 }
    ensures { result.0 ≡ priority_at of.now k }
{
    let priority = of[6 * k + 5];
    Priority(priority as u32)
}

// How many of n tasks have a priority strictly higher than p.
fn higher(of: &[u16; 96], n: usize, p: Priority) -> usize
    requires { n ≤ 16 }
    ensures { result ≡ higher of.now n p.0 }
{
    let mut found: usize = 0;
    for m in 0..n {
        let its = priority_at(of, m);
        let one = bits::one_if(p.0 < its.0);
        found += one as usize;
    }
    found
}

// The jobs of those of n tasks that are strictly less critical than c.
fn less_than(of: &[u16; 96], words: &[u64; 16], n: usize, c: Criticality) -> u64
    requires { n ≤ 16 }
    ensures { result ≡ less_than of.now words.now n c.0 }
{
    let mut jobs: u64 = 0;
    for m in 0..n {
        let its = criticality_at(of, m);
        jobs = join_word_if(jobs, words, m, c.exceeds(its));
    }
    jobs
}

// The jobs of each of n tasks, put among those of its priority.
fn put_levels(of: &[u16; 96], words: &[u64; 16], n: usize, masks: &mut Masks)
    requires { (n ≤ 16) × ((q : ℕ) → q < 16 → get_or masks.old q 0 ≡ 0) }
    ensures { MasksTo of.now words.now n n 0 masks.new }
{
    for k in 0..n {
        let its = priority_at(of, k);
        let q = higher(of, n, its);
        masks[q] = join(masks[q], words[k]);
    }
}

// Of each of n tasks, the jobs less critical than it.
fn put_less(of: &[u16; 96], words: &[u64; 16], n: usize, masks: &mut Masks)
    requires { (n ≤ 16) × MasksTo of.now words.now n n 0 masks.old }
    ensures { MasksTo of.now words.now n n n masks.new }
{
    for k in 0..n {
        let its = criticality_at(of, k);
        masks[16 + k] = less_than(of, words, n, its);
    }
}

// Both, in words that are 0 before.
pub(crate) fn make_masks(of: &[u16; 96], words: &[u64; 16], n: usize, masks: &mut Masks)
    requires { (n ≤ 16) × ((q : ℕ) → q < 16 → get_or masks.old q 0 ≡ 0) }
    ensures { MasksTo of.now words.now n n n masks.new }
{
    put_levels(of, words, n, masks);
    put_less(of, words, n, masks);
}

// The jobs of a set that have its highest priority. It calls nothing, so that it is compiled into its callers.
pub(crate) fn top_of(among: u64, masks: &Masks) -> u64
    ensures { result ≡ top_of masks.now among }
{
    for q in 0..16 {
        let level = masks[q];
        let found = among & level;
        if 0 < found {
            return found;
        }
    }
    0
}

// Whether an entry may stand where the jobs of a set are eligible: one that has the highest priority, or idle with none.
pub(crate) fn may_stand(among: u64, entry: u16, masks: &Masks) -> bool
    ensures { result ≡ may_stand masks.now among entry }
{
    if among == 0 {
        entry == IDLE
    } else {
        bits::has_bit(top_of(among, masks), entry as u32)
    }
}

// The entry of our run where the jobs of a set are eligible: the lowest-numbered that has the highest priority, or idle with none.
pub(crate) fn lowest_of(among: u64, masks: &Masks) -> u16
    ensures { result ≡ lowest_of masks.now among }
{
    if among == 0 {
        IDLE
    } else {
        bits::lowest(top_of(among, masks)) as u16
    }
}

// The number of job j's task.
fn task_in(g: &Numbers, j: usize) -> usize
    requires { j < 64 }
    ensures { result ≡ task_in g.now j }
{
    (g[5 * j + 4] % 16) as usize
}

// The jobs less critical than job j.
fn less_of(masks: &Masks, g: &Numbers, j: usize) -> u64
    requires { j < 64 }
    ensures { result ≡ less_of masks.now g.now j }
{
    let k = task_in(g, j);
    masks[16 + k]
}

// They joined where the test passes.
fn join_less_if(v: u64, masks: &Masks, g: &Numbers, j: usize, test: bool) -> u64
    requires { j < 64 }
    ensures { result ≡ cond test (join v (less_of masks.now g.now j)) v }
{
    if test {
        join(v, less_of(masks, g, j))
    } else {
        v
    }
}

// The jobs less critical than some job of a set.
pub(crate) fn held_by(among: u64, masks: &Masks, g: &Numbers) -> u64
    ensures { result ≡ held_by masks.now g.now among }
{
    let mut held: u64 = 0;
    for j in bits::each(among) {
        let less = less_of(masks, g, j as usize);
        held = join(held, less);
    }
    held
}

// The jobs less critical than some job of a set whose done, with one more for the entry, exceeds C.
pub(crate) fn ended_of(done: &[u16; 64], among: u64, entry: u16, masks: &Masks, g: &Numbers) -> u64
    ensures { result ≡ ended_of masks.now g.now done.now among entry }
{
    let mut ended: u64 = 0;
    for j in bits::each(among) {
        let had = done[j as usize];
        let ticks = more_if((entry as u32) == j, had, 1);
        let nominal = nominal_in(g, j as usize);
        ended = join_less_if(ended, masks, g, j as usize, (nominal as u32) < ticks);
    }
    ended
}
