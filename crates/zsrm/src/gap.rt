// How far from a tick on nothing can happen: to the next arrival, zero-slack instant, finish, or in SE nominal time.
ghost use Rattle.std.specs.Prelude.{◌≡◌, ◌≤◌};
ghost use Rattle.bits.specs.Below.{word};
ghost use Rattle.zsrm.specs.Code.Gathered.{until, arrival_gap, run_gap, slack_gap, gap_in, ahead_in, came_in, with_span};

use crate::gather::{Numbers, arrival_in, execution_in, nominal_in, slack_in};

// k, or less: as far as x lies ahead of t.
#[tactic(auto, unfolding(crate::specs::Code::Gathered::until))]
fn until(k: u32, t: u32, x: u32) -> u32
    ensures { result ≡ until k t x }
{
    if t < x { k.min(x - t) } else { k }
}

// As far as the arrival of the next job lies ahead of t, of n jobs the first having come.
pub(crate) fn arrival_gap(t: u32, came: usize, most: u32, n: usize, g: &Numbers) -> u32
    requires { n ≤ 64 }
    ensures { result ≡ arrival_gap g.now n came t most }
{
    if came < n {
        let next = arrival_in(g, came);
        until(most, t, next as u32)
    } else {
        most
    }
}

// As far as the entry's job, with some ticks done, may run: to its end, in SE to C.
pub(crate) fn run_gap(se: bool, entry: u16, done: u16, most: u32, n: usize, g: &Numbers) -> u32
    requires { n ≤ 64 }
    ensures { result ≡ run_gap g.now n se entry done most }
{
    if (entry as usize) < n {
        let c = execution_in(g, entry as usize);
        let k = until(most, done as u32, c as u32);
        let nominal = nominal_in(g, entry as usize);
        if se {
            until(k, done as u32, nominal as u32)
        } else {
            k
        }
    } else {
        most
    }
}

// How many ticks nothing happens, and the jobs that have come and whose zero-slack instant lies ahead.
#[derive(Clone, Copy)]
pub(crate) struct Ahead {
    pub ticks: u32,
    pub early: u64,
}

// As far as no zero-slack instant of the jobs of a set lies ahead of t, and those of them whose does.
pub(crate) fn slack_gap(early: u64, t: u32, most: u32, g: &Numbers) -> Ahead
    ensures ticks { result.ticks ≡ slack_gap g.now early t most 64 }
    ensures early { result.early ≡ word 64 (ahead_in g.now early t) }
{
    let mut ticks = most;
    let mut still: u64 = 0;
    for j in bits::each(early) {
        let z = slack_in(g, j as usize) as u32;
        ticks = until(ticks, t, z);
        still = bits::with_bit_if(still, j, t < z);
    }
    Ahead {
        ticks,
        early: still,
    }
}

// As far as nothing happens from t on, the entry having some ticks done, and those of the early jobs that are still early.
pub(crate) fn gap(
    t: u32,
    se: bool,
    entry: u16,
    done: u16,
    came: usize,
    early: u64,
    most: u32,
    n: usize,
    g: &Numbers,
) -> Ahead
    requires { n ≤ 64 }
    ensures ticks { result.ticks ≡ gap_in g.now n se t entry done came early most }
    ensures early { result.early ≡ word 64 (ahead_in g.now early t) }
{
    let arrivals = arrival_gap(t, came, most, n, g);
    let runs = run_gap(se, entry, done, arrivals, n, g);
    slack_gap(early, t, runs, g)
}

// How many of n jobs have come by t, the first of them having come before.
pub(crate) fn came_by(t: u32, first: usize, n: usize, g: &Numbers) -> usize
    requires { (first ≤ n) × (n ≤ 64) }
    ensures { result ≡ came_in g.now n first t }
{
    for j in first..n {
        let a = arrival_in(g, j);
        if t < (a as u32) {
            return j;
        }
    }
    n
}

// The word with the bits from a to b set too.
pub(crate) fn with_span(w: u64, a: usize, b: usize) -> u64
    requires { (a ≤ b) × (b ≤ 64) }
    ensures { result ≡ with_span w a b }
{
    let mut word = w;
    for j in a..b {
        word = bits::with_bit(word, j as u32);
    }
    word
}
