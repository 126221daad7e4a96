// One turn of a call from C: who may run at a tick, how far nothing else happens, and what a stretch of the entry makes of what is carried.
ghost use Rattle.std.specs.Prelude.{◌≡◌, ◌+◌, ◌≤◌, ◌<◌, get_or};
ghost use Rattle.zsrm.specs.Code.Calls.{eligible_of, reach_of, stretch_of, left_of, alive_after, done_by};

use crate::compact::{Going, left_of};
use crate::gap::{arrival_gap, run_gap};
use crate::gather::{Numbers, execution_in};
use crate::masks::{Masks, ended_of, held_by};

// The jobs that may run: those alive and not suspended.
pub(crate) fn eligible_of(going: Going, masks: &Masks, g: &Numbers) -> u64
    ensures { result ≡ eligible_of masks.now g.now going }
{
    let past = bits::without(going.alive, going.early);
    let held = held_by(past, masks, g);
    bits::without(going.alive, held)
}

// How far from t on nothing happens but to the entry: to the next zero-slack instant, the end, or the next arrival.
#[tactic(auto, unfolding(crate::specs::Code::Calls::reach_of, crate::specs::Code::Calls::most_of))]
pub(crate) fn reach_of(t: u32, going: Going, ticks: u32, n: usize, g: &Numbers) -> u32
    requires { (t < ticks) × (t < going.soon) × (n ≤ 64) }
    ensures { result ≡ reach_of g.now n going t ticks }
{
    let end = going.soon.min(ticks);
    arrival_gap(t, going.came, end - t, n, g)
}

// The jobs left alive where the entry, a job, has come to so many ticks done.
fn left_by(
    se: bool,
    entry: u16,
    ticks: u16,
    going: Going,
    done: &[u16; 64],
    masks: &Masks,
    g: &Numbers,
) -> u64
    requires { entry < 64 }
    ensures { result ≡ left_of g.now se done.now entry masks.now going ticks }
{
    let finishes = ticks == execution_in(g, entry as usize);
    if se {
        let past = bits::without(going.alive, going.early);
        left_of(
            going.alive,
            ended_of(done, past, entry, masks, g),
            entry,
            finishes,
        )
    } else {
        left_of(going.alive, 0, entry, finishes)
    }
}

// How many ticks the entry runs, and who is alive behind them.
#[derive(Clone, Copy)]
pub(crate) struct Stretch {
    pub ticks: u32,
    pub alive: u64,
}

// As far as the entry runs, of so many ticks; those it runs are put to its done.
pub(crate) fn run_on(
    se: bool,
    entry: u16,
    reach: u32,
    going: Going,
    done: &mut [u16; 64],
    masks: &Masks,
    n: usize,
    g: &Numbers,
) -> Stretch
    requires { (n ≤ 64) × (entry < n → get_or done.old entry 0 + reach < 65536) }
    ensures ticks { result.ticks ≡ stretch_of g.now se done.old entry n reach }
    ensures alive { result.alive ≡ alive_after g.now se done.old entry n masks.now going result.ticks }
    ensures done { done.new ≡ done_by done.old entry n result.ticks }
{
    let j = entry as usize;
    if j < n {
        let had = done[j];
        let k = run_gap(se, entry, had, reach, n, g);
        let ticks = had + (k as u16);
        let alive = left_by(se, entry, ticks, going, done, masks, g);
        done[j] = ticks;
        Stretch { ticks: k, alive }
    } else {
        Stretch {
            ticks: reach,
            alive: going.alive,
        }
    }
}
