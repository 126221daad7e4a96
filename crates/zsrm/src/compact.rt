// What a call carries from tick to tick instead of a record, and how it counts the jobs that come.
ghost use Rattle.std.specs.Prelude.{◌≡◌, cond, ℕ, ◌≤◌, ◌<◌};
ghost use Rattle.bits.specs.Word.{without, with_bit};
ghost use Rattle.zsrm.specs.Code.Gathered.{arrival_in};
ghost use Rattle.zsrm.specs.Code.Compact.{counted_in, Onward, OnwardRun};
ghost use Rattle.zsrm.specs.Code.Masks.{meet};

use crate::gap::slack_gap;
use crate::gather::{Numbers, arrival_in, execution_in, slack_in};

// The jobs alive, those whose zero-slack instant may lie ahead, how many came, and an instant none of theirs is before.
#[derive(Clone, Copy)]
pub(crate) struct Going {
    pub alive: u64,
    pub early: u64,
    pub came: usize,
    pub soon: u32,
}

// With the next job counted.
#[tactic(auto, unfolding(crate::specs::Code::Compact::counted_in))]
fn counted(going: Going, g: &Numbers) -> Going
    requires { going.came < 64 }
    ensures { result ≡ counted_in g.now going }
{
    let j = going.came;
    let c = execution_in(g, j);
    let z = slack_in(g, j) as u32;
    let alive = bits::with_bit_if(going.alive, j as u32, 0 < c);
    let early = bits::with_bit(going.early, j as u32);
    Going {
        alive,
        early,
        came: j + 1,
        soon: z.min(going.soon),
    }
}

// With all that come by t counted, of n jobs.
fn arrive(t: u32, going: Going, n: usize, g: &Numbers) -> Going
    requires { n ≤ 64 }
    ensures onward { Onward g.now n t going result }
    ensures later { result.came < n → t < arrival_in g.now result.came }
{
    let mut next = going;
    // no index of its own: which job is next is part of what is carried
    while next.came < n {
        let a = arrival_in(g, next.came);
        if t < (a as u32) {
            return next;
        }
        next = counted(next, g);
    }
    next
}

// With those alone early whose zero-slack instant lies ahead of t.
fn pruned(t: u32, going: Going, g: &Numbers) -> Going
    requires { t ≤ 16384 }
    ensures onward { (n : ℕ) → n ≤ 64 → Onward g.now n t going result }
    ensures ahead { t < result.soon }
    ensures came { result.came ≡ going.came }
{
    let ahead = slack_gap(going.early, t, 65535 - t, g);
    Going {
        early: ahead.early,
        soon: t + ahead.ticks,
        ..going
    }
}

// What is carried at tick t: all that come by it counted, and whoever is past zero slack early no longer.
// Compiled into its two callers: called, it makes each call from C an eighth longer.
#[inline(always)]
pub(crate) fn at_tick(t: u32, going: Going, n: usize, g: &Numbers) -> Going
    requires { (t ≤ 16384) × (n ≤ 64) }
    ensures onward { Onward g.now n t going result }
    ensures later { result.came < n → t < arrival_in g.now result.came }
    ensures ahead { t < result.soon }
{
    let next = arrive(t, going, n, g);
    if next.soon <= t {
        pruned(t, next, g)
    } else {
        next
    }
}

// The jobs alive without the ended, and without the entry where it finishes.
pub(crate) fn left_of(alive: u64, ended: u64, entry: u16, finishes: bool) -> u64
    ensures { result ≡ without (without alive ended) (cond finishes (with_bit 0 entry) 0) }
{
    let rest = bits::without(alive, ended);
    let its = bits::with_bit_if(0, entry as u32, finishes);
    bits::without(rest, its)
}

// The numbers in both words.
fn meet(v: u64, w: u64) -> u64
    ensures { result ≡ meet v w }
{
    v & w
}

// With the living alone early, and only their zero-slack instants: of a run, whose stretches those of no other job end.
pub(crate) fn kept(t: u32, going: Going, g: &Numbers) -> Going
    requires { t ≤ 16384 }
    ensures { OnwardRun g.now t going result }
{
    let early = meet(going.early, going.alive);
    if early == going.early {
        return going;
    }
    pruned(t, Going { early, ..going }, g)
}
