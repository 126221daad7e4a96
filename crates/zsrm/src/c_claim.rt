// A claimed schedule of a call from C, from instant to instant: where it stands any entry that may run is legal, and up to the next instant
// no other.
ghost use Rattle.std.specs.Prelude.{◌≡◌, ◌+◌, ◌*◌, ◌/◌, ◌≤◌, eqb, length};
ghost use Rattle.tables.specs.Bytes.{numbers_in};
ghost use Rattle.zsrm.specs.Legal.{claim};
ghost use Rattle.zsrm.specs.Bytes.{given_bytes, packed_claim};
ghost use Rattle.zsrm.specs.Code.Calls.{Call, others_in};
ghost use Rattle.zsrm.specs.Code.Underway.{repeated};

use crate::bytes::number2;
use crate::calls::{eligible_of, reach_of, run_on};
use crate::compact::{Going, at_tick};
use crate::gather::Numbers;
use crate::masks::{Masks, may_stand};

// Whether some of the k entries from t on is another than this. The differences are joined and the loop has no other end, so that it is
// compiled to take many at once.
fn differs(schedule: &[u8], t: usize, k: usize, entry: u16) -> bool
    requires { (t + k) * 2 ≤ length schedule.now }
    ensures { result ≡ others_in (numbers_in 2 schedule.now) t entry k }
{
    let mut found: u16 = 0;
    for i in 0..k {
        let its = number2(schedule, t + i);
        found |= its ^ entry;
    }
    found != 0
}

// How many of them are this, up to the first other one.
fn same_until(schedule: &[u8], t: usize, k: usize, entry: u16) -> usize
    requires { (t + k) * 2 ≤ length schedule.now }
    ensures { result ≡ repeated (numbers_in 2 schedule.now) t entry k }
{
    for many in 0..k {
        let its = number2(schedule, t + many);
        if its != entry {
            return many;
        }
    }
    k
}

// What a claim of bytes comes to, as one number; what is read of the lists are the jobs' numbers and the masks.
pub(crate) fn claim_bytes(
    mode: u32,
    tasks: &[u8],
    jobs: &[u8],
    masks: &Masks,
    g: &Numbers,
    schedule: &[u8],
) -> u32
    requires call { Call (given_bytes mode tasks.now jobs.now) g.now masks.now (length jobs.now / 12) (eqb mode 1) }
    requires schedule_len_bound { length schedule.now ≤ 32768 }
    ensures { result ≡ packed_claim (claim (given_bytes mode tasks.now jobs.now) (numbers_in 2 schedule.now)) }
{
    let n = jobs.len() / 12;
    let ticks = schedule.len() / 2;
    let mut done = [0u16; 64];
    let mut going = Going {
        alive: 0,
        early: 0,
        came: 0,
        soon: 65535,
    };
    let mut t: usize = 0;
    // a turn takes a whole stretch of ticks, as many as nothing happens in, so t goes over no range
    while t < ticks {
        let seen = at_tick(t as u32, going, n, g);
        let entry = number2(schedule, t);
        let eligible = eligible_of(seen, masks, g);
        if may_stand(eligible, entry, masks) {
            let reach = reach_of(t as u32, seen, ticks as u32, n, g);
            let ran = run_on(mode == 1, entry, reach, seen, &mut done, masks, n, g);
            let k = ran.ticks as usize;
            if differs(schedule, t, k, entry) {
                return 65536 + ((t + same_until(schedule, t, k, entry)) as u32);
            }
            going = Going {
                alive: ran.alive,
                ..seen
            };
            t += k;
        } else {
            return 65536 + (t as u32);
        }
    }
    0
}
