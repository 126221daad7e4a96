// Our run for a call from C, from instant to instant: its entries written as bytes, two for each tick.
ghost use Rattle.std.specs.Prelude.{◌≡◌, ◌+◌, ◌*◌, ◌/◌, ◌%◌, ◌≤◌, eqb, length, replicate};
ghost use Rattle.std.proofs.lemmas.List.Edits.{sets};
ghost use Rattle.tables.specs.Bytes.{bytes_of};
ghost use Rattle.zsrm.specs.declared.tie.Tie.{Tie};
ghost use Rattle.zsrm.specs.Run.{run_entries};
ghost use Rattle.zsrm.specs.Bytes.{given_bytes};
ghost use Rattle.zsrm.specs.Code.Calls.{Call};

use crate::bytes::put2;
use crate::calls::{eligible_of, reach_of, run_on};
use crate::compact::{Going, at_tick, kept};
use crate::gather::Numbers;
use crate::masks::{Masks, lowest_of};

// The entry written k times, from t on.
fn fill_bytes(bytes: &mut [u8], t: usize, k: usize, entry: u16)
    requires { (t + k) * 2 ≤ length bytes.old }
    ensures { bytes.new ≡ sets bytes.old (t * 2) (bytes_of 2 (replicate k entry)) }
{
    for i in 0..k {
        put2(bytes, t + i, entry);
    }
}

// Our run of the lists that the bytes spell, from the fresh record: it takes the lowest candidate, as Stay does from there.
pub(crate) fn run_bytes(
    mode: u32,
    tasks: &[u8],
    jobs: &[u8],
    g: &Numbers,
    masks: &Masks,
    schedule: &mut [u8],
)
    requires call { Call (given_bytes mode tasks.now jobs.now) g.now masks.now (length jobs.now / 12) (eqb mode 1) }
    requires schedule_len_bound { (length schedule.old ≤ 32768) × (length schedule.old % 2 ≡ 0) }
    ensures { schedule.new ≡ bytes_of 2 (run_entries (given_bytes mode tasks.now jobs.now) Tie.Stay (length schedule.old / 2)) }
{
    let n = jobs.len() / 12;
    let se = mode == 1;
    let ticks = schedule.len() / 2;
    let mut done = [0u16; 64];
    let mut going = Going {
        alive: 0,
        early: 0,
        came: 0,
        soon: 65535,
    };
    let mut t: usize = 0;
    // a turn takes a whole stretch of ticks, as many as nothing happens in, so t goes over no range
    while t < ticks {
        let here = at_tick(t as u32, going, n, g);
        let eligible = eligible_of(here, masks, g);
        let entry = lowest_of(eligible, masks);
        let reach = reach_of(t as u32, here, ticks as u32, n, g);
        let on = run_on(se, entry, reach, here, &mut done, masks, n, g);
        let k = on.ticks as usize;
        fill_bytes(schedule, t, k, entry);
        let left = Going {
            alive: on.alive,
            ..here
        };
        going = kept((t + k) as u32, left, g);
        t += k;
    }
}
