// The calls from C, which the crate zsrm_c exports: numbers and byte slices in, one number out. The lists are checked and read as they lie
// in their bytes; the schedule's bytes are written and read from instant to instant.
ghost use Rattle.std.specs.Prelude.{◌≡◌, ◌+◌, ◌*◌, ◌≤◌};
ghost use Rattle.zsrm.specs.Bytes.{run_result, run_bytes, claim_result};

use crate::c_claim::claim_bytes;
use crate::c_run::run_bytes;
use crate::reading::prepare;
use tables::Refusal;

// A refusal's result: its number plus 256 times its place.
fn packed(refusal: Refusal) -> u32
    requires { (refusal.number ≤ 13) × (refusal.place ≤ 64) }
    ensures { result ≡ refusal.number + 256 * refusal.place }
{
    refusal.number + refusal.place * 256
}

// Our run, from C: 0 for done, or a refusal's number plus 256 times its place, the schedule's bytes then being as they were.
pub fn zsrm_run(mode: u32, tasks: &[u8], jobs: &[u8], horizon: u32, schedule: &mut [u8]) -> u32
    ensures answers { result ≡ run_result mode tasks.now jobs.now horizon schedule.old }
    ensures writes { schedule.new ≡ run_bytes mode tasks.now jobs.now horizon schedule.old }
{
    let mut g = [0u16; 320];
    let mut masks = [0u64; 32];
    let found = prepare(
        mode,
        tasks,
        jobs,
        horizon,
        schedule.len(),
        &mut g,
        &mut masks,
    );
    match found {
        Ok(()) => {
            run_bytes(mode, tasks, jobs, &g, &masks, schedule);
            0
        }
        Err(refusal) => packed(refusal),
    }
}

// A claimed schedule, from C: 0 for legal, 65,536 plus t for not legal at t, a refusal as above.
pub fn zsrm_claim(mode: u32, tasks: &[u8], jobs: &[u8], horizon: u32, schedule: &[u8]) -> u32
    ensures { result ≡ claim_result mode tasks.now jobs.now horizon schedule.now }
{
    let mut g = [0u16; 320];
    let mut masks = [0u64; 32];
    let found = prepare(
        mode,
        tasks,
        jobs,
        horizon,
        schedule.len(),
        &mut g,
        &mut masks,
    );
    match found {
        Ok(()) => claim_bytes(mode, tasks, jobs, &masks, &g, schedule),
        Err(refused) => packed(refused),
    }
}
