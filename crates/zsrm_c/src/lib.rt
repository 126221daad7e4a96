// The archive that firmware in C links: the two calls of the library `zsrm`, under their C names.
#![tactic(auto)]

ghost use Rattle.std.specs.Prelude.{◌≡◌};
ghost use Rattle.zsrm.specs.Bytes.{run_result, run_bytes, claim_result};

// Our run: 0 for done, or a refusal's number plus 256 times its place, the schedule's bytes then being as they were.
#[unsafe(no_mangle)]
pub extern "C" fn zsrm_run(
    mode: u32,
    tasks: &[u8],
    jobs: &[u8],
    horizon: u32,
    schedule: &mut [u8],
) -> u32
    ensures answers { result ≡ run_result mode tasks.now jobs.now horizon schedule.old }
    ensures writes { schedule.new ≡ run_bytes mode tasks.now jobs.now horizon schedule.old }
{
    zsrm::zsrm_run(mode, tasks, jobs, horizon, schedule)
}

// A claimed schedule: 0 for legal, 65,536 plus t for not legal at t, a refusal as above.
#[unsafe(no_mangle)]
pub extern "C" fn zsrm_claim(
    mode: u32,
    tasks: &[u8],
    jobs: &[u8],
    horizon: u32,
    schedule: &[u8],
) -> u32
    ensures { result ≡ claim_result mode tasks.now jobs.now horizon schedule.now }
{
    zsrm::zsrm_claim(mode, tasks, jobs, horizon, schedule)
}
