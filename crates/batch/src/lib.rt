// Request Five, many runs in one call: up to 32 job lists against one table, each run's schedule at its own place in the one lent list. What
// is one run's is the library's own `run`.
#![tactic(auto)]

ghost use Rattle.std.specs.Prelude.{◌≡◌};
ghost use Rattle.batch.specs.Answers.{batch_answer, batch_schedule};
ghost use Rattle.batch.specs.Runs.{offer};

use given::Offer;
use refusals::check_batch;
use runs::{no_records, run_lists};
use zsrm::Mode;

mod answers;
mod given;
mod refusals;
mod runs;

pub use answers::Batch;
pub use zsrm::{Outcome, Refusal};

// Each run, with the lowest job number among equals, into its own place in the lent list. Refusals: the table's, 9 and 17 with run 0, then
// 5 to 8 with the number of the first run whose list is refused; all are found before anything is written.
pub fn run_each(
    mode: Mode,
    tasks: &[u32],
    jobs: &[u32],
    counts: &[u32],
    horizon: u32,
    schedule: &mut [u16],
) -> Batch
    ensures answers { result ≡ batch_answer (offer mode tasks.now jobs.now counts.now horizon) schedule.old }
    ensures writes { schedule.new ≡ batch_schedule (offer mode tasks.now jobs.now counts.now horizon) schedule.old }
{
    let given = Offer {
        mode,
        tasks,
        jobs,
        counts,
        horizon,
    };
    match check_batch(given, schedule.len()) {
        Ok(()) => Batch {
            outcome: Ok(()),
            run: 0,
            records: run_lists(given, schedule),
        },
        Err(refused) => Batch {
            outcome: Err(refused.refusal),
            run: refused.run,
            records: no_records(),
        },
    }
}
