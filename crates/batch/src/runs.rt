// The runs of a batch, one behind another in the lent list.
ghost use Rattle.std.specs.Prelude.{◌≡◌, ◌*◌, length, replicate};
ghost use Rattle.tables.specs.Outcomes.{Done};
ghost use Rattle.zsrm.specs.Record.{blank};
ghost use Rattle.batch.specs.Refusals.{check17};
ghost use Rattle.batch.specs.Code.{offer_of};
ghost use Rattle.batch.specs.Runs.{records_of, schedules_of};

use crate::given::Offer;
use zsrm::{Mode, Record, Tie, run};

// The records of no run.
pub(crate) fn no_records() -> [Record; 32]
    ensures { result ≡ replicate 32 blank }
{
    let blank = Record::blank();
    [blank; 32]
}

// How many numbers a list of so many jobs has: three for each.
pub(crate) fn list_length(count: u32) -> usize
    ensures { result ≡ count * 3 }
{
    (count as usize) * 3
}

// Each run on its own list, lent its own place in the schedule; the records by the numbers of their runs.
pub(crate) fn run_lists(given: Offer, schedule: &mut [u16]) -> [Record; 32]
    requires { check17 given.jobs.now given.counts.now given.horizon (length schedule.old) ≡ Done }
    ensures records { result ≡ records_of (offer_of given.entry) schedule.old (length given.entry.counts.now) }
    ensures writes { schedule.new ≡ schedules_of (offer_of given.entry) schedule.old (length given.entry.counts.now) }
{
    let mut records = no_records();
    let mut from: usize = 0;
    let mut at: usize = 0;
    for (r, count) in given.counts.iter().enumerate() {
        let to = from + list_length(*count);
        let end = at + (given.horizon as usize);
        let own = run(
            given.mode,
            Tie::Lowest,
            given.tasks,
            &given.jobs[from..to],
            given.horizon,
            &mut schedule[at..end],
        );
        records[r] = own.record;
        from = to;
        at = end;
    }
    records
}
