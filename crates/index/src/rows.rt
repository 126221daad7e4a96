// The rows of an index: where they stand, and how they are written.
ghost use Rattle.std.specs.Prelude.{Bool, ◌≡◌, ◌+◌, ◌*◌, ◌<◌, ◌≤◌, length};
ghost use Rattle.std.proofs.Math.Seq.{paste};
ghost use Rattle.tables.specs.Tables.{lists, task_count};
ghost use Rattle.index.specs.Code.{Checked, Sized, plan_of};
ghost use Rattle.index.specs.Counts.{all_jobs_or_idle};
ghost use Rattle.index.specs.Refusals.{built_from};
ghost use Rattle.index.specs.Rows.{index_of, row_count, row_width};

use crate::counts::count_on;
use crate::given::Plan;

// How many rows an index has.
pub(crate) fn row_count(horizon: u32) -> usize
    ensures { result ≡ row_count horizon }
{
    (horizon / 64 + 1) as usize
}

// The first row past a tick: that of the first multiple of 64 above it.
pub(crate) fn first_past(tick: u32) -> usize
    ensures { (tick < result * 64) × (result * 64 ≤ tick + 64) }
{
    (tick / 64 + 1) as usize
}

// Where row r begins.
pub(crate) fn row_at(given: Plan, r: usize) -> usize
    requires { (task_count given.tasks.now ≤ 16) × (r ≤ 257) }
    ensures is { result ≡ r * row_width given.entry.tasks.now }
    ensures small { result ≤ 4369 }
{
    r * (given.tasks.len() / 7 + 1)
}

// Row r is what the counts hold.
fn put_row(given: Plan, counts: [u32; 17], r: usize, index: &mut [u32])
    requires tasks_bound { (task_count given.tasks.now ≤ 16) × (r ≤ 257) }
    requires tasks_in_bounds { r * row_width given.tasks.now + row_width given.tasks.now ≤ length index.old }
    ensures { index.new ≡ paste index.old (r * row_width given.entry.tasks.now) counts (row_width given.entry.tasks.now) }
{
    let width = given.tasks.len() / 7 + 1;
    let at = row_at(given, r);
    index[at..at + width].copy_from_slice(&counts[..width]);
}

// The whole index of a schedule, row by row, each entry looked at once.
pub(crate) fn write_rows(given: Plan, schedule: &[u16], index: &mut [u32])
    requires checked { Checked (lists given.tasks.now given.jobs.now) }
    requires sized { Sized given.tasks.now given.horizon index.old }
    requires schedule_len { length schedule.now ≡ given.horizon }
    requires schedule_value { all_jobs_or_idle given.jobs.now (built_from given.horizon schedule.now) ≡ Bool.true }
    ensures { index.new ≡ index_of (plan_of given.entry) schedule.now }
{
    let last = (given.horizon / 64) as usize;
    let mut counts = [0u32; 17];
    for r in 0..last {
        put_row(given, counts, r, index);
        // by a name of its own: an array that goes right into `counts` gets no proof yet
        let next = count_on(given, counts, schedule, r);
        counts = next;
    }
    put_row(given, counts, last, index);
}
