// The ends of a range: each one's last row at or before it plus the entries since.
ghost use Rattle.std.specs.Prelude.{◌≡◌, ◌+◌, ◌*◌, ◌≤◌, ◌<◌, length};
ghost use Rattle.tables.specs.Tables.{lists, task_count};
ghost use Rattle.tables.specs.Outcomes.{Done};
ghost use Rattle.index.specs.Answers.{between_answer, check_asked};
ghost use Rattle.index.specs.Code.{difference, tally_from, plan_of};
ghost use Rattle.index.specs.Rows.{row_width};

use crate::counts::ticks_of;
use crate::given::Plan;
use crate::rows::row_at;
use tables::Refusal;

// The number of a row for c plus the entries from that row's multiple up to t, at most 63 where it is t's last row; in 64 bits, as the
// number may be any; none where an entry is neither job nor idle.
fn end_at(
    given: Plan,
    schedule: &[u16],
    index: &[u32],
    c: usize,
    row: usize,
    t: usize,
) -> Option<u64>
    requires tasks_bound { (task_count given.tasks.now ≤ 16) × (row ≤ 257) }
    requires row_bound { (row * 64 ≤ t) × (t ≤ length schedule.now) × (length schedule.now ≤ 16384) }
    requires c_in_bounds { row * row_width given.tasks.now + c < length index.now }
    ensures { result ≡ tally_from (lists given.entry.tasks.now given.entry.jobs.now) schedule.now index.now c row t }
{
    let from = row * 64;
    let since = ticks_of(given, c, &schedule[from..t])?;
    Some((index[row_at(given, row) + c] as u64) + since)
}

// The first end's count taken from the second's; 16 where an entry read is neither job nor idle, or a count lies outside 0 to the horizon.
fn difference(horizon: u32, first: Option<u64>, second: Option<u64>) -> Result<u32, Refusal>
    ensures { result ≡ difference horizon first second }
{
    match (first, second) {
        (Some(first), Some(second)) if first <= second && second <= (horizon as u64) => {
            Ok((second - first) as u32)
        }
        _ => Err(Refusal {
            number: 16,
            place: 0,
        }),
    }
}

// Both ends read, each from its last row on, and their difference: the answer to a question that is not refused before anything is read.
pub(crate) fn between_ends(
    given: Plan,
    schedule: &[u16],
    index: &[u32],
    task: u32,
    a: u32,
    b: u32,
) -> Result<u32, Refusal>
    requires { check_asked (plan_of given) (length schedule.now) (length index.now) task a b ≡ Done }
    ensures { result ≡ between_answer (plan_of given.entry) schedule.now index.now task a b }
{
    let c = task as usize;
    let first = end_at(given, schedule, index, c, (a / 64) as usize, a as usize);
    let second = end_at(given, schedule, index, c, (b / 64) as usize, b as usize);
    difference(given.horizon, first, second)
}
