// The program's text: the input read, the listing written. Document 01, "The listing", stands as definitions in specs/.
#![tactic(auto)]

ghost use Rattle.std.specs.Prelude.{◌⊎◌, ◌≡◌, ◌≤◌, ◌<◌, length};
ghost use Rattle.sheet.specs.Listing.{given_listing, listing, printed};
ghost use Rattle.text.specs.Wrote.{Put, Wrote};
ghost use Rattle.sheet.specs.Code.{Judgeable};
ghost use Rattle.zsrm.specs.Given.{given};

use input::parse;
use output::{put_head, put_jobs, put_refused, put_stretches};
use zsrm::{Mode, Record, Tie};

mod input;
mod output;

// What is printed of a run: line 1, the stretches, the jobs.
fn put_run(
    out: &mut [u8],
    mode: Mode,
    tasks: &[u32],
    jobs: &[u32],
    horizon: u32,
    schedule: &[u16],
    rec: Record,
) -> usize
    requires judgeable { Judgeable mode tasks.now jobs.now rec }
    requires schedule_len_bound { length schedule.now ≤ 16384 }
    ensures { Put out.old 0 (printed (given mode tasks.now jobs.now) horizon schedule.now rec) out.new result }
{
    let a = put_head(out, 0, mode, horizon);
    let b = put_stretches(out, a, schedule);
    put_jobs(out, b, rec, mode, tasks, jobs)
}

// What is printed for lists: the one refusal, or the run. The schedule is as long as the horizon, unless that is refused.
fn put_given(
    out: &mut [u8],
    mode: Mode,
    tasks: &[u32],
    jobs: &[u32],
    horizon: u32,
    schedule: &mut [u16],
) -> usize
    requires { (length schedule.old ≡ horizon) ⊎ (16384 < horizon) }
    ensures { Put out.old 0 (given_listing (given mode tasks.now jobs.now) horizon) out.new result }
{
    let ran = zsrm::run(mode, Tie::Lowest, tasks, jobs, horizon, schedule);
    match ran.outcome {
        Ok(()) => put_run(out, mode, tasks, jobs, horizon, schedule, ran.record),
        Err(refusal) => put_refused(out, 0, refusal.number, refusal.place),
    }
}

// How many ticks a run of this horizon has; none where the horizon is refused.
fn ticks(horizon: u32) -> usize
    ensures { (result ≤ 16384) × ((result ≡ horizon) ⊎ (16384 < horizon)) }
{
    if 16384 < horizon { 0 } else { horizon as usize }
}

// Room for a schedule of any horizon.
fn no_entries() -> [u16; 16384]
    ensures { length result ≡ 16384 }
{
    [0u16; 16384]
}

// What is printed for a text that is well formed.
fn put_sheet(out: &mut [u8], mode: Mode, tasks: &[u32], jobs: &[u32], horizon: u32) -> usize
    ensures { Put out.old 0 (given_listing (given mode tasks.now jobs.now) horizon) out.new result }
{
    let mut entries = no_entries();
    let n = ticks(horizon);
    put_given(out, mode, tasks, jobs, horizon, &mut entries[..n])
}

// The listing of an input text, written at the front of `out`, every other byte as it was; how many bytes it has. There is room for any.
pub fn listing(input: &[u8], out: &mut [u8; 600000]) -> usize
    ensures writes { Wrote out.old 0 (listing input.now) out.new result }
    ensures fits { result ≤ length out.new }
{
    let Some(sheet) = parse(input) else {
        return put_refused(out, 0, 14, 0);
    };
    let table = sheet.table;
    let list = sheet.list;
    let n = sheet.tasks * 7;
    let m = sheet.jobs * 3;
    let mode = sheet.mode;
    put_sheet(out, mode, &table[..n], &list[..m], sheet.horizon)
}
