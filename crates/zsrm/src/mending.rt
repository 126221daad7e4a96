// Request Eleven: a damaged claim mended. Its longest legal beginning is kept; from there on entries are chosen, from instant to instant,
// and the claim's are only compared with them.
ghost use Rattle.std.specs.Prelude.{◌≡◌, cond, ◌+◌, ◌≤◌, length, replicate, take};
ghost use Rattle.tables.specs.Outcomes.{Done};
ghost use Rattle.tables.specs.Tables.{job_count, lists};
ghost use Rattle.tables.specs.Refusals.{check_lists};
ghost use Rattle.zsrm.specs.Run.{entries_by};
ghost use Rattle.zsrm.specs.Mend.{differing, keeps_previous, mend_choice, mended};
ghost use Rattle.zsrm.specs.Code.Claims.{Mendable, WalkedAs};
ghost use Rattle.zsrm.specs.Given.{given};
ghost use Rattle.zsrm.specs.Answers.{check_mend, mend_answer, mend_schedule};

use crate::answers::Mended;
use crate::claims::{Walked, is_instant, walk};
use crate::gather::gathered;
use crate::leap::{ahead, leap, started};
use crate::look::{choice, look};
use crate::mode::{Mode, is_se};
use crate::record::Record;
use crate::runs::fill;
use crate::tie::Tie;
use bits::one_if;
use tables::{Outcome, Refusal, check_schedule, check10, job_count};

// What mending checks of its input: 2 to 9, and 10 of either list.
#[tactic(auto, unfolding(crate::specs::Answers::check_mend, tables::specs::Refusals::before))]
fn check_mend(tasks: &[u32], jobs: &[u32], horizon: u32, entries: usize, lent: usize) -> Outcome
    ensures { result ≡ check_mend (lists tasks.now jobs.now) horizon entries lent }
{
    check_schedule(tasks, jobs, horizon, entries)?;
    check10(lent, horizon)
}

// Whether the previous entry is kept: the tick is above 0 and no scheduling instant.
fn keeps_previous(rec: Record, mode: Mode, tasks: &[u32], jobs: &[u32]) -> bool
    requires { job_count jobs.now ≤ 64 }
    ensures { result ≡ keeps_previous (given mode tasks.now jobs.now) rec }
{
    let instant = is_instant(rec, mode, tasks, jobs);
    (0 < rec.tick) & !instant
}

// The previous entry where it is kept, else the lowest candidate. It has a name of its own, as a proof loses behind an `if` what it chose.
fn kept_or(keeps: bool, previous: u16, lowest: u16) -> u16
    ensures { result ≡ cond keeps previous lowest }
{
    if keeps { previous } else { lowest }
}

// How many entries of a list are not the given one.
fn count_others(entries: &[u16], entry: u16) -> u32
    requires { length entries.now ≤ 16384 }
    ensures { result ≡ differing entries.now (replicate (length entries.now) entry) }
{
    let mut others: u32 = 0;
    for i in 0..entries.len() {
        others += one_if(entries[i] != entry);
    }
    others
}

// Writes the entries that mending chooses from a record on, for as many ticks as the list has entries, and counts those that are not the
// claimed ones. A stretch begins at a scheduling instant, but for the first.
fn mend_from(
    start: Record,
    mode: Mode,
    tasks: &[u32],
    jobs: &[u32],
    claimed: &[u16],
    into: &mut [u16],
) -> u32
    requires jobs_value { (check_lists (lists tasks.now jobs.now) ≡ Done) × (length claimed.now ≡ length into.old) }
    requires mendable { Mendable (given mode tasks.now jobs.now) start × (start.tick + length into.old ≤ 16384) }
    ensures counts { result ≡ differing claimed.now (entries_by (given mode tasks.now jobs.now)
        (mend_choice (given mode tasks.now jobs.now)) start (length into.old)) }
    ensures writes { into.new ≡ entries_by (given mode tasks.now jobs.now)
        (mend_choice (given mode tasks.now jobs.now)) start (length into.old) }
{
    let g = gathered(tasks, jobs);
    let n = job_count(jobs);
    let mut s = started(start, n, &g);
    let mut keeps = keeps_previous(start, mode, tasks, jobs);
    let mut changed: u32 = 0;
    let mut t: usize = 0;
    // a turn takes a whole stretch of ticks, as many as nothing happens in, so t goes over no range
    while t < into.len() {
        let rec = s.record;
        let se = is_se(mode);
        let seen = look(s.alive, rec.tick, &g);
        let lowest = choice(seen, Tie::Lowest, rec.previous, n, &g);
        let chosen = kept_or(keeps, rec.previous, lowest);
        let most = (into.len() - t) as u32;
        let far = ahead(s, se, chosen, most, n, &g);
        let k = far.ticks;
        let end = t + k as usize;
        let others = count_others(&claimed[t..end], chosen);
        fill(into, t, k as usize, chosen);
        s = leap(s, seen, se, chosen, k, far.early, n, &g);
        changed += others;
        keeps = false;
        t = end;
    }
    changed
}

// Copies the first n entries of a list.
fn copy(from: &[u16], n: usize, to: &mut [u16])
    requires { (n ≤ length from.now) × (n ≤ length to.old) }
    ensures long { length to.new ≡ length to.old }
    ensures copies { take n to.new ≡ take n from.now }
{
    to[..n].copy_from_slice(&from[..n]);
}

// Writes the mended schedule, the claim being replayed, and counts the entries that differ.
fn write_mended(
    walked: Walked,
    mode: Mode,
    tasks: &[u32],
    jobs: &[u32],
    schedule: &[u16],
    into: &mut [u16],
) -> u32
    requires jobs_value { (check_lists (lists tasks.now jobs.now) ≡ Done) × WalkedAs (given mode tasks.now jobs.now) schedule.now walked }
    requires schedule_len_bound { (length schedule.now ≤ 16384) × (length into.old ≡ length schedule.now) }
    ensures counts { result ≡ differing schedule.now (mended (given mode tasks.now jobs.now) schedule.now) }
    ensures writes { into.new ≡ mended (given mode tasks.now jobs.now) schedule.now }
{
    let first = walked.ticks as usize;
    copy(schedule, first, into);
    mend_from(
        walked.record,
        mode,
        tasks,
        jobs,
        &schedule[first..],
        &mut into[first..],
    )
}

// A claimed schedule mended into a second list: its longest legal beginning, and then what is chosen from there; refusals 2 to 10, the
// second list then keeping its entries.
pub fn mend(
    mode: Mode,
    tasks: &[u32],
    jobs: &[u32],
    horizon: u32,
    schedule: &[u16],
    mended: &mut [u16],
) -> Result<Mended, Refusal>
    ensures answers { result ≡ mend_answer (given mode tasks.now jobs.now) horizon schedule.now mended.old }
    ensures writes { mended.new ≡ mend_schedule (given mode tasks.now jobs.now) horizon schedule.now mended.old }
{
    check_mend(tasks, jobs, horizon, schedule.len(), mended.len())?;
    let walked = walk(mode, tasks, jobs, schedule);
    let first = walked.ticks;
    let changed = write_mended(walked, mode, tasks, jobs, schedule, mended);
    if (first as usize) == schedule.len() {
        Ok(Mended::Whole)
    } else {
        Ok(Mended::Changed(first, changed))
    }
}
