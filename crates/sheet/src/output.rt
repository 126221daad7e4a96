// The listing's lines, written into a buffer. Each part is written where the part before it ended.
ghost use Rattle.std.specs.Prelude.{◌≡◌, [], ◌∷◌, ◌++◌, ◌≤◌, length};
ghost use Rattle.text.specs.Decimal.{decimal, spaced};
ghost use Rattle.text.specs.Wrote.{Put};
ghost use Rattle.sheet.specs.Listing.{entry, instant, job_lines, lateness, letter, refused_line, run_line, sign, stretch, stretches, verdict_line, verdict_word};
ghost use Rattle.sheet.specs.Code.{Judgeable};
ghost use Rattle.tables.specs.Tables.{job_count, lists};

use text::{put_byte, put_number, put_numbers, put_text};
use zsrm::{IDLE, Mode, Place, Record, Standing, Verdict};

// A schedule entry: a job number, or `-` for idle.
fn put_entry(out: &mut [u8], at: usize, e: u16) -> usize
    ensures { Put out.old at (entry e) out.new result }
{
    if e == IDLE {
        put_byte(out, at, b'-')
    } else {
        put_number(out, at, e as u32)
    }
}

// The line of one stretch of equal entries.
fn put_stretch(out: &mut [u8], at: usize, first: u32, next: u32, e: u16) -> usize
    ensures { Put out.old at (stretch first next e) out.new result }
{
    let a = put_number(out, at, first);
    let b = put_byte(out, a, b' ');
    let c = put_number(out, b, next);
    let d = put_byte(out, c, b' ');
    let k = put_entry(out, d, e);
    put_byte(out, k, b'\n')
}

// The lines of all longest stretches of equal entries.
#[tactic(auto, using(crate::proofs::Laws::Lines::stretched_new, crate::proofs::Laws::Lines::stretched_same))]
pub(crate) fn put_stretches(out: &mut [u8], at: usize, schedule: &[u16]) -> usize
    requires { length schedule.now ≤ 16384 }
    ensures { Put out.old at (stretches schedule.now) out.new result }
{
    if schedule.is_empty() {
        return at;
    }
    let mut first: usize = 0;
    let mut current = schedule[0];
    let mut k = at;
    for t in 1..schedule.len() {
        let e = schedule[t];
        if e != current {
            k = put_stretch(out, k, first as u32, t as u32, current);
            first = t;
            current = e;
        }
    }
    put_stretch(out, k, first as u32, schedule.len() as u32, current)
}

// The one line of a refusal.
pub(crate) fn put_refused(out: &mut [u8], at: usize, number: u32, place: u32) -> usize
    ensures { Put out.old at (refused_line number place) out.new result }
{
    let a = put_text(out, at, b"refused");
    let two = [number, place];
    let b = put_numbers(out, a, &two);
    put_byte(out, b, b'\n')
}

// The mode's letter.
fn letter_of(mode: Mode) -> u8
    ensures { result ∷ [] ≡ letter mode }
{
    match mode {
        Mode::S => b'S',
        Mode::SE => b'E',
    }
}

// Line 1: mode and horizon.
pub(crate) fn put_head(out: &mut [u8], at: usize, mode: Mode, horizon: u32) -> usize
    ensures { Put out.old at (run_line mode horizon) out.new result }
{
    let a = put_text(out, at, b"run ");
    let b = put_byte(out, a, letter_of(mode));
    let c = put_byte(out, b, b' ');
    let k = put_number(out, c, horizon);
    put_byte(out, k, b'\n')
}

// The word of a verdict.
#[tactic(auto, using(text::proofs::Laws::Put::put_none), unfolding(crate::specs::Listing::verdict_word))]
fn put_word(out: &mut [u8], at: usize, verdict: Verdict) -> usize
    ensures { Put out.old at (verdict_word verdict) out.new result }
{
    match verdict {
        Verdict::Met => put_text(out, at, b"met"),
        Verdict::Late(_, _) => put_text(out, at, b"late"),
        Verdict::Ended => put_text(out, at, b"ended"),
        Verdict::Open => put_text(out, at, b"open"),
    }
}

// Finishing instant or ending tick, `-` where there is neither.
#[tactic(auto, unfolding(crate::specs::Listing::instant))]
fn put_instant(out: &mut [u8], at: usize, standing: Standing) -> usize
    ensures { Put out.old at (instant standing) out.new result }
{
    match standing {
        Standing::NotArrived => put_byte(out, at, b'-'),
        Standing::Unfinished => put_byte(out, at, b'-'),
        Standing::Finished(f) => put_number(out, at, f as u32),
        Standing::Ended(e) => put_number(out, at, e as u32),
    }
}

// By how much a job is late, `=` or `>=` before it.
fn put_by(out: &mut [u8], at: usize, by: u32, exact: bool) -> usize
    ensures { Put out.old at (32 ∷ (sign exact ++ decimal by)) out.new result }
{
    if exact {
        let a = put_text(out, at, b" =");
        return put_number(out, a, by);
    }
    let a = put_text(out, at, b" >=");
    put_number(out, a, by)
}

// The same, for a late job only.
#[tactic(auto, using(text::proofs::Laws::Put::put_none), unfolding(crate::specs::Listing::lateness, text::specs::Decimal::spaced))]
fn put_late(out: &mut [u8], at: usize, verdict: Verdict) -> usize
    ensures { Put out.old at (spaced (lateness verdict)) out.new result }
{
    match verdict {
        Verdict::Late(by, exact) => put_by(out, at, by, exact),
        Verdict::Met | Verdict::Ended | Verdict::Open => at,
    }
}

// Verdict, instant, and by how much the job is late.
fn put_verdict(out: &mut [u8], at: usize, verdict: Verdict, standing: Standing) -> usize
    ensures { Put out.old at (spaced (verdict_word verdict ∷ instant standing ∷ lateness verdict)) out.new result }
{
    let a = put_byte(out, at, b' ');
    let b = put_word(out, a, verdict);
    let c = put_byte(out, b, b' ');
    let d = put_instant(out, c, standing);
    put_late(out, d, verdict)
}

// The line of job j.
fn put_job(out: &mut [u8], at: usize, j: u32, verdict: Verdict, place: Place) -> usize
    ensures { Put out.old at (verdict_line j verdict place) out.new result }
{
    let standing = place.standing;
    let a = put_text(out, at, b"job");
    let one = [j];
    let b = put_numbers(out, a, &one);
    let c = put_verdict(out, b, verdict, standing);
    let two = [place.suspended as u32, place.waited as u32];
    let k = put_numbers(out, c, &two);
    put_byte(out, k, b'\n')
}

// The lines of all jobs.
pub(crate) fn put_jobs(
    out: &mut [u8],
    at: usize,
    rec: Record,
    mode: Mode,
    tasks: &[u32],
    jobs: &[u32],
) -> usize
    requires { Judgeable mode tasks.now jobs.now rec }
    ensures { Put out.old at (job_lines (lists tasks.now jobs.now) rec (job_count jobs.now)) out.new result }
{
    let all = zsrm::verdicts(rec, mode, tasks, jobs);
    let mut k = at;
    for j in 0..jobs.len() / 3 {
        // the library refuses no verdict on a job of accepted lists
        let verdict = all.of[j].unwrap();
        k = put_job(out, k, j as u32, verdict, rec.places[j]);
    }
    k
}
