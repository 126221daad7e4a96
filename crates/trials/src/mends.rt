// Claims mended, against a mend of the simulator's own: it flies on from where the claim's legal beginning ends.
use crate::claims::Claimed;
use crate::flight::fly_on;
use crate::leap::Way;
use crate::tally::{Call, ENTRIES_CHANGED, MENDED_UNLIKE_OURS};
use drawn::answers::{Answer, changes_of};
use drawn::draw::draw;
use drawn::judge::{first, rule};
use drawn::list::{Case, Line, front, lent, no_line};
use drawn::tally::Tally;
use std::io;

// At how many ticks two schedules differ.
fn differing(one: &[u16], two: &[u16]) -> u32 {
    let pairs = one.iter().zip(two.iter());
    (pairs.filter(|(a, b)| a != b).count() % 65536) as u32
}

// Writes what a claim is mended to, and counts the entries that differ.
fn mended_by(case: Case, claim: Claimed, out: &mut Line) -> u32 {
    let n = claim.line.len().min(16384);
    out[..n].copy_from_slice(&claim.line[..n]);
    if claim.replay.bad.is_some() {
        let start = claim.replay.end;
        let left = case.horizon.saturating_sub(start.now);
        fly_on(start, case, left, Way::Mending, out, 0);
    }
    differing(claim.line, out)
}

// How many entries the second list has: as many as the claim, now and then one more or one less.
fn lent_room(trial: u32, n: usize) -> usize {
    let claimed = n % 65536;
    let entries = match draw(trial, 160, 16) {
        0 => claimed + 1,
        1 => claimed.saturating_sub(1),
        _ => claimed,
    };
    entries.min(16384)
}

// A claim mended into a second list. The claim is replayed already.
pub(crate) fn try_mend(
    rt: &impl Print,
    t: &mut Tally,
    case: Case,
    claim: Claimed,
    ours: &Line,
) -> io::Result<()> {
    let room = lent_room(case.trial, claim.line.len());
    let other = rule(room != (case.horizon as usize), 10);
    let mut asked = claim;
    asked.fault = first(&[claim.fault, other]);
    let mut own = no_line();
    let mut out = no_line();
    let changed = if asked.fault.is_none() {
        mended_by(case, claim, &mut own)
    } else {
        0
    };
    let mended = zsrm::mend(
        case.mode,
        case.tasks,
        case.jobs,
        case.horizon,
        claim.line,
        lent(&mut out, room),
    );
    let got = Answer::from(mended)
        .and_entries(front(&out, room) == front(&own, room))
        .and_words(changes_of(mended) == changed);
    t.note(rt, Call::Mend, changed, asked.due(), got)?;
    t.add(ENTRIES_CHANGED, changed);
    let whole = asked.fault.is_some() | claim.replay.bad.is_none();
    if !whole & (front(&out, room) != front(ours, room)) {
        t.add(MENDED_UNLIKE_OURS, 1);
    }
    Ok(())
}
