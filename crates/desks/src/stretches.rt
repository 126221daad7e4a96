// The schedule in stretches: an index built, asked and followed through replacements, against counts over the whole schedule; and an index that
// was made up, against the rule for it.
use crate::counts::{Held, STALE, place_of, size_of, width};
use crate::tally::{Beside, Call, Desk};
use drawn::answers::Answer;
use drawn::draw::draw;
use drawn::judge::{Fault, first, refusal, rule, schedule_fault};
use drawn::list::{Case, IDLE, Line, at, front, lent, no_line};
use std::io;
use zsrm::Refusal;

// Horizons around the multiples of 64, the longest now and then, else one that is drawn.
pub(crate) fn horizon_of(trial: u32) -> u32 {
    match draw(trial, 1602, 60) {
        0 => 16384,
        1 => 0,
        2 => 1,
        3 => 63,
        4 => 64,
        5 => 65,
        6 => 128,
        _ => draw(trial, 1603, 700),
    }
}

// Stretches of a job or idle, and one time in three a few entries that are neither.
fn drawn_line(case: Case) -> Line {
    let n = (case.job_count() % 100) as u16;
    let strange = draw(case.trial, 1600, 3) == 0;
    let mut line = no_line();
    let mut entry = IDLE;
    for (t, next) in line.iter_mut().enumerate().take(case.horizon as usize) {
        let place = 2000 + (t % 16384) as u32;
        if draw(case.trial, place, 3) == 0 {
            let e = draw(case.trial, place + 70000, (n as u32) + 1) as u16;
            entry = if e < n { e } else { IDLE };
        }
        let odd = strange & (draw(case.trial, place + 140000, 400) == 0);
        let neither = if t % 2 == 0 { n } else { 65534 };
        *next = if odd { neither } else { entry };
    }
    line
}

// A schedule: one time in three that of a run, where it is done, else one that is drawn.
fn schedule_of(case: Case) -> Line {
    let mut line = drawn_line(case);
    if draw(case.trial, 1609, 3) == 0 {
        let entries = lent(&mut line, case.room);
        zsrm::run(
            case.mode,
            case.tie,
            case.tasks,
            case.jobs,
            case.horizon,
            entries,
        );
    }
    line
}

impl Held<'_> {
    // What a call is refused for: the library's refusals, then 15, then 16, which an index of a wrong length is, too.
    fn fault(&self, fifteen: bool, sixteen: bool) -> Option<Fault> {
        let case = self.case;
        first(&[
            schedule_fault(case.tasks, case.jobs, case.horizon, case.room),
            rule(fifteen, 15),
            rule((self.size != size_of(case)) | sixteen, 16),
        ])
    }

    // An end's count: the number of its last row, and the entries since; none where one of those is neither job nor idle.
    fn count_at(&self, c: u32, end: u32) -> Option<u64> {
        let from = (end / 64 * 64) as usize;
        let to = end as usize;
        if 0 < self.ticks_with(None, from, to) {
            return None;
        }
        let number = at(&self.rows, place_of(self.case, end / 64, c));
        let since = self.ticks_with(Some(c), from, to);
        Some(u64::from(number) + (since % 65536) as u64)
    }

    // How many ticks of a column a range must have by the index: the first end's count taken from the second's; none where there is no such
    // column, one of the counts is beyond the horizon or the first is beyond the second.
    fn ticks_by_index(&self, c: u32, a: u32, b: u32) -> Option<u32> {
        let x = self.count_at(c, a)?;
        let y = self.count_at(c, b)?;
        let known = (c as usize) < width(self.case);
        let most = u64::from(self.case.horizon);
        if known && (x <= most) && (y <= most) && (x <= y) {
            Some(((y - x) % 65536) as u32)
        } else {
            None
        }
    }

    // An index made up: every number drawn, or, every other time, one number of an index that was built made another.
    fn made_up<'a>(&self, case: Case<'a>) -> Held<'a> {
        let trial = case.trial;
        let beyond = case.horizon % 65536 + 1;
        let one = draw(trial, 1606, (self.size % 65536) as u32) as usize;
        let mut rows = self.rows;
        if !self.built | (draw(trial, 1605, 2) == 0) {
            for (i, number) in rows.iter_mut().enumerate() {
                *number = draw(trial, 220000 + (i % 65536) as u32, beyond + 1);
            }
        } else if let Some(number) = rows.get_mut(one) {
            *number = match draw(trial, 1607, 4) {
                0 => 0,
                1 => 4294967295,
                2 => beyond,
                _ => draw(trial, 1608, 1000),
            };
        }
        Held {
            case,
            line: self.line,
            rows,
            size: self.size,
            built: false,
        }
    }
}

// The index of a schedule: every number, or all of them as they were, and nothing past it.
fn try_build<'a>(desk: &mut Desk<impl Print>, case: Case<'a>, size: usize) -> io::Result<Held<'a>> {
    let line = schedule_of(case);
    let mut rows = [STALE; 4370];
    let entries = front(&line, case.room);
    let numbers = lent(&mut rows, size);
    let came = index::build(case.tasks, case.jobs, case.horizon, entries, numbers);
    let mut h = Held {
        case,
        line,
        rows,
        size,
        built: false,
    };
    let last = case.horizon / 64 * 64;
    let fault = h.fault(false, 0 < h.ticks_with(None, 0, last as usize));
    h.built = fault.is_none();
    let due = if h.built { h.index() } else { [STALE; 4370] };
    let came = Answer::from(came).and_words(rows == due);
    desk.note(Call::Build, 0, refusal(fault), came)?;
    Ok(h)
}

// A range of no tick is told apart.
fn of_ticks(n: u32) -> Answer {
    match n {
        0 => Answer::Empty,
        _ => Answer::Numbered(n),
    }
}

fn of_count(count: Result<u32, Refusal>) -> Answer {
    match count {
        Err(refusal) => Answer::from(refusal),
        Ok(n) => of_ticks(n),
    }
}

// One range: its answer must be the one by the index; where the index was built, that must be a fresh count.
fn try_range(desk: &mut Desk<impl Print>, h: &Held, c: u32, a: u32, b: u32) -> io::Result<()> {
    let case = h.case;
    let entries = front(&h.line, case.room);
    let numbers = front(&h.rows, h.size);
    let came = index::between(
        case.tasks,
        case.jobs,
        case.horizon,
        entries,
        numbers,
        c,
        a,
        b,
    );
    let ticks = h.ticks_by_index(c, a, b);
    let fault = h.fault((b < a) | (case.horizon < b), ticks.is_none());
    let n = ticks.unwrap_or(0);
    let due = match fault {
        Some(fault) => Answer::from(fault),
        None => of_ticks(n),
    };
    let done = fault.is_none();
    let fresh = h.ticks_with(Some(c), a as usize, b as usize);
    let other = done & (n as usize != fresh);
    let came = of_count(came).and_entries(!(h.built & other));
    desk.note(Call::Between, c, due, came)?;
    if other {
        desk.add(Call::Between, Beside::NotFresh, 1);
    }
    if done {
        desk.add(Call::Between, Beside::ReadAfresh, b.saturating_sub(a));
        desk.add(Call::Between, Beside::ReadSince, a % 64 + b % 64);
    }
    Ok(())
}

// So many ranges; some reach beyond the tasks and the horizon, by so much.
fn try_ranges(
    desk: &mut Desk<impl Print>,
    h: &Held,
    place: u32,
    n: u32,
    beyond: u32,
) -> io::Result<()> {
    let trial = h.case.trial;
    let more = beyond.min(2);
    for q in 0..n {
        let from = 400000 + 8192 * (place % 1024) + 8 * (q % 1024);
        let c = draw(trial, from, width(h.case) as u32 + more);
        let b = draw(trial, from + 1, h.case.horizon % 65536 + 1 + more);
        let a = draw(trial, from + 2, b + 1 + more);
        try_range(desk, h, c, a, b)?;
    }
    Ok(())
}

// One entry replaced: the schedule and the index then, or both as they were. Where the index was built, it must be that of the schedule.
fn try_replace<'a>(
    desk: &mut Desk<impl Print>,
    h: &Held<'a>,
    tick: u32,
    entry: u16,
) -> io::Result<Held<'a>> {
    let case = h.case;
    let mut line = h.line;
    let mut rows = h.rows;
    let entries = lent(&mut line, case.room);
    let numbers = lent(&mut rows, h.size);
    let came = index::replace(
        case.tasks,
        case.jobs,
        case.horizon,
        entries,
        numbers,
        tick,
        entry,
    );
    let next = Held {
        case,
        line,
        rows,
        size: h.size,
        built: h.built,
    };
    let due = h.replaced(tick as usize, entry);
    let fault = h.fault(case.horizon <= tick, due.strays);
    let done = fault.is_none();
    let right = if done {
        (line == due.line) & (rows == due.rows)
    } else {
        (line == h.line) & (rows == h.rows)
    };
    let fresh = !(h.built & done) || (rows == next.index());
    let came = Answer::from(came).and_entries(right).and_words(fresh);
    desk.note(Call::Replace, tick, refusal(fault), came)?;
    if done & due.same {
        desk.add(Call::Replace, Beside::SameColumn, 1);
    }
    Ok(next)
}

// Some entries replaced, one after the other, in one trial of forty 200; with questions before each and after the last.
fn try_replacements(desk: &mut Desk<impl Print>, begun: &Held) -> io::Result<()> {
    let mut h = *begun;
    let trial = h.case.trial;
    let n = (h.case.job_count() % 100) as u32;
    let times = match draw(trial, 1604, 40) {
        0 => 200,
        _ => 4,
    };
    for i in 0..times {
        let place = 300000 + 8 * (i % 1024);
        let tick = draw(trial, place, h.case.horizon % 65536 + 1);
        let e = draw(trial, place + 1, n + 2);
        let idle = draw(trial, place + 2, 4) == 0;
        let entry = if idle { IDLE } else { e as u16 };
        try_ranges(desk, &h, i, 6, 2)?;
        h = try_replace(desk, &h, tick, entry)?;
    }
    try_ranges(desk, &h, times, 6, 2)
}

// A schedule and its index, of a wrong length one time in twelve, with replacements and questions; then others, by draws of their own, with an
// index that is made up.
pub(crate) fn try_stretches(desk: &mut Desk<impl Print>, case: Case) -> io::Result<()> {
    let right = size_of(case);
    let size = match draw(case.trial, 1601, 24) {
        0 => right % 65536 + 1,
        1 => right / 2,
        _ => right,
    };
    let h = try_build(desk, case, size)?;
    try_replacements(desk, &h)?;
    let mut again = case;
    again.trial = case.trial.wrapping_add(5000000);
    try_replacements(desk, &h.made_up(again))
}

// A thousand questions about one long schedule.
pub(crate) fn try_long(desk: &mut Desk<impl Print>, case: Case) -> io::Result<()> {
    let h = try_build(desk, case, size_of(case))?;
    try_ranges(desk, &h, 0, 1000, 0)
}
