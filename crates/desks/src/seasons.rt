// Season reports: runs added and reports joined, against sums over jobs that are asked one by one; reports that were made up; means, least and
// greatest, and texts.
use crate::spelling::Spelling;
use crate::tally::{Beside, Call, Desk};
use drawn::answers::Answer;
use drawn::damage::damaged;
use drawn::draw::draw;
use drawn::inputs::{Input, make_day, short};
use drawn::judge::{Fault, first, lists_fault, refusal, rule, tasks_fault};
use drawn::list::{ARRIVAL, Case, List, OWNER, lent, no_line};
use season::{Report, Reported, Row};
use std::fmt::{self, Write};
use std::io;
use zsrm::{Mode, Record, Standing, Tie};

// A task without a job.
const NO_JOB: Row = Row {
    met: 0,
    late: 0,
    ended: 0,
    open: 0,
    finished: 0,
    sum: 0,
    least: 0,
    greatest: 0,
};

// A report of so many tasks without a job.
fn blank(tasks: u32) -> Report {
    Report {
        tasks,
        rows: [NO_JOB; 16],
    }
}

// A number below the range, at times as far below 4,294,967,295 or beside the half of it.
fn some_number(trial: u32, from: u32, i: usize, range: u32) -> u32 {
    let place = from % 1000000 + 2 * (i % 128) as u32;
    let flip = match draw(trial, place + 1, 8 * (range % 65537)) {
        1 => 4294967295,
        2 => 2147483647,
        3 => 2147483648,
        _ => 0,
    };
    flip ^ draw(trial, place, range)
}

// A report of so many tasks whose numbers are drawn.
fn made_up(tasks: u32, trial: u32, from: u32, range: u32) -> Report {
    let mut out = blank(tasks);
    for (k, row) in out.rows.iter_mut().enumerate() {
        let number = |i: usize| some_number(trial, from, 8 * (k % 16) + i % 8, range);
        *row = Row {
            met: number(0),
            late: number(1),
            ended: number(2),
            open: number(3),
            finished: number(4),
            sum: number(5),
            least: number(6),
            greatest: number(7),
        };
    }
    out
}

// A sum, made in 64 bits, unless 32 have no room for it.
fn sum_of(x: u32, y: u32) -> Option<u32> {
    u32::try_from(u64::from(x) + u64::from(y)).ok()
}

// Two rows as one, unless a number of it has no room. A side without a finished job has a least above all others, which comes round to 0.
fn plus(a: Row, b: Row) -> Option<Row> {
    let past: u64 = 4294967296;
    let least_of = |row: Row| match row.finished {
        0 => past,
        _ => u64::from(row.least),
    };
    let greatest_of = |row: Row| match row.finished {
        0 => 0,
        _ => row.greatest,
    };
    Some(Row {
        met: sum_of(a.met, b.met)?,
        late: sum_of(a.late, b.late)?,
        ended: sum_of(a.ended, b.ended)?,
        open: sum_of(a.open, b.open)?,
        finished: sum_of(a.finished, b.finished)?,
        sum: sum_of(a.sum, b.sum)?,
        least: (least_of(a).min(least_of(b)) % past) as u32,
        greatest: greatest_of(a).max(greatest_of(b)),
    })
}

// What two reports of as many tasks come to, unless a number has no room.
fn joined(a: Report, b: Report) -> Option<Report> {
    if a.tasks != b.tasks {
        return None;
    }
    let mut out = blank(a.tasks);
    let rows = a.rows.iter().zip(b.rows.iter());
    for (row, (x, y)) in out.rows.iter_mut().zip(rows).take(a.tasks as usize) {
        *row = plus(*x, *y)?;
    }
    Some(out)
}

// Whether two rows are the same, number for number.
fn same_row(a: &Row, b: &Row) -> bool {
    let counts = (a.met == b.met) & (a.late == b.late) & (a.ended == b.ended);
    let rest = (a.open == b.open) & (a.finished == b.finished) & (a.sum == b.sum);
    counts & rest & (a.least == b.least) & (a.greatest == b.greatest)
}

// Whether two reports are the same, row for row.
fn same_report(a: &Report, b: &Report) -> bool {
    let mut rows = a.rows.iter().zip(b.rows.iter());
    (a.tasks == b.tasks) & rows.all(|(x, y)| same_row(x, y))
}

fn of_reported(reported: Reported) -> (Answer, Report) {
    (Answer::from(reported.outcome), reported.report)
}

// A call's answer: two reports as one, or the first as it was, by the refusals before 18 or by 18 itself. Its report is handed on.
fn check(
    desk: &mut Desk<impl Print>,
    call: Call,
    fault: Option<Fault>,
    a: Report,
    b: Report,
    reported: Reported,
) -> io::Result<Report> {
    let sum = joined(a, b);
    let refused = first(&[fault, rule(sum.is_none(), 18)]);
    let due = match (refused, sum) {
        (None, Some(sum)) => sum,
        _ => a,
    };
    let (came, report) = of_reported(reported);
    desk.note(
        call,
        a.tasks,
        refusal(refused),
        came.and_record(same_report(&report, &due)),
    )?;
    if fault.is_none() & sum.is_none() & (a.tasks == b.tasks) {
        desk.add(call, Beside::NumberAlone, 1);
    }
    Ok(report)
}

// A task's row with one more of its jobs.
fn with_job(row: Row, rec: Record, case: Case, j: usize) -> Row {
    let i = j % 64;
    let mut next = row;
    match Answer::from(zsrm::verdict(rec, case.mode, case.tasks, case.jobs, i as u32)) {
        Answer::Met => next.met = row.met.wrapping_add(1),
        Answer::Ended => next.ended = row.ended.wrapping_add(1),
        Answer::Open => next.open = row.open.wrapping_add(1),
        Answer::Late { .. } => next.late = row.late.wrapping_add(1),
        _ => {}
    }
    if let Standing::Finished(f) = rec.places[i].standing {
        let took = (f as u32).saturating_sub(case.job(i, ARRIVAL));
        next.least = if row.finished == 0 {
            took
        } else {
            row.least.min(took)
        };
        next.greatest = row.greatest.max(took);
        next.finished = row.finished.wrapping_add(1);
        next.sum = row.sum.wrapping_add(took);
    }
    next
}

// A run's own report: for each task all jobs are gone through, and the verdict on each of its own is asked.
fn own_report(rec: Record, case: Case) -> Report {
    let mut out = blank((case.task_count() % 64) as u32);
    for (k, row) in out.rows.iter_mut().enumerate() {
        for j in 0..case.job_count().min(64) {
            if case.job(j, OWNER) as usize == k {
                *row = with_job(*row, rec, case, j);
            }
        }
    }
    out
}

// A run added, at times in the other mode or with a record that was altered. Whether that is consistent is asked of the library, by a job that
// is in no list.
fn try_add(desk: &mut Desk<impl Print>, a: Report, inp: Input, seed: u32) -> io::Result<Report> {
    let mut case = inp.case(seed);
    let mut line = no_line();
    let tie = if seed / 2 % 2 == 0 {
        Tie::Lowest
    } else {
        Tie::Stay
    };
    let entries = lent(&mut line, case.room);
    let ran = zsrm::run(case.mode, tie, case.tasks, case.jobs, case.horizon, entries);
    let mut rec = ran.record;
    match draw(seed, 1801, 30) {
        0 => rec.tick = 16385,
        1 => rec.previous = 64,
        2 => rec.tick = rec.tick % 65536 + 1,
        3 => case.mode = other_mode(case.mode),
        _ => {}
    }
    let far = zsrm::verdict(rec, case.mode, case.tasks, case.jobs, 65536);
    let unfit = Answer::from(far)
        == Answer::Refused {
            number: 11,
            place: 0,
        };
    let fault = first(&[lists_fault(case.tasks, case.jobs), rule(unfit, 11)]);
    let own = own_report(rec, case);
    let came = a.add(rec, case.mode, case.tasks, case.jobs);
    check(desk, Call::Add, fault, a, own, came)
}

fn other_mode(mode: Mode) -> Mode {
    match mode {
        Mode::S => Mode::SE,
        Mode::SE => Mode::S,
    }
}

// A report with one more run of the table, of few jobs or of many, in either mode; one in six has a damaged list.
fn with_run(
    desk: &mut Desk<impl Print>,
    report: Report,
    seed: u32,
    tasks: &[u32],
) -> io::Result<Report> {
    let mut size = short(seed, draw(seed, 1802, 10) == 0);
    size.tasks = ((tasks.len() / 7) % 64) as u32;
    let mode = if draw(seed, 1803, 2) == 0 {
        Mode::SE
    } else {
        Mode::S
    };
    let whole = make_day(List::from(tasks), seed, mode, size);
    let run = if draw(seed, 75, 6) == 0 {
        damaged(whole, seed, 20000)
    } else {
        whole
    };
    try_add(desk, report, run, seed)
}

// The least and the greatest response, by the library.
fn extremes_of(row: Row) -> Option<(u32, u32)> {
    let extremes = season::extremes(row)?;
    Some((extremes.least, extremes.greatest))
}

// The quotient, the remainder and the count of the mean response, by the library.
fn mean_of(row: Row) -> Option<(u32, u32, u32)> {
    let mean = season::mean(row)?;
    Some((mean.quotient, mean.remainder, mean.count))
}

// The mean of a row: there is one where a job finished, and from it the sum is had again. Least and greatest are looked at with it.
fn try_mean(desk: &mut Desk<impl Print>, row: Row) -> io::Result<()> {
    let (due, extremes) = match row.finished {
        0 => (Answer::Empty, None),
        n => (Answer::Numbered(n), Some((row.least, row.greatest))),
    };
    let came = match mean_of(row) {
        None => Answer::Empty,
        Some((quotient, remainder, n)) => {
            let sum = u64::from(quotient) * u64::from(n) + u64::from(remainder);
            Answer::Numbered(n)
                .and_entries(sum == u64::from(row.sum))
                .and_words(remainder < n)
        }
    };
    let same = extremes_of(row) == extremes;
    desk.note(Call::Mean, row.finished, due, came.and_record(same))
}

// The text of a report, a line for each task; of one without a finished job no response is told.
fn text_of(report: Report) -> Result<Spelling, fmt::Error> {
    let mut text = Spelling::new();
    for (k, row) in report.rows.iter().enumerate().take(report.tasks as usize) {
        let Row {
            met,
            late,
            ended,
            open,
            finished,
            sum,
            least,
            greatest,
        } = *row;
        write!(text, "task {k} {met} {late} {ended} {open}")?;
        if finished == 0 {
            writeln!(text, " - - - - -")?;
        } else {
            let whole = sum / finished;
            let rest = sum % finished;
            writeln!(text, " {least} {greatest} {whole} {rest} {finished}")?;
        }
    }
    Ok(text)
}

// A report's text, what stood behind it, and the means of its rows.
fn try_show(desk: &mut Desk<impl Print>, report: Report) -> io::Result<()> {
    let mut out = [46u8; 2048];
    let n = season::show(report, &mut out);
    let right = text_of(report).is_ok_and(|text| {
        let bytes = text.as_slice();
        (n == bytes.len()) && out.starts_with(bytes) && out.iter().skip(n).all(|byte| *byte == 46)
    });
    let due = match report.tasks {
        0 => Answer::Empty,
        tasks => Answer::Numbered(tasks),
    };
    for row in report.rows {
        try_mean(desk, row)?;
    }
    desk.note(Call::Show, report.tasks, due, due.and_entries(right))
}

// Two reports of a table's runs and two that were made up, mostly of as many tasks: each is joined to each, shown, and has a run added.
pub(crate) fn try_seasons(
    desk: &mut Desk<impl Print>,
    trial: u32,
    tasks: &[u32],
) -> io::Result<()> {
    let seed = 16 * (trial % 100000000);
    let fault = tasks_fault(tasks);
    let count = ((tasks.len() / 7) % 64) as u32;
    let zero = blank(if fault.is_none() { count } else { 0 });
    let begun = check(desk, Call::Empty, fault, zero, zero, Report::empty(tasks))?;
    let one = with_run(desk, begun, seed + 1, tasks)?;
    let two = with_run(desk, one, seed + 2, tasks)?;
    let other = with_run(desk, begun, seed + 3, tasks)?;
    let n = match draw(seed, 1806, 12) {
        0 => 17,
        1 => 4294967295,
        2 => draw(seed, 1807, 20),
        _ => count,
    };
    let range = if draw(seed, 1808, 3) == 0 { 65536 } else { 4 };
    let x = made_up(n, seed, 30000, range);
    let m = n.wrapping_add(draw(seed, 1809, 8) / 7);
    let y = made_up(m, seed, 31000, range);
    let all = [two, other, x, y];
    for a in all {
        for b in all {
            check(desk, Call::Join, None, a, b, a.join(b))?;
        }
    }
    for (i, report) in all.iter().enumerate() {
        try_show(desk, *report)?;
        with_run(desk, *report, seed + 4 + (i % 4) as u32, tasks)?;
    }
    Ok(())
}
