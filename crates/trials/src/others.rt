// Other people's jobs: two lists of one table that hold the same members' jobs in the same order, the one with most of the others' jobs left
// out. Each member's job has the same ticks, place and verdict in both runs, where every task outside the set has lower priority than each
// member and is not more critical than any; where one may be more critical, it is counted how often they differ.
use crate::records::same_place;
use crate::tally::{Call, DROPPED_UNLIKE, PREMISE_DROPPED};
use drawn::answers::Answer;
use drawn::draw::draw;
use drawn::list::{
    ARRIVAL, CRITICALITY, Case, EXECUTION, Line, List, OWNER, PRIORITY, entry_at, lent, no_line,
    task,
};
use drawn::tally::{Tally, numbers};
use std::io;
use zsrm::Record;

// The members are the tasks with a priority above the bar.
fn is_member(tasks: &[u32], k: u32, bar: u32) -> bool {
    bar < task(tasks, k, PRIORITY)
}

// No task is more critical.
const MOST: u32 = 255;

// The least criticality of a member.
fn least_critical(tasks: &[u32], bar: u32) -> u32 {
    let mut c = MOST;
    for k in 0..16 {
        if is_member(tasks, k, bar) {
            c = c.min(task(tasks, k, CRITICALITY));
        }
    }
    c
}

// The table with every task outside the set at most so critical.
fn bounded(tasks: &[u32], bar: u32, most: u32) -> List {
    let mut list = List::from(tasks);
    for k in 0..16 {
        let i = k as usize;
        if (i < tasks.len() / 7) & !is_member(tasks, k, bar) {
            let c = task(tasks, k, CRITICALITY).min(most);
            list = list.with(7 * i + CRITICALITY, c);
        }
    }
    list
}

// A list with some of the others' jobs left out, and for each job of the whole list its number there, 64 for one that is left out.
#[derive(Clone, Copy)]
struct Fewer {
    jobs: List,
    number: [u32; 64],
}

fn leave_out(case: Case, bar: u32) -> Fewer {
    let mut f = Fewer {
        jobs: List::new(),
        number: [64; 64],
    };
    for j in 0..64 {
        let k = case.job(j, OWNER);
        let lot = draw(case.trial, 300 + (j as u32), 4);
        if (j < case.job_count()) & (is_member(case.tasks, k, bar) | (lot == 0)) {
            f.number[j] = (f.jobs.len() / 3 % 64) as u32;
            f.jobs
                .extend(&[k, case.job(j, ARRIVAL), case.job(j, EXECUTION)]);
        }
    }
    f
}

// Whether a job has the same ticks as another job of another line.
fn same_ticks(a: &Line, i: u16, b: &Line, j: u16, ticks: u32) -> bool {
    (0..ticks as usize).all(|t| (entry_at(a, t) == i) == (entry_at(b, t) == j))
}

// A case, and the answer and the record of its run.
#[derive(Clone, Copy)]
struct Side<'a> {
    case: Case<'a>,
    answer: Answer,
    record: Record,
}

fn side_of<'a>(case: Case<'a>, line: &mut Line) -> Side<'a> {
    let ran = zsrm::run(
        case.mode,
        case.tie,
        case.tasks,
        case.jobs,
        case.horizon,
        lent(line, case.horizon as usize),
    );
    Side {
        case,
        answer: ran.outcome.into(),
        record: ran.record,
    }
}

impl Side<'_> {
    fn verdict(&self, job: u32) -> Answer {
        let case = self.case;
        zsrm::verdict(self.record, case.mode, case.tasks, case.jobs, job).into()
    }
}

// What differs for a member's job between the runs: nothing where it is done. It has a number in the one list, and one there.
fn compared(whole: Side, less: Side, ticks: bool, number: u32, there: u32) -> Answer {
    let p = whole.record.places[(number % 64) as usize];
    let q = less.record.places[(there % 64) as usize];
    whole
        .answer
        .and_entries(ticks)
        .and_words(whole.verdict(number) == less.verdict(there))
        .and_record(same_place(&p, &q) & (less.answer == Answer::Done))
}

// Every member's job in the run of the whole list and in that of the other. What made a difference is written with both.
fn try_members(
    rt: &impl Print,
    t: &mut Tally,
    case: Case,
    bar: u32,
    dropped: bool,
) -> io::Result<()> {
    let before = t.differences;
    let f = leave_out(case, bar);
    let mut a = no_line();
    let mut b = no_line();
    let fewer = case.with_jobs(f.jobs.as_slice());
    let whole = side_of(case, &mut a);
    let less = side_of(fewer, &mut b);
    for number in 0..64 {
        let j = number as usize;
        if (j < case.job_count()) & is_member(case.tasks, case.job(j, OWNER), bar) {
            let there = f.number[j];
            let ticks = same_ticks(&a, number as u16, &b, (there % 64) as u16, case.horizon);
            told_of(
                rt,
                t,
                number,
                compared(whole, less, ticks, number, there),
                dropped,
            )?;
        }
    }
    if before < t.differences {
        numbers(rt, "  the table that ran", case.tasks)?;
        numbers(rt, "  the list with fewer jobs", fewer.jobs)?;
    }
    Ok(())
}

fn told_of(
    rt: &impl Print,
    t: &mut Tally,
    number: u32,
    got: Answer,
    dropped: bool,
) -> io::Result<()> {
    if dropped {
        t.add(PREMISE_DROPPED, 1);
        if got != Answer::Done {
            t.add(DROPPED_UNLIKE, 1);
        }
        Ok(())
    } else {
        t.note(rt, Call::Member, number, Answer::Done, got)
    }
}

// The members are the tasks above the lower of two tasks' priorities; one time in four the others may be more critical.
pub(crate) fn try_others(rt: &impl Print, t: &mut Tally, case: Case) -> io::Result<()> {
    let n = (case.task_count() % 64) as u32;
    let one = case.task(draw(case.trial, 290, n), PRIORITY);
    let two = case.task(draw(case.trial, 292, n), PRIORITY);
    let bar = one.min(two);
    let dropped = draw(case.trial, 291, 4) == 0;
    let most = if dropped {
        MOST
    } else {
        least_critical(case.tasks, bar)
    };
    let table = bounded(case.tasks, bar, most);
    try_members(rt, t, case.with_tasks(table.as_slice()), bar, dropped)
}
