// Deadline misses over a window, against windows counted one by one from verdicts asked one by one.
use crate::tally::{Beside, Call, Desk};
use drawn::answers::Answer;
use drawn::draw::draw;
use drawn::judge::{Fault, first, lists_fault, refusal, rule};
use drawn::list::{Case, OWNER, front, lent, no_line};
use std::{array, io};
use window::Windows;
use zsrm::{Ran, Record, Refusal};

// What is said of a job.
#[derive(Clone, Copy, PartialEq, Eq)]
enum Fate {
    Missed,
    Open,
    Neither,
}

// A question: whether every k consecutive jobs of the task contain at most m misses.
#[derive(Clone, Copy)]
struct Question {
    task: u32,
    m: u32,
    k: u32,
}

// A job of a task: its number, and what is said of it.
#[derive(Clone, Copy)]
struct Own {
    number: u32,
    fate: Fate,
}

// The jobs of a task, in the order of the list.
#[derive(Clone, Copy)]
struct OwnJobs {
    jobs: [Own; 64],
    count: usize,
}

impl OwnJobs {
    fn new() -> OwnJobs {
        let none = Own {
            number: 0,
            fate: Fate::Neither,
        };
        OwnJobs {
            jobs: [none; 64],
            count: 0,
        }
    }

    fn push(&mut self, job: Own) {
        let n = self.count;
        if n < 64 {
            self.jobs[n] = job;
            self.count = n + 1;
        }
    }

    fn as_slice(&self) -> &[Own] {
        front(&self.jobs, self.count)
    }
}

// Done where every window passes, the number of its first job where one fails, or a refusal; its misses; how many jobs are open.
#[derive(Clone, Copy)]
struct Judged {
    answer: Answer,
    misses: usize,
    opens: usize,
}

fn of_windows(windows: Result<Windows, Refusal>) -> Judged {
    match windows {
        Err(refusal) => Judged {
            answer: Answer::from(refusal),
            misses: 0,
            opens: 0,
        },
        Ok(Windows::Passes(opens)) => Judged {
            answer: Answer::Done,
            misses: 0,
            opens: opens as usize,
        },
        Ok(Windows::Fails(job, misses, opens)) => Judged {
            answer: Answer::Numbered(job),
            misses: misses as usize,
            opens: opens as usize,
        },
    }
}

fn fate_of(rec: Record, case: Case, j: u32) -> Fate {
    match Answer::from(zsrm::verdict(rec, case.mode, case.tasks, case.jobs, j)) {
        Answer::Ended | Answer::Late { .. } => Fate::Missed,
        Answer::Open => Fate::Open,
        _ => Fate::Neither,
    }
}

// How many of some jobs have this fate.
fn how_many(own: &[Own], fate: Fate) -> usize {
    own.iter().filter(|job| job.fate == fate).count()
}

// The windows of k jobs counted one by one, from the last to the first: the earliest that fails is found last.
fn counted(own: &[Own], m: usize, k: usize) -> Judged {
    let mut due = Judged {
        answer: Answer::Done,
        misses: 0,
        opens: how_many(own, Fate::Open),
    };
    for window in own.windows(k.max(1)).rev() {
        let misses = how_many(window, Fate::Missed);
        if let Some(job) = window.first()
            && m < misses
        {
            due.answer = Answer::Numbered(job.number);
            due.misses = misses;
        }
    }
    due
}

// K mostly from 1 to 12, at times from 13 to 64, one time in twelve 0 or over 64; m mostly at most half of K, at times up to K + 1; one time
// in twelve a task that is not there.
fn a_question(case: Case, place: u32) -> Question {
    let trial = case.trial;
    let n = (case.task_count() % 64) as u32;
    let at = 1700 + 8 * (place % 64);
    let other = draw(trial, at + 1, 52);
    let k = match draw(trial, at + 2, 24) {
        0 => 0,
        1 => 65 + other,
        2 => 13 + other,
        _ => 1 + draw(trial, at + 3, 12),
    };
    let most = match draw(trial, at + 6, 6) {
        0 => k + 1,
        _ => k / 2,
    };
    Question {
        task: match draw(trial, at, 12) {
            0 => n,
            _ => draw(trial, at + 5, n),
        },
        m: draw(trial, at + 4, most + 1),
        k,
    }
}

// What a question is refused for.
fn fault_of(rec: Record, case: Case, q: Question) -> Option<Fault> {
    first(&[
        lists_fault(case.tasks, case.jobs),
        rule(16384 < rec.tick, 11),
        rule((q.k == 0) | (64 < q.k) | (q.k < q.m), 19),
        rule(case.task_count() <= (q.task as usize), 20),
    ])
}

// One question, its answer against the count.
fn try_question(
    desk: &mut Desk<impl Print>,
    rec: Record,
    case: Case,
    fates: &[Fate; 64],
    q: Question,
) -> io::Result<()> {
    let mut jobs = OwnJobs::new();
    for (j, fate) in fates.iter().enumerate().take(case.job_count()) {
        if case.job(j, OWNER) == q.task {
            jobs.push(Own {
                number: (j % 64) as u32,
                fate: *fate,
            });
        }
    }
    let own = jobs.as_slice();
    let due = match fault_of(rec, case, q) {
        Some(fault) => Judged {
            answer: Answer::from(fault),
            misses: 0,
            opens: 0,
        },
        None => counted(own, q.m as usize, q.k as usize),
    };
    let came = of_windows(window::judge(rec, case.mode, case.tasks, case.jobs, q.task, q.m, q.k));
    let same = (came.misses == due.misses) & (came.opens == due.opens);
    desk.note(
        Call::Judge,
        q.task,
        due.answer,
        came.answer.and_record(same),
    )?;
    if (due.answer == Answer::Done) & (own.len() < (q.k as usize)) {
        desk.add(Call::Judge, Beside::FewerJobs, 1);
    }
    if let (Answer::Numbered(number), Some(job)) = (due.answer, own.first())
        && job.number < number
    {
        desk.add(Call::Judge, Beside::LaterWindow, 1);
    }
    if 0 < due.opens {
        desk.add(Call::Judge, Beside::OpenJobs, 1);
    }
    Ok(())
}

// The record of a run; where it is refused, the fresh one.
fn record_of(ran: Ran, case: Case) -> Record {
    if Answer::from(ran.outcome) == Answer::Done {
        ran.record
    } else {
        ran.record.fresh(case.tasks, case.jobs).record
    }
}

// Some questions about a run's record, one time in ten about one beyond the last tick.
pub(crate) fn try_windows(desk: &mut Desk<impl Print>, case: Case) -> io::Result<()> {
    let mut line = no_line();
    let entries = lent(&mut line, case.room);
    let ran = zsrm::run(
        case.mode,
        case.tie,
        case.tasks,
        case.jobs,
        case.horizon,
        entries,
    );
    let mut rec = record_of(ran, case);
    if draw(case.trial, 1690, 10) == 0 {
        rec.tick = 16385;
    }
    let fates = array::from_fn(|j| fate_of(rec, case, (j % 64) as u32));
    for i in 0..24 {
        try_question(desk, rec, case, &fates, a_question(case, i))?;
    }
    Ok(())
}
