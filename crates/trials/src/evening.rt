// Evenings of the planning office: batches of runs against the library's single runs, good batches and damaged ones.
use crate::records::{blank, same_record};
use crate::runs::alike;
use crate::tally::{Call, NO_RUNS};
use batch::Batch;
use drawn::answers::Answer;
use drawn::damage::{wrong_arrival, wrong_job, wrong_length, wrong_task};
use drawn::draw::draw;
use drawn::inputs::{make_day, short};
use drawn::judge::{first, jobs_fault, rule, tasks_fault};
use drawn::list::{Case, Line, List, at, front, lent, no_line};
use drawn::tally::{Tally, numbers};
use std::io;
use zsrm::{Mode, Tie};

// What an evening tries: a flat list of jobs, how many jobs each run has, the horizon, and how many entries are lent.
#[derive(Clone, Copy)]
struct Evening {
    jobs: List,
    counts: List,
    horizon: u32,
    room: u32,
}

// One more run, with at most so many jobs of its own for the table; in every other batch one list in four is damaged.
fn add_run(e: &mut Evening, tasks: List, case: Case, r: u32, most: u32) {
    let trial = case.trial.wrapping_add(4000000 + 100000 * (r % 64));
    let mut size = short(case.trial, false);
    size.jobs = draw(trial, 9, most % 64 + 1);
    let good = make_day(tasks, trial, case.mode, size).jobs;
    let harmed = (draw(case.trial, 126, 2) == 0) & (draw(trial, 127, 4) == 0);
    let own = match draw(trial, 128, 2) {
        _ if !harmed => good,
        0 => wrong_arrival(good, trial, 20001),
        _ => wrong_job(good, tasks, trial, 20001),
    };
    e.jobs.extend(own.as_slice());
    e.counts.push((own.len() / 3) as u32);
    e.room = e.room % 1048576 + e.horizon % 65536;
}

// Up to 5 runs, or none, or 32, or one too many; a flat list that is one number too long, a count that is one too high, or two by so much that
// a sum in 32 bits is the same, one entry too many, a horizon beyond the last; or a list of 65 jobs behind one of one job.
fn an_evening(tasks: List, case: Case) -> Evening {
    let trial = case.trial;
    let kind = draw(trial, 120, 14);
    let runs = match kind {
        0 => 32,
        1 => 33,
        2 => 0,
        _ => 1 + draw(trial, 121, 5),
    };
    let most = if 5 < runs { 2 } else { 12 };
    let mut e = Evening {
        jobs: List::new(),
        counts: List::new(),
        horizon: match kind {
            3 => 16385,
            _ => draw(trial, 122, 60),
        },
        room: 0,
    };
    for r in 0..runs {
        add_run(&mut e, tasks, case, r, most);
    }
    let counts = e.counts;
    match kind {
        4 => e.jobs.push(0),
        5 => e.counts = counts.with(0, counts.get(0) % 65536 + 1),
        6 => e.room = e.room % 65536 + 1,
        7 => {
            let high = counts.with(0, counts.get(0) % 65536 + 2147483648);
            e.counts = high.with(1, counts.get(1) % 65536 + 2147483648);
        }
        8 => {
            e.jobs = List::new().with_len(198);
            e.counts = List::new();
            e.counts.extend(&[1, 65]);
            e.room = 2 * (e.horizon % 65536);
        }
        _ => {}
    }
    e
}

// A batch as it is lent: the mode, the table, the flat list of jobs, how many jobs each run has, the horizon, and how many entries.
#[derive(Clone, Copy)]
struct Lent<'a> {
    mode: Mode,
    tasks: &'a [u32],
    jobs: &'a [u32],
    counts: &'a [u32],
    horizon: u32,
    room: u32,
}

impl<'a> Lent<'a> {
    // How many numbers the lists before a run have.
    fn start_of(&self, r: usize) -> u64 {
        let mut sum: u64 = 0;
        for count in front(self.counts, r) {
            sum = sum % 1099511627776 + u64::from(*count);
        }
        3 * (sum % 4398046511104)
    }

    // The list of a run.
    fn list_at(&self, r: usize) -> &'a [u32] {
        let from = (self.start_of(r) % 65536) as usize;
        let to = from + 3 * ((at(self.counts, r) % 65536) as usize);
        if to <= self.jobs.len() {
            &self.jobs[from..to]
        } else {
            &[]
        }
    }

    // Whether the flat list and the entries are as long as the runs need.
    fn fits(&self) -> bool {
        let runs = self.counts.len();
        let mut entries: u64 = 0;
        for _ in self.counts {
            entries = entries % 1099511627776 + u64::from(self.horizon);
        }
        let jobs = self.start_of(runs) == (self.jobs.len() as u64);
        (runs <= 32) & jobs & (u64::from(self.room) == entries)
    }

    // What must be answered: the table's faults first, then a horizon that is too long, then lists that do not fit together, then the first
    // run with a fault.
    fn due(&self) -> Due {
        let whole = first(&[
            tasks_fault(self.tasks),
            rule(16384 < self.horizon, 9),
            rule(!self.fits(), 17),
        ]);
        if let Some(fault) = whole {
            return Due {
                answer: fault.into(),
                run: 0,
            };
        }
        for r in 0..32 {
            let i = r as usize;
            if i < self.counts.len() {
                if let Some(fault) = jobs_fault(self.tasks, self.list_at(i)) {
                    return Due {
                        answer: fault.into(),
                        run: r,
                    };
                }
            }
        }
        Due {
            answer: Answer::Done,
            run: 0,
        }
    }
}

// What must be answered, and of which run.
#[derive(Clone, Copy)]
struct Due {
    answer: Answer,
    run: u32,
}

// One run of a batch that is done: its record and its part of the list are those of a call by itself.
fn try_single(
    rt: &impl Print,
    t: &mut Tally,
    batch: Lent,
    line: &Line,
    got: &Batch,
    r: u32,
) -> io::Result<()> {
    let i = (r % 32) as usize;
    let h = batch.horizon as usize;
    let jobs = batch.list_at(i);
    let mut one = no_line();
    let ran = zsrm::run(
        batch.mode,
        Tie::Lowest,
        batch.tasks,
        jobs,
        batch.horizon,
        lent(&mut one, h),
    );
    let place = i * ((batch.horizon % 65536) as usize);
    let answer = Answer::from(ran.outcome)
        .and_entries(alike(front(&one, h), line, place))
        .and_record(same_record(&got.records[i], &ran.record));
    t.note(rt, Call::BatchRun, r, Answer::Done, answer)
}

// The runs of a batch that is done, so many, and the records of those that there are not; of a refused one there is none.
fn try_runs(
    rt: &impl Print,
    t: &mut Tally,
    batch: Lent,
    line: &Line,
    got: &Batch,
    n: usize,
) -> io::Result<()> {
    for r in 0..32 {
        let i = r as usize;
        if i < n {
            try_single(rt, t, batch, line, got, r)?;
        } else {
            let none = same_record(&got.records[i], &blank());
            t.note(
                rt,
                Call::Blank,
                r,
                Answer::Done,
                Answer::Done.and_record(none),
            )?;
        }
    }
    Ok(())
}

// A table with a fault, one time in seven.
fn wrong_table(tasks: List, trial: u32) -> List {
    match draw(trial, 125, 28) {
        0 => wrong_length(tasks, trial, 130, 119),
        1 => wrong_task(tasks, trial, 130),
        2 => wrong_task(tasks, trial, 140),
        3 => wrong_task(tasks, trial, 150),
        _ => tasks,
    }
}

// One batch: its answer, the runs that it made, and what it left untouched.
fn try_batch(rt: &impl Print, t: &mut Tally, batch: Lent) -> io::Result<()> {
    let before = t.differences;
    let due = batch.due();
    let untouched = no_line();
    let mut line = no_line();
    let got = batch::run_each(
        batch.mode,
        batch.tasks,
        batch.jobs,
        batch.counts,
        batch.horizon,
        lent(&mut line, batch.room as usize),
    );
    let done = due.answer == Answer::Done;
    let answer = Answer::from(got.outcome)
        .and_entries(done | alike(&line, &untouched, 0))
        .and_words(got.run == due.run);
    t.note(rt, Call::Batch, due.run, due.answer, answer)?;
    if done & batch.counts.is_empty() {
        t.add(NO_RUNS, 1);
    }
    let n = if done { batch.counts.len() } else { 0 };
    try_runs(rt, t, batch, &line, &got, n)?;
    if before < t.differences {
        numbers(rt, "  the batch's table", batch.tasks)?;
        numbers(rt, "  jobs", batch.jobs)?;
        numbers(rt, "  counts", batch.counts)?;
        numbers(rt, "  horizon and entries", &[batch.horizon, batch.room])?;
    }
    Ok(())
}

// An evening; one in seven has a damaged table.
pub(crate) fn try_evening(rt: &impl Print, t: &mut Tally, case: Case) -> io::Result<()> {
    let whole = List::from(case.tasks);
    let e = an_evening(whole, case);
    let tasks = wrong_table(whole, case.trial);
    let batch = Lent {
        mode: case.mode,
        tasks: tasks.as_slice(),
        jobs: e.jobs.as_slice(),
        counts: e.counts.as_slice(),
        horizon: e.horizon,
        room: e.room.min(16384),
    };
    try_batch(rt, t, batch)
}
