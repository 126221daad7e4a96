// Which refusal goes first. Every rule that is broken is a fault, and the least decides, in document 01's order: no check waits for
// another.
use crate::answers::Answer;
use crate::list::{
    ARRIVAL, CRITICALITY, DEADLINE, EXECUTION, NOMINAL, OFFSET, OVERLOAD, OWNER, PERIOD, PRIORITY,
    job, task,
};

// A rule that is broken: 2, a table of no length that is allowed; 3 or 4 of a task; 5, a list of jobs of none that is; 6, 7 or 8 of a job;
// 9 or one after it. The order of the variants, and of their fields, is the order in which they go.
#[derive(Clone, Copy, PartialEq, Eq, PartialOrd, Ord)]
pub enum Fault {
    Table,
    Task { place: u32, number: u32 },
    List,
    Job { place: u32, number: u32 },
    Later { number: u32 },
}

impl From<Fault> for Answer {
    fn from(fault: Fault) -> Answer {
        let (number, place) = match fault {
            Fault::Table => (2, 0),
            Fault::List => (5, 0),
            Fault::Task { place, number } | Fault::Job { place, number } => (number, place),
            Fault::Later { number } => (number, 0),
        };
        Answer::Refused { number, place }
    }
}

// What is answered: the refusal of a fault, or done where there is none.
pub fn refusal(fault: Option<Fault>) -> Answer {
    match fault {
        Some(fault) => Answer::from(fault),
        None => Answer::Done,
    }
}

fn when(broken: bool, fault: Fault) -> Option<Fault> {
    if broken { Some(fault) } else { None }
}

// One of the rules from 9 on, where it is broken.
pub fn rule(broken: bool, number: u32) -> Option<Fault> {
    when(broken, Fault::Later { number })
}

// Of some faults, or none, the one that goes first.
pub fn first(faults: &[Option<Fault>]) -> Option<Fault> {
    faults.iter().copied().flatten().min()
}

fn task_fault(tasks: &[u32], k: u32) -> Option<Fault> {
    let t = task(tasks, k, PERIOD);
    let d = task(tasks, k, DEADLINE);
    let c = task(tasks, k, NOMINAL);
    let co = task(tasks, k, OVERLOAD);
    let z = task(tasks, k, OFFSET);
    let above = (0 < t) & (0 < d) & (0 < c) & (0 < co);
    let times = (t <= 16384) & (d <= 16384) & (c <= 16384) & (co <= 16384) & (z <= 16384);
    let scales = (task(tasks, k, CRITICALITY) <= 255) & (task(tasks, k, PRIORITY) <= 63);
    let ordered = (z <= d) & (d <= t) & (c <= co);
    let range = Fault::Task {
        place: k,
        number: 3,
    };
    let order = Fault::Task {
        place: k,
        number: 4,
    };
    first(&[
        when(!(above & times & scales), range),
        when(!ordered, order),
    ])
}

pub fn tasks_fault(tasks: &[u32]) -> Option<Fault> {
    let n = tasks.len();
    let mut fault = when((n % 7 != 0) | (n == 0) | (16 < n / 7), Fault::Table);
    for k in 0..(n / 7).min(16) as u32 {
        fault = first(&[fault, task_fault(tasks, k)]);
    }
    fault
}

// The first fault of the jobs so far, the arrival of the last one, and for each task its latest arrival. After an arrival that is out of
// range it no longer matters: no later fault goes before.
#[derive(Clone, Copy)]
struct Seen {
    fault: Option<Fault>,
    arrival: u32,
    latest: [Option<u32>; 16],
}

fn job_fault(seen: Seen, tasks: &[u32], jobs: &[u32], j: usize) -> Option<Fault> {
    let k = job(jobs, j, OWNER);
    let a = job(jobs, j, ARRIVAL);
    let place = (j % 100) as u32;
    let fault = |number: u32| Fault::Job { place, number };
    if (16 <= k) | (tasks.len() / 7 <= (k as usize)) {
        return Some(fault(6));
    }
    let soon = match seen.latest[(k % 16) as usize] {
        Some(last) => u64::from(a) < u64::from(last) + u64::from(task(tasks, k, PERIOD)),
        None => false,
    };
    let beyond = (16384 < a) | (task(tasks, k, OVERLOAD) < job(jobs, j, EXECUTION));
    first(&[
        when(beyond, fault(6)),
        when(a < seen.arrival, fault(7)),
        when(soon, fault(8)),
    ])
}

pub fn jobs_fault(tasks: &[u32], jobs: &[u32]) -> Option<Fault> {
    let n = jobs.len();
    let mut seen = Seen {
        fault: when((n % 3 != 0) | (64 < n / 3), Fault::List),
        arrival: 0,
        latest: [None; 16],
    };
    for j in 0..(n / 3).min(64) {
        let i = (job(jobs, j, OWNER) % 16) as usize;
        seen.fault = first(&[seen.fault, job_fault(seen, tasks, jobs, j)]);
        seen.arrival = job(jobs, j, ARRIVAL);
        seen.latest[i] = Some(seen.arrival);
    }
    seen.fault
}

pub fn lists_fault(tasks: &[u32], jobs: &[u32]) -> Option<Fault> {
    first(&[tasks_fault(tasks), jobs_fault(tasks, jobs)])
}

// How many ticks a run or a claim has: none where it is refused.
pub fn ticks_of(fault: Option<Fault>, horizon: u32) -> u32 {
    if fault.is_none() { horizon } else { 0 }
}

// What a run and a claim are refused for.
pub fn schedule_fault(tasks: &[u32], jobs: &[u32], horizon: u32, room: usize) -> Option<Fault> {
    first(&[
        lists_fault(tasks, jobs),
        rule(16384 < horizon, 9),
        rule(room != (horizon as usize), 10),
    ])
}
