// Task tables and job lists that are good: mostly short, with many ties, overloads, and instants that coincide; a few as long as is
// allowed.
ghost use Rattle.std.specs.Prelude.{◌<◌};

use crate::draw::{draw, draw_tie};
use crate::list::{Case, List, NOMINAL, OVERLOAD, PERIOD};
use zsrm::Mode;

// The input of a trial: the mode, the horizon, how many entries are lent, the two lists.
#[derive(Clone, Copy)]
pub struct Input {
    pub mode: Mode,
    pub horizon: u32,
    pub room: usize,
    pub tasks: List,
    pub jobs: List,
}

impl Input {
    // The input as the case of a trial, with a way to choose among equals by lot.
    pub fn case(&self, trial: u32) -> Case<'_> {
        Case {
            trial,
            mode: self.mode,
            tie: draw_tie(trial, 74),
            horizon: self.horizon,
            room: self.room,
            tasks: self.tasks.as_slice(),
            jobs: self.jobs.as_slice(),
        }
    }
}

// How large an input is: how many tasks and at most how many jobs, the least period, the range of times, the widest gap before an
// arrival, the longest horizon.
#[derive(Clone, Copy)]
pub struct Size {
    pub tasks: u32,
    pub jobs: u32,
    pub period: u32,
    pub range: u32,
    pub gap: u32,
    pub horizon: u32,
}

// How many criticalities and priorities there are to draw from: mostly a few, so that tasks tie.
fn span(trial: u32, place: u32, most: u32) -> u32 {
    match draw(trial, place, 6) {
        5 => most,
        few => few + 1,
    }
}

// Z at its ends or between them.
fn offset(trial: u32, place: u32, d: u32) -> u32
    requires { place < 60000 }
{
    match draw(trial, place, 4) {
        0 => 0,
        1 => d,
        _ => draw(trial, place + 1, d % 65536 + 1),
    }
}

fn add_task(tasks: &mut List, trial: u32, k: u32, size: Size) {
    let place = 1000 + 32 * (k % 64);
    let t = match draw(trial, place, 40) {
        0 => 16384,
        _ => size.period % 65536 + draw(trial, place + 1, size.range),
    };
    let d = match draw(trial, place + 2, 2) {
        0 => t,
        _ => 1 + draw(trial, place + 3, t),
    };
    let co = 1 + draw(trial, place + 4, size.range);
    let c = match draw(trial, place + 5, 3) {
        0 => co,
        _ => 1 + draw(trial, place + 6, co),
    };
    let criticality = draw(trial, place + 7, span(trial, 2, 256));
    let priority = draw(trial, place + 8, span(trial, 3, 64));
    let z = offset(trial, place + 9, d);
    tasks.extend(&[t, d, c, co, criticality, priority, z]);
}

fn make_tasks(trial: u32, size: Size) -> List {
    let mut tasks = List::new();
    for k in 0..size.tasks {
        add_task(&mut tasks, trial, k, size);
    }
    tasks
}

// The jobs so far, the last arrival, the work of them all, and for each task the soonest that it may come again.
#[derive(Clone, Copy)]
struct Making {
    jobs: List,
    last: u32,
    work: u32,
    soonest: [u32; 16],
}

// The task that may come first; among several, one by lot.
fn first_task(m: &Making, trial: u32, j: u32, count: u32) -> u32 {
    let mut first = draw(trial, 4000 + j % 128, count);
    for k in 0..16 {
        let i = (first % 16) as usize;
        if (k < count) & (m.soonest[k as usize] < m.soonest[i]) {
            first = k;
        }
    }
    first
}

// An execution time at one of the ends that matter, or between them.
fn work(trial: u32, place: u32, c: u32, co: u32) -> u32
    requires { place < 60000 }
{
    match draw(trial, place, 8) {
        0 => 0,
        1 => c,
        2 => (c % 65536 + 1).min(co),
        3 | 4 => co,
        _ => draw(trial, place + 1, co % 65536 + 1),
    }
}

// An arrival, often at the soonest, else in a gap after it; beyond the last that is allowed where there is none.
fn next_arrival(trial: u32, place: u32, soonest: u32, gap: u32) -> u32
    requires { place < 60000 }
{
    let first = soonest % 65536;
    if 16384 < first {
        return first;
    }
    match draw(trial, place, 3) {
        0 => (first + draw(trial, place + 1, gap)).min(16384),
        _ => first,
    }
}

fn add_job(m: &mut Making, tasks: List, trial: u32, j: u32, size: Size) {
    let place = 6000 + 8 * (j % 128);
    let k = first_task(m, trial, j, size.tasks) % 16;
    let i = k as usize;
    let row = 7 * i;
    let soonest = m.last % 65536 + m.soonest[i].saturating_sub(m.last) % 65536;
    let arrival = next_arrival(trial, place, soonest, size.gap) % 65536;
    if 16384 < arrival {
        return;
    }
    let c = work(
        trial,
        place + 2,
        tasks.get(row + NOMINAL),
        tasks.get(row + OVERLOAD),
    );
    m.jobs.extend(&[k, arrival, c]);
    m.last = arrival;
    m.work = m.work % 65536 + c % 65536;
    m.soonest[i] = arrival + tasks.get(row + PERIOD) % 65536;
}

fn make_jobs(tasks: List, trial: u32, size: Size) -> Making {
    let mut m = Making {
        jobs: List::new(),
        last: 0,
        work: 0,
        soonest: [0; 16],
    };
    for j in 0..size.jobs {
        add_job(&mut m, tasks, trial, j, size);
    }
    m
}

// A horizon that lets the jobs finish, or cuts some off, or is 0; a long one is the longest, or every other time somewhat less.
fn horizon(trial: u32, last: u32, work: u32, most: u32) -> u32 {
    if most == 16384 {
        return most - draw(trial, 6, 4096 * (trial % 2)) % 4096;
    }
    match draw(trial, 5, 12) {
        0 => 0,
        1..=3 => (1 + draw(trial, 6, last % 65536 + 1)).min(most),
        _ => (last % 65536 + draw(trial, 7, work % 65536 + 8)).min(most),
    }
}

// Jobs of a table's tasks, so many of them as the size says, and a horizon.
pub fn make_day(tasks: List, trial: u32, mode: Mode, size: Size) -> Input {
    let made = make_jobs(tasks, trial, size);
    let h = horizon(trial, made.last, made.work, size.horizon);
    Input {
        mode,
        horizon: h,
        room: h as usize,
        tasks,
        jobs: made.jobs,
    }
}

pub fn make_input(trial: u32, mode: Mode, size: Size) -> Input {
    make_day(make_tasks(trial, size), trial, mode, size)
}

// Up to 5 tasks and 12 jobs; or the most that is allowed, 16 tasks and 64 jobs.
pub fn short(trial: u32, most: bool) -> Size {
    Size {
        tasks: if most { 16 } else { 1 + draw(trial, 8, 5) },
        jobs: if most { 64 } else { draw(trial, 9, 13) },
        period: 1,
        range: 3 + draw(trial, 1, 20),
        gap: 6,
        horizon: 500,
    }
}

// Up to 5 tasks and 40 jobs, whose times spread over the longest horizon.
pub fn long(trial: u32) -> Size {
    Size {
        tasks: 3 + draw(trial, 8, 3),
        jobs: 40,
        period: 900,
        range: 500 + draw(trial, 1, 1500),
        gap: 900,
        horizon: 16384,
    }
}
