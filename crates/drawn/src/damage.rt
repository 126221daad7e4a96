// Inputs damaged in one place: every refusal of a task table, a job list, a horizon and a length, at the edge and far beyond it.
ghost use Rattle.std.specs.Prelude.{◌<◌};

use crate::draw::draw;
use crate::inputs::Input;
use crate::list::{
    ARRIVAL, CRITICALITY, DEADLINE, EXECUTION, List, NOMINAL, OFFSET, OVERLOAD, OWNER, PERIOD,
    PRIORITY,
};

// A number at a bound, just beyond it, or far beyond it, where only its low bits would pass.
fn beyond(trial: u32, place: u32, most: u32) -> u32 {
    let near = most % 65536 + 1;
    match draw(trial, place, 6) {
        0 => 4294967295,
        1 => 65536 + near,
        2 => 2147483648 + near,
        3 => most,
        _ => near,
    }
}

// The last number goes, or all do, or there are one or two more, or too many.
pub fn wrong_length(list: List, trial: u32, place: u32, too_many: usize) -> List {
    let n = list.len;
    let mut longer = list;
    match draw(trial, place, 5) {
        0 => list.with_len(0),
        1 => list.with_len(too_many),
        2 => {
            longer.push(1);
            longer
        }
        3 => {
            longer.extend(&[1, 1]);
            longer
        }
        _ => list.with_len(if 0 < n { n - 1 } else { 1 }),
    }
}

// One field of a task out of its range, or out of its order.
pub fn wrong_task(tasks: List, trial: u32, from: u32) -> List {
    let place = from % 50000;
    let k = draw(trial, place, ((tasks.len / 7) % 64) as u32) as usize;
    let row = 7 * k;
    let column = draw(trial, place + 2, 7) as usize;
    match draw(trial, place + 1, 6) {
        0 => tasks.with(row + column % 4, 0),
        1 | 2 => {
            let most = match column {
                CRITICALITY => 255,
                PRIORITY => 63,
                _ => 16384,
            };
            tasks.with(row + column, beyond(trial, place + 3, most))
        }
        3 => tasks.with(row + NOMINAL, tasks.get(row + OVERLOAD).wrapping_add(1)),
        4 => tasks.with(row + DEADLINE, tasks.get(row + PERIOD).wrapping_add(1)),
        _ => tasks.with(row + OFFSET, tasks.get(row + DEADLINE).wrapping_add(1)),
    }
}

// A row's place in a list of jobs, not the first where there are two.
fn some_row(jobs: List, trial: u32, place: u32) -> usize
    ensures { result < 200000 }
{
    let n = ((jobs.len / 3) % 128) as u32;
    if n < 2 {
        return 0;
    }
    3 * ((1 + draw(trial, place, n - 1)) as usize)
}

// A task that is not there, an arrival or an execution time beyond its bound.
pub fn wrong_job(jobs: List, tasks: List, trial: u32, from: u32) -> List {
    let place = from % 50000;
    let row = some_row(jobs, trial, place);
    let count = ((tasks.len / 7) % 64) as u32;
    let owner = (jobs.get(row + OWNER) % 64) as usize;
    match draw(trial, place + 1, 3) {
        0 => {
            let none = match draw(trial, place + 2, 2) {
                0 => count,
                _ => beyond(trial, place + 3, count),
            };
            jobs.with(row + OWNER, none)
        }
        1 => jobs.with(row + ARRIVAL, beyond(trial, place + 2, 16384)),
        _ => {
            let longest = tasks.get(7 * owner + OVERLOAD);
            jobs.with(row + EXECUTION, longest.wrapping_add(1))
        }
    }
}

// An arrival before the one above it, or too soon after the task's preceding job.
pub fn wrong_arrival(jobs: List, trial: u32, from: u32) -> List {
    let place = from % 50000;
    let row = some_row(jobs, trial, place);
    if row < 3 {
        return jobs;
    }
    let arrival = jobs.get(row + ARRIVAL);
    let last = jobs.get(row - 3 + ARRIVAL);
    match draw(trial, place + 1, 4) {
        0 => jobs.with(row + ARRIVAL, last.saturating_sub(1)),
        1 => jobs.with(row + ARRIVAL, last),
        2 => jobs.with(row + OWNER, jobs.get(row - 3 + OWNER)),
        _ => jobs.with(row + ARRIVAL, arrival.saturating_sub(1)),
    }
}

// Another horizon, or another number of entries than the horizon.
fn wrong_ends(inp: Input, trial: u32, place: u32) -> Input
    requires { place < 50000 }
{
    let mut next = inp;
    match draw(trial, place, 5) {
        0 => next.horizon = beyond(trial, place + 1, 16384),
        1 => next.horizon = 16385,
        2 => next.room = inp.room % 65536 + 1,
        3 => next.horizon = inp.horizon % 65536 + 1,
        _ => {
            next.room = inp.room % 256;
            next.horizon = 65536 + inp.horizon % 65536;
        }
    }
    next
}

// The input with one damage; two damages are this one twice, at other places of the draw.
pub fn damaged(inp: Input, trial: u32, from: u32) -> Input {
    let place = from % 40000;
    let tasks = inp.tasks;
    let jobs = inp.jobs;
    let mut next = inp;
    match draw(trial, place, 12) {
        0 => next.tasks = wrong_length(tasks, trial, place + 1, 119),
        1..=3 => next.tasks = wrong_task(tasks, trial, place + 1),
        4 => next.jobs = wrong_length(jobs, trial, place + 1, 195),
        5 | 6 => next.jobs = wrong_job(jobs, tasks, trial, place + 1),
        7..=9 => next.jobs = wrong_arrival(jobs, trial, place + 1),
        _ => next = wrong_ends(inp, trial, place + 1),
    }
    next
}
