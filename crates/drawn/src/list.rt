// The lists of a trial and how they are read. Every read is total: past a list's end stands 0, and what finds no room is left out.
ghost use Rattle.std.specs.Prelude.{◌≤◌};

use zsrm::{Mode, Tie};

// Room for 17 tasks and for 66 jobs, which are more than are allowed. A length may be any: of one beyond the room all 224 numbers are read. No
// Vec and no ArrayVec of the kit: neither is `Copy`, and a list is copied wherever it is damaged.
#[derive(Clone, Copy)]
pub struct List {
    pub at: [u32; 224],
    pub len: usize,
}

// A schedule, with room for the longest horizon.
pub type Line = [u16; 16384];

// What a trial is about: its number, which is the seed of all that is drawn for it, the mode, the way to choose among equals, the horizon,
// how many entries are lent, and the two lists.
#[derive(Clone, Copy)]
pub struct Case<'a> {
    pub trial: u32,
    pub mode: Mode,
    pub tie: Tie,
    pub horizon: u32,
    pub room: usize,
    pub tasks: &'a [u32],
    pub jobs: &'a [u32],
}

impl<'a> Case<'a> {
    // The case with another table, and with other jobs.
    pub fn with_tasks<'b>(self, tasks: &'b [u32]) -> Case<'b>
    where
        'a: 'b,
    {
        Case {
            trial: self.trial,
            mode: self.mode,
            tie: self.tie,
            horizon: self.horizon,
            room: self.room,
            tasks,
            jobs: self.jobs,
        }
    }

    pub fn with_jobs<'b>(self, jobs: &'b [u32]) -> Case<'b>
    where
        'a: 'b,
    {
        Case {
            trial: self.trial,
            mode: self.mode,
            tie: self.tie,
            horizon: self.horizon,
            room: self.room,
            tasks: self.tasks,
            jobs,
        }
    }

    pub fn task_count(&self) -> usize {
        self.tasks.len() / 7
    }

    pub fn job_count(&self) -> usize {
        self.jobs.len() / 3
    }

    // A field of a task, of a job, and of a job's task.
    pub fn task(&self, k: u32, column: usize) -> u32 {
        task(self.tasks, k, column)
    }

    pub fn job(&self, j: usize, column: usize) -> u32 {
        job(self.jobs, j, column)
    }

    pub fn task_of(&self, j: usize, column: usize) -> u32 {
        task(self.tasks, self.job(j, OWNER), column)
    }
}

// What stands in a schedule before a call.
pub const KEPT: u16 = 23045;

pub const IDLE: u16 = 65535;

// The columns of a task and of a job.
pub const PERIOD: usize = 0;

pub const DEADLINE: usize = 1;

pub const NOMINAL: usize = 2;

pub const OVERLOAD: usize = 3;

pub const CRITICALITY: usize = 4;

pub const PRIORITY: usize = 5;

pub const OFFSET: usize = 6;

pub const OWNER: usize = 0;

pub const ARRIVAL: usize = 1;

pub const EXECUTION: usize = 2;

impl List {
    pub fn new() -> List {
        List {
            at: [0; 224],
            len: 0,
        }
    }

    // How many numbers are read.
    pub fn len(&self) -> usize
        ensures { result ≤ 224 }
    {
        self.len.min(224)
    }

    pub fn as_slice(&self) -> &[u32] {
        &self.at[..self.len()]
    }

    pub fn push(&mut self, x: u32) {
        let n = self.len;
        if n < 224 {
            self.at[n] = x;
            self.len = n + 1;
        }
    }

    pub fn extend(&mut self, numbers: &[u32]) {
        for x in numbers {
            self.push(*x);
        }
    }

    // The list with another number at a place, also past its end.
    pub fn with(self, i: usize, x: u32) -> List {
        let mut next = self;
        if i < 224 {
            next.at[i] = x;
        }
        next
    }

    // The list of another length: cut, or longer by the numbers that stand past its end.
    pub fn with_len(self, n: usize) -> List {
        let mut next = self;
        next.len = n;
        next
    }

    // The number at a place, also past the list's end.
    pub fn get(&self, i: usize) -> u32 {
        if i < 224 { self.at[i] } else { 0 }
    }
}

// A list with the same numbers, as far as there is room.
impl From<&[u32]> for List {
    fn from(numbers: &[u32]) -> List {
        let mut list = List::new();
        list.extend(numbers);
        list
    }
}

pub fn no_line() -> Line {
    [KEPT; 16384]
}

// A number as a record keeps it, in 16 bits; what stands above them is dropped.
pub fn short(x: u32) -> u16 {
    (x % 65536) as u16
}

pub fn at(list: &[u32], i: usize) -> u32 {
    if i < list.len() { list[i] } else { 0 }
}

pub fn entry_at(line: &[u16], i: usize) -> u16 {
    if i < line.len() { line[i] } else { KEPT }
}

// A field of a job, and of a task.
pub fn job(jobs: &[u32], j: usize, column: usize) -> u32 {
    if (j < 100) && (column < 3) {
        at(jobs, 3 * j + column)
    } else {
        0
    }
}

pub fn task(tasks: &[u32], k: u32, column: usize) -> u32 {
    if (k < 100) && (column < 7) {
        at(tasks, 7 * (k as usize) + column)
    } else {
        0
    }
}

// The first n of a list, or all where there are fewer.
pub fn front<T>(list: &[T], n: usize) -> &[T] {
    &list[..n.min(list.len())]
}

// Lends the first n of a list, or all where there are fewer.
pub fn lent<T>(list: &mut [T], n: usize) -> &mut [T] {
    let end = n.min(list.len());
    &mut list[..end]
}
