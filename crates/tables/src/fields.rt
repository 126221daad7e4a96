// Document 01, "Tables and lists": the two scales of a task, which are kept apart, and the fields of tasks and jobs. A field past a
// list's end is 0.
ghost use Rattle.std.specs.Prelude.{◌≡◌, get_or, ltb, eqb, ◌+◌, ◌*◌, ◌<◌};
ghost use Rattle.tables.specs.Tables.{lists, job_count, task_of, arrival, job_criticality, job_priority, job_nominal, zero_slack_instant, deadline_instant};
ghost use Rattle.tables.specs.Fields.{task_at, job_at};

// The schedule entry of a tick in which no job runs.
pub const IDLE: u16 = 65535;

// Larger runs first. No criticality is one.
#[derive(Clone, Copy, Debug, PartialEq, Eq, PartialOrd, Ord)]
pub struct Priority(pub u32);

// Larger matters more. No priority is one.
#[derive(Clone, Copy, Debug, PartialEq, Eq, PartialOrd, Ord)]
pub struct Criticality(pub u32);

// The number at place i, or 0 past the list's end.
fn at(list: &[u32], i: usize) -> u32
    ensures { result ≡ get_or list.now i 0 }
{
    list.get(i).copied().unwrap_or(0)
}

// How many jobs the list has.
pub fn job_count(jobs: &[u32]) -> usize
    ensures { result ≡ job_count jobs.now }
{
    jobs.len() / 3
}

// A task's fields.
#[derive(Clone, Copy, Debug, PartialEq, Eq)]
pub struct Task {
    pub period: u32,
    pub deadline: u32,
    pub nominal: u32,
    pub overload: u32,
    pub criticality: Criticality,
    pub priority: Priority,
    // Z
    pub offset: u32,
}

// The fields of task k, 0 past the end.
pub(crate) fn task_at(tasks: &[u32], k: u32) -> Task
    ensures { result ≡ task_at tasks.now k }
{
    let first = 7 * (k as usize);
    Task {
        period: at(tasks, first),
        deadline: at(tasks, first + 1),
        nominal: at(tasks, first + 2),
        overload: at(tasks, first + 3),
        criticality: Criticality(at(tasks, first + 4)),
        priority: Priority(at(tasks, first + 5)),
        offset: at(tasks, first + 6),
    }
}

// A job's fields.
#[derive(Clone, Copy, Debug, PartialEq, Eq)]
pub struct Job {
    pub task: u32,
    pub arrival: u32,
    pub execution: u32,
}

// The fields of job j, 0 past the end.
pub fn job_at(jobs: &[u32], j: u32) -> Job
    ensures { result ≡ job_at jobs.now j }
{
    let first = 3 * (j as usize);
    Job {
        task: at(jobs, first),
        arrival: at(jobs, first + 1),
        execution: at(jobs, first + 2),
    }
}

// One number of the task of a job, by its place among the task's seven.
fn task_number(tasks: &[u32], jobs: &[u32], j: u32, field: usize) -> u32
    requires { field < 7 }
    ensures { result ≡ get_or tasks.now (7 * task_of jobs.now j + field) 0 }
{
    let task = at(jobs, 3 * (j as usize));
    at(tasks, 7 * (task as usize) + field)
}

// The criticality of a job's task.
pub fn criticality_of(tasks: &[u32], jobs: &[u32], j: u32) -> Criticality
    ensures { result.0 ≡ job_criticality (lists tasks.now jobs.now) j }
{
    Criticality(task_number(tasks, jobs, j, 4))
}

// The priority of a job's task.
pub fn priority_of(tasks: &[u32], jobs: &[u32], j: u32) -> Priority
    ensures { result.0 ≡ job_priority (lists tasks.now jobs.now) j }
{
    Priority(task_number(tasks, jobs, j, 5))
}

// The nominal time C of a job's task.
pub fn nominal_of(tasks: &[u32], jobs: &[u32], j: u32) -> u32
    ensures { result ≡ job_nominal (lists tasks.now jobs.now) j }
{
    task_number(tasks, jobs, j, 2)
}

// A job's arrival plus one number of its task, in 64 bits, since the sum may not fit in 32.
fn after_arrival(tasks: &[u32], jobs: &[u32], j: u32, field: usize) -> u64
    requires { field < 7 }
    ensures { result ≡ arrival jobs.now j + get_or tasks.now (7 * task_of jobs.now j + field) 0 }
{
    let arrival = at(jobs, 3 * (j as usize) + 1);
    (arrival as u64) + (task_number(tasks, jobs, j, field) as u64)
}

// arrival + Z
pub fn zero_slack_instant(tasks: &[u32], jobs: &[u32], j: u32) -> u64
    ensures { result ≡ zero_slack_instant (lists tasks.now jobs.now) j }
{
    after_arrival(tasks, jobs, j, 6)
}

// arrival + D
pub fn deadline_instant(tasks: &[u32], jobs: &[u32], j: u32) -> u64
    ensures { result ≡ deadline_instant (lists tasks.now jobs.now) j }
{
    after_arrival(tasks, jobs, j, 1)
}

impl Criticality {
    // Strictly more critical: a criticality is compared with a criticality only.
    pub fn exceeds(self, other: Criticality) -> bool
        ensures { result ≡ ltb other.0 self.0 }
    {
        self > other
    }
}

impl Priority {
    // The same priority: a priority is compared with a priority only.
    pub fn equals(self, other: Priority) -> bool
        ensures { result ≡ eqb self.0 other.0 }
    {
        self == other
    }
}
