// What a tick needs of each job, read from the lists once: five numbers a job in one list, which a loop then reads without a guard.
ghost use Rattle.std.specs.Prelude.{◌≡◌, ◌<◌, ◌≤◌, ◌+◌, ◌*◌, get_or};
ghost use Rattle.tables.specs.Outcomes.{Done};
ghost use Rattle.tables.specs.Refusals.{check_lists};
ghost use Rattle.tables.specs.Tables.{lists};
ghost use Rattle.zsrm.specs.Code.Gathered.{arrival_in, execution_in, slack_in, nominal_in, criticality_in, priority_in, put_job, Gathers};

use tables::{
    Criticality, Priority, criticality_of, job_at, job_count, nominal_of, priority_of,
    zero_slack_instant,
};

// Five numbers of each of 64 jobs, one job's behind another's.
pub(crate) type Numbers = [u16; 320];

// The five numbers of job j put in the list.
pub(crate) fn put_job(
    out: &mut Numbers,
    j: usize,
    a: u16,
    c: u16,
    z: u16,
    nominal: u16,
    scales: u16,
)
    requires { j < 64 }
    ensures { out.new ≡ put_job out.old j a c z nominal scales }
{
    let first = 5 * j;
    out[first] = a;
    out[first + 1] = c;
    out[first + 2] = z;
    out[first + 3] = nominal;
    out[first + 4] = scales;
}

// Both scales in one number: 64 times the criticality plus the priority.
pub(crate) fn both_scales(criticality: Criticality, priority: Priority) -> u16
    requires { (criticality.0 ≤ 255) × (priority.0 ≤ 63) }
    ensures { result ≡ 64 * criticality.0 + priority.0 }
{
    (64 * criticality.0 + priority.0) as u16
}

// What lists that passed their checks say of each job.
pub(crate) fn gather(tasks: &[u32], jobs: &[u32], out: &mut Numbers)
    requires { check_lists (lists tasks.now jobs.now) ≡ Done }
    ensures { Gathers (lists tasks.now jobs.now) out.new }
{
    let n = job_count(jobs) as u32;
    for j in 0..n {
        let job = job_at(jobs, j);
        let z = zero_slack_instant(tasks, jobs, j);
        let nominal = nominal_of(tasks, jobs, j);
        let criticality = criticality_of(tasks, jobs, j);
        let priority = priority_of(tasks, jobs, j);
        let scales = both_scales(criticality, priority);
        put_job(
            out,
            j as usize,
            job.arrival as u16,
            job.execution as u16,
            z as u16,
            nominal as u16,
            scales,
        );
    }
}

// The numbers of lists that passed their checks.
pub(crate) fn gathered(tasks: &[u32], jobs: &[u32]) -> Numbers
    requires { check_lists (lists tasks.now jobs.now) ≡ Done }
    ensures { Gathers (lists tasks.now jobs.now) result }
{
    let mut out = [0u16; 320];
    gather(tasks, jobs, &mut out);
    out
}

// The arrival of job j.
pub(crate) fn arrival_in(g: &Numbers, j: usize) -> u16
    requires { j < 64 }
    ensures { result ≡ arrival_in g.now j }
{
    g[5 * j]
}

// The execution time of job j.
pub(crate) fn execution_in(g: &Numbers, j: usize) -> u16
    requires { j < 64 }
    ensures { result ≡ execution_in g.now j }
{
    g[5 * j + 1]
}

// The zero-slack instant of job j.
pub(crate) fn slack_in(g: &Numbers, j: usize) -> u16
    requires { j < 64 }
    ensures { result ≡ slack_in g.now j }
{
    g[5 * j + 2]
}

// The nominal time C of job j's task.
pub(crate) fn nominal_in(g: &Numbers, j: usize) -> u16
    requires { j < 64 }
    ensures { result ≡ nominal_in g.now j }
{
    g[5 * j + 3]
}

// The number that holds both scales of job j.
fn scales_in(g: &Numbers, j: usize) -> u16
    requires { j < 64 }
    ensures { result ≡ get_or g.now (5 * j + 4) 0 }
{
    g[5 * j + 4]
}

// The criticality of job j.
pub(crate) fn criticality_in(g: &Numbers, j: usize) -> Criticality
    requires { j < 64 }
    ensures { result.0 ≡ criticality_in g.now j }
{
    Criticality((scales_in(g, j) / 64) as u32)
}

// The priority of job j.
pub(crate) fn priority_in(g: &Numbers, j: usize) -> Priority
    requires { j < 64 }
    ensures { result.0 ≡ priority_in g.now j }
{
    Priority((scales_in(g, j) % 64) as u32)
}
