// Numbers as bytes, the lowest byte first; tasks and jobs that lie in bytes, four for each number.
ghost use Rattle.std.specs.Prelude.{◌≡◌, ◌+◌, ◌*◌, ◌<◌, ◌≤◌, get_or, length};
ghost use Rattle.tables.specs.Bytes.{number_at, numbers_in, put_at};
ghost use Rattle.tables.specs.Fields.{task_at, job_at};

use crate::fields::{Criticality, Job, Priority, Task};

// The byte at place i, or 0 past the end.
fn byte_at(bytes: &[u8], i: usize) -> u8
    ensures { result ≡ get_or bytes.now i 0 }
{
    bytes.get(i).copied().unwrap_or(0)
}

// The number of four bytes that begins at byte `at`, bytes past the end being 0.
pub fn number_at(bytes: &[u8], at: usize) -> u32
    ensures { result ≡ number_at 4 bytes.now at }
{
    if bytes.len() <= at {
        return 0;
    }
    u32::from_le_bytes([
        byte_at(bytes, at),
        byte_at(bytes, at + 1),
        byte_at(bytes, at + 2),
        byte_at(bytes, at + 3),
    ])
}

// A number written as four bytes from byte `at` on, the lowest first; where they do not fit, nothing is written.
pub fn put_at(bytes: &mut [u8], at: usize, number: u32)
    ensures { bytes.new ≡ put_at 4 bytes.old at number }
{
    if bytes.len() <= at {
        return;
    }
    if bytes.len() - at < 4 {
        return;
    }
    bytes[at..at + 4].copy_from_slice(&number.to_le_bytes());
}

// The number at place i of those that the bytes spell, or 0 past the last whole one.
fn number_in(bytes: &[u8], i: usize) -> u32
    ensures { result ≡ get_or (numbers_in 4 bytes.now) i 0 }
{
    if i < bytes.len() / 4 {
        number_at(bytes, i * 4)
    } else {
        0
    }
}

// The number of four bytes that begins at byte `at`, where all four are there.
fn whole_number(bytes: &[u8], at: usize) -> u32
    requires { at + 4 ≤ length bytes.now }
    ensures { result ≡ number_at 4 bytes.now at }
{
    u32::from_le_bytes([bytes[at], bytes[at + 1], bytes[at + 2], bytes[at + 3]])
}

// The fields of task k, where all its bytes are there.
fn whole_task(bytes: &[u8], k: u32) -> Task
    requires { 28 * k + 28 ≤ length bytes.now }
    ensures { result ≡ task_at (numbers_in 4 bytes.now) k }
{
    let first = 28 * (k as usize);
    Task {
        period: whole_number(bytes, first),
        deadline: whole_number(bytes, first + 4),
        nominal: whole_number(bytes, first + 8),
        overload: whole_number(bytes, first + 12),
        criticality: Criticality(whole_number(bytes, first + 16)),
        priority: Priority(whole_number(bytes, first + 20)),
        offset: whole_number(bytes, first + 24),
    }
}

// The fields of task k of a table that lies in bytes, 0 past the end.
pub fn task_in(bytes: &[u8], k: u32) -> Task
    ensures { result ≡ task_at (numbers_in 4 bytes.now) k }
{
    if (k as usize) < bytes.len() / 28 {
        return whole_task(bytes, k);
    }
    let first = 7 * (k as usize);
    Task {
        period: number_in(bytes, first),
        deadline: number_in(bytes, first + 1),
        nominal: number_in(bytes, first + 2),
        overload: number_in(bytes, first + 3),
        criticality: Criticality(number_in(bytes, first + 4)),
        priority: Priority(number_in(bytes, first + 5)),
        offset: number_in(bytes, first + 6),
    }
}

// The fields of job j, where all its bytes are there.
fn whole_job(bytes: &[u8], j: u32) -> Job
    requires { 12 * j + 12 ≤ length bytes.now }
    ensures { result ≡ job_at (numbers_in 4 bytes.now) j }
{
    let first = 12 * (j as usize);
    Job {
        task: whole_number(bytes, first),
        arrival: whole_number(bytes, first + 4),
        execution: whole_number(bytes, first + 8),
    }
}

// The fields of job j of a list that lies in bytes, 0 past the end.
pub fn job_in(bytes: &[u8], j: u32) -> Job
    ensures { result ≡ job_at (numbers_in 4 bytes.now) j }
{
    if (j as usize) < bytes.len() / 12 {
        return whole_job(bytes, j);
    }
    let first = 3 * (j as usize);
    Job {
        task: number_in(bytes, first),
        arrival: number_in(bytes, first + 1),
        execution: number_in(bytes, first + 2),
    }
}
