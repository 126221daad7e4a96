// Document 01, "Tables and lists" and the refusals that task tables, job lists, horizons and schedule lengths meet: what every entry point
// that is given such lists checks first, and how their numbers are read. Knows no mode and no record.
#![tactic(auto)]

mod answers;
mod bytes;
mod fields;
mod listed;
mod refusals;

pub use answers::{Outcome, Refusal};
pub use bytes::{job_in, number_at, put_at, task_in};
pub use fields::{
    Criticality, IDLE, Job, Priority, Task, criticality_of, deadline_instant, job_at, job_count,
    nominal_of, priority_of, zero_slack_instant,
};
pub use refusals::{
    check_jobs, check_lists, check_lists_in, check_schedule, check_task, check_tasks,
    check_tasks_in, check9, check10, check13, refuse,
};
