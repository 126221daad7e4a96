// A season report, and what the calls on it answer.
use zsrm::Outcome;

// The numbers of one task. A response is a finishing instant minus the job's arrival.
#[derive(Clone, Copy, Debug, Default, PartialEq, Eq)]
pub struct Row {
    pub met: u32,
    pub late: u32,
    pub ended: u32,
    pub open: u32,
    // how many jobs finished, and the sum of their responses
    pub finished: u32,
    pub sum: u32,
    // of their responses; these mean nothing where no job finished. No `Option`, as a report may hold any numbers, stale ones too
    pub least: u32,
    pub greatest: u32,
}

// The rows by the numbers of their tasks; those from min(tasks, 16) on are not looked at. An array with its count beside it: fixed memory.
#[derive(Clone, Copy, Debug, PartialEq, Eq)]
pub struct Report {
    pub tasks: u32,
    pub rows: [Row; 16],
}

// The answer of each call; a refused one hands back the report as it was, which is promised (`reported`), so the outcome stands beside it.
#[derive(Clone, Copy, Debug, PartialEq, Eq)]
pub struct Reported {
    pub outcome: Outcome,
    pub report: Report,
}

// The mean response: a whole quotient, a remainder and the count of finished jobs.
#[derive(Clone, Copy, Debug, PartialEq, Eq)]
pub struct Mean {
    pub quotient: u32,
    pub remainder: u32,
    pub count: u32,
}

// The least and the greatest response.
#[derive(Clone, Copy, Debug, PartialEq, Eq)]
pub struct Extremes {
    pub least: u32,
    pub greatest: u32,
}
