// Two reports joined row by row, where all of it fits; the empty report; and what a refused call hands back.
ghost use Rattle.std.specs.Prelude.{◌≡◌, ℕ, ◌<◌};
ghost use Rattle.tables.specs.Outcomes.{Refused};
ghost use Rattle.season.specs.Code.{Joinable};
ghost use Rattle.season.specs.Reports.{all_fit, check18, empty_report, joined, row_at, task_rows};

use crate::answers::{Report, Reported, Row};
use tables::refuse;
use zsrm::{Outcome, Refusal};

// How many rows of a report of so many tasks are looked at: at most 16.
pub(crate) fn task_rows(tasks: u32) -> usize
    ensures { result ≡ task_rows tasks }
{
    tasks.min(16) as usize
}

// The report of no runs.
pub(crate) fn empty_report(tasks: u32) -> Report
    ensures { result ≡ empty_report tasks }
{
    Report {
        tasks,
        rows: [Row::default(); 16],
    }
}

// Whether every row that two reports come to fits: as many rows as the first one's tasks, at most 16.
fn all_fit(a: Report, b: Report) -> bool
    ensures { result ≡ all_fit a b }
{
    (0..task_rows(a.tasks)).all(|k| a.rows[k].fits(b.rows[k]))
}

// 18: the number of tasks is another, or a count or a sum would pass 4,294,967,295.
#[tactic(auto, unfolding(crate::specs::Reports::check18))]
pub(crate) fn check18(a: Report, b: Report) -> Outcome
    ensures { result ≡ check18 a b }
{
    let same = a.tasks == b.tasks;
    let fit = all_fit(a, b);
    refuse(!same | !fit, 18, 0)
}

// The joined report, where it fits; the rows that were not looked at are 0.
pub(crate) fn join_reports(a: Report, b: Report) -> Report
    requires { (k : ℕ) → k < task_rows a.tasks → Joinable (row_at a k) (row_at b k) }
    ensures { result ≡ joined a b }
{
    let mut out = empty_report(a.tasks);
    for k in 0..task_rows(a.tasks) {
        out.rows[k] = a.rows[k].join(b.rows[k]);
    }
    out
}

// The answer of a refused call: the report as it was.
pub(crate) fn refused_report(report: Report, refusal: Refusal) -> Reported
    ensures { result ≡ record { outcome = Refused refusal.number refusal.place; report = report } }
{
    Reported {
        outcome: Err(refusal),
        report,
    }
}
