// A season report: per task how many jobs were met, late, ended and open, and the responses of those that finished. It goes in by value and
// comes back; callers keep it where they like, so a call has an answer for any report.
ghost use Rattle.std.specs.Prelude.{◌≡◌};
ghost use Rattle.zsrm.specs.Given.{given};
ghost use Rattle.season.specs.Answers.{add_answer, empty_answer, join_answer};

use crate::answers::{Report, Reported};
use crate::joins::{check18, empty_report, join_reports, refused_report};
use crate::own::own_report;
use tables::check_tasks;
use zsrm::{Mode, Record, verdicts};

impl Report {
    // The report of no runs of a table; refusals 2 to 4, the report then being all 0.
    pub fn empty(tasks: &[u32]) -> Reported
        ensures { result ≡ empty_answer tasks.now }
    {
        match check_tasks(tasks) {
            Ok(()) => Reported {
                outcome: Ok(()),
                report: empty_report((tasks.len() / 7) as u32),
            },
            Err(refusal) => refused_report(empty_report(0), refusal),
        }
    }

    // Two reports as one over all runs of both; refusal 18.
    pub fn join(self, other: Report) -> Reported
        ensures { result ≡ join_answer self other }
    {
        match check18(self, other) {
            Ok(()) => Reported {
                outcome: Ok(()),
                report: join_reports(self, other),
            },
            Err(eighteen) => refused_report(self, eighteen),
        }
    }

    // The report with one more run of the table, from the record that the run returned; refusals 2 to 8, 11, 18.
    pub fn add(self, run: Record, mode: Mode, tasks: &[u32], jobs: &[u32]) -> Reported
        ensures { result ≡ add_answer self (given mode tasks.now jobs.now) run }
    {
        let all = verdicts(run, mode, tasks, jobs);
        match all.outcome {
            Ok(()) => self.join(own_report(run, all, tasks, jobs)),
            Err(refusal) => refused_report(self, refusal),
        }
    }
}
