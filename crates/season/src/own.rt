// A run's own report: each of its jobs joined to the row of its task.
ghost use Rattle.std.specs.Prelude.{◌≡◌};
ghost use Rattle.tables.specs.Tables.{lists};
ghost use Rattle.season.specs.Code.{JudgedRun};
ghost use Rattle.season.specs.Own.{job_row, judged_row, own_report, with_response};

use crate::answers::{Report, Row};
use crate::joins::empty_report;
use tables::{job_at, job_count};
use zsrm::{Record, Standing, Verdict, Verdicts};

// One job by its verdict.
fn judged_row(verdict: Verdict) -> Row
    ensures { result ≡ judged_row verdict }
{
    match verdict {
        Verdict::Met => Row {
            met: 1,
            ..Row::default()
        },
        Verdict::Late(_, _) => Row {
            late: 1,
            ..Row::default()
        },
        Verdict::Ended => Row {
            ended: 1,
            ..Row::default()
        },
        Verdict::Open => Row {
            open: 1,
            ..Row::default()
        },
    }
}

// The row of one job with its response, for a finished job only.
fn with_response(row: Row, arrival: u32, standing: Standing) -> Row
    ensures { result ≡ with_response row arrival standing }
{
    match standing {
        // 0 where the instant lies before the arrival, which no consistent record has
        Standing::Finished(instant) => {
            let took = (instant as u32).saturating_sub(arrival);
            Row {
                finished: 1,
                sum: took,
                least: took,
                greatest: took,
                ..row
            }
        }
        Standing::NotArrived | Standing::Unfinished | Standing::Ended(_) => row,
    }
}

// The row of one job.
#[tactic(auto, unfolding(crate::specs::Own::job_row))]
fn job_row(verdict: Verdict, arrival: u32, standing: Standing) -> Row
    ensures { result ≡ job_row verdict arrival standing }
{
    with_response(judged_row(verdict), arrival, standing)
}

// A run's own report, from its record and all verdicts: every job is joined to the row of its task.
pub(crate) fn own_report(run: Record, all: Verdicts, tasks: &[u32], jobs: &[u32]) -> Report
    requires { JudgedRun (lists tasks.now jobs.now) run all }
    ensures { result ≡ own_report (lists tasks.now jobs.now) run }
{
    let mut out = empty_report((tasks.len() / 7) as u32);
    for j in 0..job_count(jobs) {
        let job = job_at(jobs, j as u32);
        // no verdict is refused where lists and record are accepted
        let verdict = all.of[j].unwrap();
        let one = job_row(verdict, job.arrival, run.places[j].standing);
        let k = job.task as usize;
        out.rows[k] = out.rows[k].join(one);
    }
    out
}
