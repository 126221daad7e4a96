// The jobs of one task, gathered in one pass over the list.
ghost use Rattle.std.specs.Prelude.{[], map, ◌≡◌, ◌≤◌};
ghost use Rattle.tables.specs.Tables.{job_count};
ghost use Rattle.zsrm.specs.Answers.{verdict_of};
ghost use Rattle.zsrm.specs.Verdict.{is_open, missed, verdict_is};
ghost use Rattle.window.specs.Windows.{activations};
ghost use Rattle.window.specs.Code.{GatheredAs, RoomForJob, with_job};

use tables::{job_at, job_count};
use zsrm::{Refusal, Verdict, Verdicts};

// Fixed memory: how many jobs there are, the number in the list of each, how many of the first i missed, and how many are open.
#[derive(Clone, Copy, Debug, PartialEq, Eq)]
pub(crate) struct Gathered {
    pub count: usize,
    pub numbers: [u32; 64],
    pub missed: [u32; 65],
    pub opens: u32,
}

// Missed means late or ended; a refusal is neither, and not open.
fn is_missed(verdict: Result<Verdict, Refusal>) -> bool
    ensures { result ≡ verdict_is missed verdict }
{
    verdict.is_ok_and(|own| own.is_missed())
}

// An open job counts as not missed.
fn is_open(verdict: Result<Verdict, Refusal>) -> bool
    ensures { result ≡ verdict_is is_open verdict }
{
    matches!(verdict, Ok(Verdict::Open))
}

impl Gathered {
    // No job.
    #[tactic(auto, using(crate::proofs::Laws::Gathered::gathered_none))]
    fn none() -> Gathered
        ensures { GatheredAs [] [] result }
    {
        Gathered {
            count: 0,
            numbers: [0u32; 64],
            missed: [0u32; 65],
            opens: 0,
        }
    }

    // One job more.
    fn push(&mut self, j: u32, verdict: Result<Verdict, Refusal>)
        requires { RoomForJob self.old }
        ensures { self.new ≡ with_job self.old j verdict }
    {
        let n = self.count;
        self.numbers[n] = j;
        self.missed[n + 1] = self.missed[n] + u32::from(is_missed(verdict));
        self.opens += u32::from(is_open(verdict));
        self.count += 1;
    }
}

// The task's jobs, with their verdicts.
pub(crate) fn gather(all: Verdicts, jobs: &[u32], task: u32) -> Gathered
    requires { job_count jobs.now ≤ 64 }
    ensures { GatheredAs (activations jobs.now task) (map (verdict_of all) (activations jobs.now task)) result }
{
    let mut own = Gathered::none();
    for j in 0..job_count(jobs) {
        let job = job_at(jobs, j as u32);
        if job.task == task {
            own.push(j as u32, all.of[j]);
        }
    }
    own
}
