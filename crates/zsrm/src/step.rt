// Document 01, one tick from a record to the next: the step and the fresh record.
ghost use Rattle.std.specs.Prelude.{◌≡◌};
ghost use Rattle.zsrm.specs.Given.{given};
ghost use Rattle.zsrm.specs.Answers.{refused_step, check_step, fresh_answer, step_answer};

use crate::answers::{Ran, Stepped, or_blank};
use crate::gather::gathered;
use crate::leap::alive_in;
use crate::look::{choice, ended_in, look, ticked};
use crate::mode::{Mode, is_se};
use crate::record::{Record, check11, check12, fresh_record, is_consistent};
use crate::tie::Tie;
use tables::{Outcome, Refusal, check_lists, job_count};

// A refused step's record is blank, and every other number in it is 0.
fn refused_step(refusal: Refusal) -> Stepped
    ensures { result ≡ refused_step refusal.number refusal.place }
{
    Stepped {
        outcome: Err(refusal),
        record: Record::blank(),
        ready: 0,
        ones: 0,
        entry: 0,
        ended: 0,
    }
}

// What a step checks of its input: 2 to 8, 11, 12.
#[tactic(auto, unfolding(crate::specs::Answers::check_step, tables::specs::Refusals::before))]
fn check_step(rec: Record, mode: Mode, tasks: &[u32], jobs: &[u32]) -> Outcome
    ensures { result ≡ check_step (given mode tasks.now jobs.now) rec }
{
    check_lists(tasks, jobs)?;
    check11(is_consistent(rec, mode, tasks, jobs))?;
    check12(rec.tick)
}

impl Record {
    // The fresh record of the jobs, whatever this one holds; refusals 2 to 8.
    pub fn fresh(self, tasks: &[u32], jobs: &[u32]) -> Ran
        ensures { result ≡ fresh_answer tasks.now jobs.now }
    {
        or_blank(check_lists(tasks, jobs), fresh_record(jobs))
    }

    // The record advanced by one tick, with what the tick did; refusals 2 to 8, 11, 12.
    pub fn step(self, mode: Mode, tie: Tie, tasks: &[u32], jobs: &[u32]) -> Stepped
        ensures { result ≡ step_answer (given mode tasks.now jobs.now) tie self }
    {
        match check_step(self, mode, tasks, jobs) {
            Ok(()) => {
                let g = gathered(tasks, jobs);
                let n = job_count(jobs);
                let seen = look(alive_in(self, 0, n), self.tick, &g);
                let entry = choice(seen, tie, self.previous, n, &g);
                let ended = ended_in(seen, self, is_se(mode), entry, &g);
                let record = self.after(1, ticked(seen, entry, ended, n), 0, n, &g);
                let ones = bits::ones(seen.ready);
                Stepped {
                    outcome: Ok(()),
                    record,
                    ready: seen.ready,
                    ones,
                    entry,
                    ended,
                }
            }
            Err(refusal) => refused_step(refusal),
        }
    }
}
