// What a program of trials counts and writes. Every answer is counted under its call, so what is counted nowhere was not tried; what made a
// difference is written with all that it takes to repeat the call.
use crate::answers::Answer;
use crate::list::Case;
use std::{fmt, io};
use zsrm::Tie;

// A call, by its number: they are numbered from 1, as a report lists them.
pub trait Call {
    fn number(self) -> usize;
}

// How often a call was made, how often each answer was due, in the order in which a report names them, with what is counted beside them
// behind them, and how often each refusal, by its number.
#[derive(Clone, Copy)]
struct Counts {
    made: u32,
    answers: [u32; 16],
    refusals: [u32; 32],
}

// How many inputs were tried, how many calls were compared and how many differed, and the counts of each call.
#[derive(Clone, Copy)]
pub struct Tally {
    pub inputs: u32,
    pub calls: u32,
    pub differences: u32,
    of: [Counts; 32],
}

// The place of an answer among the counts of its call: what is told with a number is the second, what is late the fourth and fifth, what is
// outside the sixth. What is wrong is never due.
fn place_of(answer: Answer) -> usize {
    match answer {
        Answer::Ended | Answer::NoNumber | Answer::Numbered(_) => 1,
        Answer::Open | Answer::AcceptedEnded | Answer::NoRoom => 2,
        Answer::Late { exact: false, .. } => 3,
        Answer::Late { exact: true, .. } => 4,
        Answer::Outside(_) => 5,
        _ => 0,
    }
}

impl Tally {
    pub fn new() -> Tally {
        let counts = Counts {
            made: 0,
            answers: [0; 16],
            refusals: [0; 32],
        };
        Tally {
            inputs: 0,
            calls: 0,
            differences: 0,
            of: [counts; 32],
        }
    }

    // One more input.
    pub fn begin(&mut self) {
        self.inputs = self.inputs.wrapping_add(1);
    }

    // So many more at a place among the counts of a call.
    pub fn add<C: Call>(&mut self, (call, place): (C, usize), by: u32) {
        let call = call.number() % 32;
        let place = place % 16;
        self.of[call].answers[place] = self.of[call].answers[place].wrapping_add(by);
    }

    // The inputs, calls and differences of another, added.
    pub fn add_totals(&mut self, other: &Tally) {
        self.inputs = self.inputs.wrapping_add(other.inputs);
        self.calls = self.calls.wrapping_add(other.calls);
        self.differences = self.differences.wrapping_add(other.differences);
    }

    fn count(&mut self, call: usize, answer: Answer) {
        let counts = &mut self.of[call % 32];
        counts.made = counts.made.wrapping_add(1);
        if let Answer::Refused { number, .. } = answer {
            let i = (number % 32) as usize;
            counts.refusals[i] = counts.refusals[i].wrapping_add(1);
        } else {
            let i = place_of(answer) % 16;
            counts.answers[i] = counts.answers[i].wrapping_add(1);
        }
    }

    // A call was compared: what it names, a job, a tick, or how many parts or entries, what was due, and what came.
    pub fn note(
        &mut self,
        rt: &impl Print,
        call: impl Call,
        number: u32,
        due: Answer,
        came: Answer,
    ) -> io::Result<()> {
        let call = call.number();
        self.calls = self.calls.wrapping_add(1);
        self.count(call, due);
        if due != came {
            self.differences = self.differences.wrapping_add(1);
            print!(rt; "difference: call {call}, number {number}")?;
            println!(rt; ": expected {due}, got {came}")?;
        }
        Ok(())
    }

    // What the words name, so many counts, and the refusals that came; nothing of a call that was not made.
    pub fn line(&self, rt: &impl Print, words: &str, call: impl Call, n: usize) -> io::Result<()> {
        let counts = self.of[call.number() % 32];
        if counts.made == 0 {
            return Ok(());
        }
        print!(rt; "{words}")?;
        for times in counts.answers.iter().take(n) {
            print!(rt; " {times}")?;
        }
        for (number, times) in counts.refusals.iter().enumerate() {
            if 0 < *times {
                print!(rt; "; refused {number}: {times}")?;
            }
        }
        println!(rt)
    }

    // The inputs, calls and differences that were counted.
    pub fn totals(&self, rt: &impl Print) -> io::Result<()> {
        let inputs = self.inputs;
        let calls = self.calls;
        let differences = self.differences;
        println!(rt; ": inputs {inputs}, calls {calls}, differences {differences}")
    }
}

pub fn numbers<T: fmt::Display>(rt: &impl Print, name: &str, list: &[T]) -> io::Result<()> {
    print!(rt; "{name}")?;
    for x in list {
        print!(rt; " {x}")?;
    }
    println!(rt)
}

pub fn print_input(rt: &impl Print, case: Case) -> io::Result<()> {
    let tie = match case.tie {
        Tie::Lowest => 0,
        Tie::Stay => 1,
    };
    let trial = case.trial;
    let horizon = case.horizon;
    let room = case.room;
    println!(rt; "  in trial {trial}, horizon {horizon}, entries {room}, tie {tie}")?;
    numbers(rt, "  tasks", case.tasks)?;
    numbers(rt, "  jobs", case.jobs)
}
