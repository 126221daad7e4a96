// The groups of trials: so many inputs of a kind in a mode, each numbered, the number being the seed of all that is drawn for it.
use crate::altered::altered;
use crate::claims::try_claims;
use crate::day::{a_day, try_day};
use crate::evening::try_evening;
use crate::others::try_others;
use crate::parts::{try_any, try_parts};
use crate::replays::{to_replay, try_replays};
use crate::runs::{count_ticks, try_fresh, try_run, try_step, try_steps, try_verdicts};
use crate::tally::report;
use drawn::damage::damaged;
use drawn::inputs::{Input, long, make_input, short};
use drawn::judge::{schedule_fault, ticks_of};
use drawn::list::{Case, no_line};
use drawn::tally::{Tally, print_input};
use std::{fmt, io};
use zsrm::Mode;

// The kinds of trials.
#[derive(Clone, Copy, PartialEq, Eq)]
enum Group {
    Small,
    Large,
    Long,
    Damaged,
    TwiceDamaged,
    Altered,
    AlteredAllOver,
    Planter,
    Evening,
    Others,
    Replays,
}

const GROUPS: [Group; 11] = [
    Group::Small,
    Group::Large,
    Group::Long,
    Group::Damaged,
    Group::TwiceDamaged,
    Group::Altered,
    Group::AlteredAllOver,
    Group::Planter,
    Group::Evening,
    Group::Others,
    Group::Replays,
];

impl fmt::Display for Group {
    fn fmt<W: fmt::Write>(&self, f: &mut fmt::Formatter<W>) -> fmt::Result {
        f.write_str(match self {
            Group::Small => "small",
            Group::Large => "large",
            Group::Long => "long",
            Group::Damaged => "damaged",
            Group::TwiceDamaged => "twice damaged",
            Group::Altered => "altered records",
            Group::AlteredAllOver => "records altered all over",
            Group::Planter => "days of the planter",
            Group::Evening => "evenings",
            Group::Others => "other people's jobs",
            Group::Replays => "replays",
        })
    }
}

// How many trials of a kind there are: in SE half as many more as in S.
fn how_many(kind: Group, mode: Mode) -> u32 {
    let n = match kind {
        Group::Small => 1000,
        Group::Large => 20,
        Group::Long => 3,
        _ => 700,
    };
    match mode {
        Mode::S => n,
        Mode::SE => n + n / 2,
    }
}

fn input_of(kind: Group, trial: u32, mode: Mode) -> Input {
    let size = match kind {
        Group::Long => long(trial),
        _ => short(trial, kind == Group::Large),
    };
    match kind {
        Group::Planter => a_day(trial, mode),
        Group::Replays => to_replay(trial, mode),
        Group::Damaged => damaged(make_input(trial, mode, size), trial, 20000),
        Group::TwiceDamaged => {
            let once = damaged(make_input(trial, mode, size), trial, 20000);
            damaged(once, trial, 30000)
        }
        _ => make_input(trial, mode, size),
    }
}

// One input through every public function: run, fresh, step, go_on, verdict, verdicts, claim, witness, response, mend.
fn try_input(rt: &impl Print, t: &mut Tally, case: Case, between: usize) -> io::Result<()> {
    let fault = schedule_fault(case.tasks, case.jobs, case.horizon, case.room);
    let ticks = ticks_of(fault, case.horizon);
    let mut own = no_line();
    let rec = try_run(rt, t, case, fault, &mut own)?;
    let fresh = try_fresh(rt, t, case, rec)?;
    try_steps(rt, t, case, fresh, ticks)?;
    try_step(rt, t, case, rec)?;
    try_verdicts(rt, t, case, rec)?;
    try_any(rt, t, case, rec)?;
    if fault.is_none() {
        count_ticks(t, &own, ticks);
        try_parts(rt, t, case, fresh, rec, &own, ticks)?;
    }
    try_claims(rt, t, case, &own, ticks, between)
}

// The record of a run, altered: a step, some ticks and the verdicts from it.
fn try_altered(rt: &impl Print, t: &mut Tally, case: Case, many: bool) -> io::Result<()> {
    let fault = schedule_fault(case.tasks, case.jobs, case.horizon, case.room);
    let mut own = no_line();
    let ran = try_run(rt, t, case, fault, &mut own)?;
    let rec = altered(ran, case, many);
    try_step(rt, t, case, rec)?;
    try_any(rt, t, case, rec)?;
    try_verdicts(rt, t, case, rec)
}

// A trial of a kind. What made a difference is written with its input.
fn try_case(rt: &impl Print, t: &mut Tally, kind: Group, case: Case) -> io::Result<()> {
    let before = t.differences;
    t.begin();
    match kind {
        Group::Altered => try_altered(rt, t, case, false)?,
        Group::AlteredAllOver => try_altered(rt, t, case, true)?,
        Group::Planter => try_day(rt, t, case)?,
        Group::Evening => try_evening(rt, t, case)?,
        Group::Others => try_others(rt, t, case)?,
        Group::Replays => try_replays(rt, t, case)?,
        Group::Long => try_input(rt, t, case, 24)?,
        Group::Small | Group::Large | Group::Damaged | Group::TwiceDamaged => {
            try_input(rt, t, case, case.jobs.len() / 48 * 2)?;
        }
    }
    if before < t.differences {
        print_input(rt, case)?;
    }
    Ok(())
}

// A group, each trial with a number of its own, counted by itself and into the sum of all.
fn try_group(rt: &impl Print, sum: &mut Tally, kind: Group, mode: Mode) -> io::Result<()> {
    let mut t = Tally::new();
    let even = 200000 * (kind as u32);
    let (first, name) = match mode {
        Mode::S => (even, "S"),
        Mode::SE => (even + 100000, "SE"),
    };
    for trial in first..first.wrapping_add(how_many(kind, mode)) {
        let inp = input_of(kind, trial, mode);
        try_case(rt, &mut t, kind, inp.case(trial))?;
    }
    print!(rt; "{kind} {name}")?;
    report(rt, &t)?;
    sum.add_totals(&t);
    Ok(())
}

// Every group in both modes, and the sum of them all.
pub(crate) fn all(rt: &impl Print) -> io::Result<()> {
    let mut sum = Tally::new();
    for kind in GROUPS {
        try_group(rt, &mut sum, kind, Mode::S)?;
        try_group(rt, &mut sum, kind, Mode::SE)?;
    }
    print!(rt; "all")?;
    report(rt, &sum)
}
