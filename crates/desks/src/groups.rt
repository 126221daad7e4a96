// The groups of trials: so many inputs of a kind, each numbered, the number being the seed of all that is drawn for it. The odd ones are in SE.
use crate::chains::try_chains;
use crate::seasons::try_seasons;
use crate::stretches::{horizon_of, try_long, try_stretches};
use crate::tally::Desk;
use crate::texts::try_texts;
use crate::windows::try_windows;
use drawn::damage::damaged;
use drawn::draw::draw;
use drawn::inputs::{Input, Size, long, make_input, short};
use drawn::list::Case;
use std::io;
use zsrm::Mode;

#[derive(Clone, Copy)]
enum Group {
    Stretches,
    LongQuestions,
    Windows,
    Seasons,
    Chains,
    Texts,
}

impl Group {
    fn title(self) -> &'static str {
        match self {
            Group::Stretches => "stretches",
            Group::LongQuestions => "long questions",
            Group::Windows => "windows",
            Group::Seasons => "seasons",
            Group::Chains => "chains",
            Group::Texts => "texts",
        }
    }

    fn how_many(self) -> u32 {
        match self {
            Group::LongQuestions => 1,
            Group::Chains => 700,
            _ => 1400,
        }
    }

    // The input of a trial, one time in five damaged.
    fn input(self, trial: u32) -> Input {
        let mode = if trial % 2 == 1 { Mode::SE } else { Mode::S };
        let whole = match self {
            Group::LongQuestions => return make_input(trial, mode, long(trial)),
            Group::Stretches => {
                let horizon = horizon_of(trial);
                Input {
                    horizon,
                    room: horizon as usize,
                    ..make_input(trial, mode, some_size(trial))
                }
            }
            Group::Windows => make_input(trial, mode, size_for_windows(trial)),
            _ => make_input(trial, mode, some_size(trial)),
        };
        if draw(trial, 75, 5) == 0 {
            damaged(whole, trial, 20000)
        } else {
            whole
        }
    }
}

// Mostly a few tasks and jobs, one time in twenty as many as are allowed.
fn some_size(trial: u32) -> Size {
    short(trial, draw(trial, 73, 20) == 0)
}

// Windows are to be many and wide: every other time 1 or 2 tasks and up to 64 jobs.
fn size_for_windows(trial: u32) -> Size {
    let mut size = some_size(trial);
    if draw(trial, 72, 2) == 0 {
        size.tasks = 1 + draw(trial, 8, 2);
        size.jobs = draw(trial, 9, 65);
    }
    size
}

// One input tried; what made a difference is written with it. Where more entries would be lent than the longest schedule has, none is.
fn try_input(desk: &mut Desk<impl Print>, group: Group, trial: u32) -> io::Result<()> {
    let input = group.input(trial);
    let mut case = input.case(trial);
    case.room = input.room % 16385;
    let before = desk.tally.differences;
    desk.tally.begin();
    match group {
        Group::Stretches => try_stretches(desk, case)?,
        Group::LongQuestions => try_long(desk, case)?,
        Group::Windows => try_windows(desk, case)?,
        Group::Seasons => try_seasons(desk, trial, case.tasks)?,
        Group::Chains => try_chains(desk, trial)?,
        Group::Texts => try_texts(desk, trial)?,
    }
    if before < desk.tally.differences {
        desk.print_input(case)?;
    }
    Ok(())
}

// Every group, each trial with a number of its own, and the sum of them all.
pub(crate) fn all(rt: &impl Print) -> io::Result<()> {
    let mut sum = Desk::new(rt);
    for group in [
        Group::Stretches,
        Group::LongQuestions,
        Group::Windows,
        Group::Seasons,
        Group::Chains,
        Group::Texts,
    ] {
        let mut desk = Desk::new(rt);
        let first = 10000000 + 200000 * (group as u32);
        for i in 0..group.how_many() {
            try_input(&mut desk, group, first.wrapping_add(i))?;
        }
        desk.report(group.title())?;
        sum.tally.add_totals(&desk.tally);
    }
    sum.report("all")
}
