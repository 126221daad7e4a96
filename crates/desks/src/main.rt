// Tries the calls that stand apart from the scheduler, each against a plain count of its own, on random lists, damaged lists and altered ones
// from a fixed seed. It writes for each group how often each call gave each answer; a difference is written with its whole input.
#![tactic(auto)]

mod chains;
mod counts;
mod groups;
mod seasons;
mod spelling;
mod stretches;
mod tally;
mod texts;
mod windows;

use std::io;

fn main(rt: HostRuntime) -> io::Result<()> {
    groups::all(&rt)
}
