// Tries the library against a simulator of another kind, on random lists, damaged lists and altered records from a fixed seed. It writes
// for each group how often each call gave each answer; a difference is written with its whole input.
#![tactic(auto)]

mod altered;
mod claims;
mod day;
mod evening;
mod flight;
mod groups;
mod leap;
mod lines;
mod mends;
mod others;
mod parts;
mod records;
mod replays;
mod runs;
mod tally;

use std::io;

fn main(rt: HostRuntime) -> io::Result<()> {
    groups::all(&rt)
}
