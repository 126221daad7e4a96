// Pseudo-random numbers from a fixed seed. They have no state: the number drawn at a place of a trial is a function of both, so that
// what one part of a trial draws shifts nothing in another.
ghost use Rattle.std.specs.Prelude.{◌<◌};

use zsrm::Tie;

// A sum that carries makes the shifts more than linear, so that near places give unlike numbers.
fn stir(x: u64) -> u64 {
    let a = x.wrapping_add(11400714819323198485);
    let b = a ^ (a >> 30);
    let c = b.wrapping_add(b << 13);
    let d = c ^ (c >> 27);
    let e = d.wrapping_add(d << 17);
    e ^ (e >> 31)
}

// A number below the bound, and 0 where the bound is 0; below 65,536 whatever the bound.
pub fn draw(trial: u32, place: u32, below: u32) -> u32
    ensures { result < 65536 }
{
    if below == 0 {
        return 0;
    }
    let x = stir(stir((trial as u64) * 4294967296 + (place as u64)));
    ((x % 65536) as u32) % below
}

// One of the two ways to choose among equals.
pub fn draw_tie(trial: u32, place: u32) -> Tie {
    match draw(trial, place, 2) {
        0 => Tie::Lowest,
        _ => Tie::Stay,
    }
}
