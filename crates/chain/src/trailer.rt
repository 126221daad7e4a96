// The 16 bytes behind a table, and the two checks of where they say that things lie: 21 and 22. Places are compared in 64 bits, so that no
// sum wraps whatever the bytes say.
ghost use Rattle.std.specs.Prelude.{◌≡◌, ◌+◌, ◌≤◌, length};
ghost use Rattle.chain.specs.Trailer.{trailer_at, end_of, last_place, misfits};
ghost use Rattle.chain.specs.Refusals.{check21, check22, check_trailer};

use crate::layout::{Layout, known_to, numbers_of};
use tables::{Outcome, number_at, refuse};

// The place of the preceding trailer where there is none: a number and no `Option`, as a file holds it and `read` takes it.
pub const NONE: u32 = 4294967295;

// What a trailer says, each a number of four bytes.
#[derive(Clone, Copy, Debug, PartialEq, Eq)]
pub(crate) struct Trailer {
    // the byte place at which its table starts
    pub start: u32,
    // the byte place of the preceding trailer
    pub before: u32,
    pub layout: u32,
    pub count: u32,
}

// The trailer at a place.
#[tactic(auto, unfolding(crate::specs::Trailer::trailer_at))]
pub(crate) fn trailer_at(file: &[u8], at: usize) -> Trailer
    requires { at + 16 ≤ length file.now }
    ensures { result ≡ trailer_at file.now at }
{
    Trailer {
        start: number_at(file, at),
        before: number_at(file, at + 4),
        layout: number_at(file, at + 8),
        count: number_at(file, at + 12),
    }
}

// Where the preceding trailer ends, byte 0 if there is none.
fn end_of(before: u32) -> u64
    ensures { result ≡ end_of before }
{
    if before == NONE {
        0
    } else {
        (before as u64) + 16
    }
}

// In a layout the reader knows, the table's numbers do not fill exactly the bytes up to the trailer.
#[tactic(auto, unfolding(crate::specs::Trailer::misfits))]
fn misfits(layout: Option<Layout>, trailer: Trailer, at: usize) -> bool
    ensures { result ≡ misfits layout trailer at }
{
    match layout {
        Some(own) => {
            let bytes = numbers_of(own, trailer.count) * 4;
            (trailer.start as u64) + bytes != (at as u64)
        }
        None => false,
    }
}

// 21: a used length past the list, or no whole trailer at the place.
fn check21(bytes: usize, used: usize, at: usize) -> Outcome
    ensures { result ≡ check21 bytes used at }
{
    refuse(used < 16, 21, 0)?;
    refuse((bytes < used) | (used - 16 < at), 21, 0)
}

// 22: a place that breaks the rules.
#[tactic(auto, unfolding(crate::specs::Refusals::check22))]
fn check22(reader: Layout, trailer: Trailer, at: usize) -> Outcome
    ensures { result ≡ check22 reader trailer at }
{
    let early = (trailer.start as u64) < end_of(trailer.before);
    let late = (at as u64) < (trailer.start as u64);
    let layout = known_to(reader, trailer.layout);
    refuse(early | late | misfits(layout, trailer, at), 22, 0)
}

// 21, then 22.
#[tactic(auto, unfolding(crate::specs::Refusals::check_trailer, tables::specs::Refusals::before))]
pub(crate) fn check_trailer(reader: Layout, file: &[u8], used: usize, at: usize) -> Outcome
    ensures { result ≡ check_trailer reader file.now used at }
{
    check21(file.len(), used, at)?;
    check22(reader, trailer_at(file, at), at)
}

// The place of the last trailer, none where no byte is used.
pub(crate) fn last_place(used: usize) -> usize
    ensures { result ≡ last_place used }
{
    if used == 0 {
        NONE as usize
    } else {
        used.saturating_sub(16)
    }
}
