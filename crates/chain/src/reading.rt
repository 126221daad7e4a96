// Reading a table at its trailer's place, and at the last 16 bytes.
ghost use Rattle.std.specs.Prelude.{◌≡◌, Some};
ghost use Rattle.chain.specs.Answers.{nothing, passed_by, read_table, read_trailer, read_at, read_answer, last_answer};

use crate::answers::Read;
use crate::layout::{Layout, known_to, numbers_of};
use crate::table::{check_table, decode, zeros};
use crate::trailer::{NONE, Trailer, check_trailer, trailer_at};
use tables::Refusal;

// Nothing is told of the trailer, and there is none to go on to.
#[tactic(auto, unfolding(crate::specs::Answers::nothing))]
fn nothing(number: u32, place: u32) -> Read
    ensures { result ≡ nothing number place }
{
    let fields = zeros();
    Read {
        outcome: Err(Refusal { number, place }),
        layout: 0,
        before: NONE,
        count: 0,
        fields,
    }
}

// No fields, but the trailer to go on to.
#[tactic(auto, unfolding(crate::specs::Answers::passed_by))]
fn passed_by(trailer: Trailer, number: u32, place: u32) -> Read
    ensures { result ≡ passed_by trailer number place }
{
    let fields = zeros();
    Read {
        outcome: Err(Refusal { number, place }),
        layout: trailer.layout,
        before: trailer.before,
        count: 0,
        fields,
    }
}

// The table of a trailer in a layout the reader knows, or 2 to 4.
fn read_table(layout: Layout, file: &[u8], trailer: Trailer) -> Read
    ensures { result ≡ read_table (Some layout) file.now trailer }
{
    let count = trailer.count;
    if 16 < count {
        return passed_by(trailer, 2, 0);
    }
    let n = numbers_of(layout, count) as usize;
    let fields = decode(file, trailer.start, n);
    match check_table(layout, &fields[..n]) {
        Ok(()) => Read {
            outcome: Ok(()),
            layout: trailer.layout,
            before: trailer.before,
            count,
            fields,
        },
        Err(refusal) => passed_by(trailer, refusal.number, refusal.place),
    }
}

// What is read of a trailer whose places keep the rules: 23, or its table.
fn read_trailer(reader: Layout, file: &[u8], trailer: Trailer) -> Read
    ensures { result ≡ read_trailer reader file.now trailer }
{
    let Some(own) = known_to(reader, trailer.layout) else {
        return passed_by(trailer, 23, trailer.layout);
    };
    read_table(own, file, trailer)
}

// What is read of the trailer at a place: 21 and 22 first.
fn read_at(reader: Layout, file: &[u8], used: usize, at: usize) -> Read
    ensures { result ≡ read_at reader file.now used at }
{
    match check_trailer(reader, file, used, at) {
        Ok(()) => read_trailer(reader, file, trailer_at(file, at)),
        Err(refusal) => nothing(refusal.number, refusal.place),
    }
}

// What is read at a place: of the trailer whose first byte it is, as `before` has it. `NONE` means that there is none: 21.
pub fn read(reader: Layout, file: &[u8], used: usize, at: usize) -> Read
    ensures { result ≡ read_answer reader file.now used at }
{
    if at == (NONE as usize) {
        return nothing(21, 0);
    }
    read_at(reader, file, used, at)
}

// What is read of the trailer in the last 16 bytes, wherever it lies; 21 where there are fewer.
pub fn last(reader: Layout, file: &[u8], used: usize) -> Read
    ensures { result ≡ last_answer reader file.now used }
{
    if used < 16 {
        return nothing(21, 0);
    }
    read_at(reader, file, used, used - 16)
}
