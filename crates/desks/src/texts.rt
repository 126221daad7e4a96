// Numbers read from text, and bytes, words and numbers put into it. A text of digits around the bounds of a number is read at every place,
// and what is read is held to the digits from the last one on; what is put, in less room than it takes, in just its room and in more, is held
// to digits found from the first one on.
use crate::spelling::Spelling;
use crate::tally::{Beside, Call, Desk};
use drawn::answers::Answer;
use drawn::draw::draw;
use drawn::list::{List, front, lent};
use std::{array, io};

// The bytes that are written to.
type Page = [u8; 256];

// A position behind every list.
const FAR: usize = usize::MAX;

const POWERS: [u64; 12] = [
    100000000000,
    10000000000,
    1000000000,
    100000000,
    10000000,
    1000000,
    100000,
    10000,
    1000,
    100,
    10,
    1,
];

// Numbers at the bounds: of 32 bits, of ten digits, of five.
const BOUNDS: [u64; 8] = [
    4294967295,
    4294967296,
    4294967294,
    9999999999,
    10000000000,
    99999,
    100000,
    0,
];

// Bytes that are no digits, two of them the digits' neighbours.
const NO_DIGITS: [u8; 8] = [47, 58, 32, 10, 0, 255, 45, 112];

// A number behind what a text holds, with zeros before it where it has fewer than so many digits.
fn push_digits(text: &mut Spelling, x: u64, fewest: usize) {
    for (i, power) in POWERS.iter().enumerate() {
        if (*power <= x) || (12 <= i + fewest % 16) {
            let digit = x.checked_div(*power).unwrap_or(0) % 10;
            text.push(48 + digit as u8);
        }
    }
}

// A number of any size, every other time at a bound.
fn some_number(seed: u32, from: u32) -> u64 {
    let p = from % 50000;
    if let Some(bound) = BOUNDS.get(draw(seed, p, 16) as usize) {
        return *bound;
    }
    let low = draw(seed, p + 1, 65536) as u64;
    let middle = draw(seed, p + 2, 65536) as u64;
    let high = draw(seed, p + 3, 65536) as u64;
    (low + 65536 * middle + 4294967296 * high) >> (draw(seed, p + 4, 48) % 48)
}

// Four numbers of up to twelve digits, mostly with a byte behind that is no digit; one time in eight none at all.
fn some_text(seed: u32) -> Spelling {
    let mut text = Spelling::new();
    if draw(seed, 100, 8) == 0 {
        return text;
    }
    for k in 0u32..4 {
        let p = 200 + 16 * (k % 4);
        let fewest = 1 + draw(seed, p + 8, 12);
        push_digits(&mut text, some_number(seed, p), fewest as usize);
        if draw(seed, p + 10, 4) != 0 {
            text.push(NO_DIGITS[(draw(seed, p + 9, 8) % 8) as usize]);
        }
    }
    text
}

// A reader of numbers of so many digits.
#[derive(Clone, Copy)]
enum Reader {
    Wide,
    Decimal,
}

impl Reader {
    fn call(self) -> Call {
        match self {
            Reader::Wide => Call::Wide,
            Reader::Decimal => Call::Decimal,
        }
    }

    fn most(self) -> usize {
        match self {
            Reader::Wide => 10,
            Reader::Decimal => 5,
        }
    }

    // The number at a place, and where its digits end.
    fn read(self, text: &[u8], from: usize) -> Option<(u32, usize)> {
        match self {
            Reader::Wide => text::read_wide(text, from),
            Reader::Decimal => text::read(text, from),
        }
    }
}

// The digits at the head of a text, counted from its last byte on: at a byte that is none the count begins again.
fn digits_of(text: &[u8]) -> &[u8] {
    let mut n: usize = 0;
    for byte in text.iter().rev() {
        n = if byte.is_ascii_digit() {
            n.saturating_add(1)
        } else {
            0
        };
    }
    front(text, n)
}

// What digits say, from the last one on; of more than twelve no more is said than that they are too many.
fn value_of(digits: &[u8]) -> u64 {
    let powers = POWERS.iter().rev();
    digits
        .iter()
        .rev()
        .zip(powers)
        .fold(0, |sum, (byte, power)| {
            sum.saturating_add(power.saturating_mul(byte.saturating_sub(48) as u64))
        })
}

// The number at a place, and what stands there beside whether it is a number.
fn try_number(
    desk: &mut Desk<impl Print>,
    reader: Reader,
    text: &[u8],
    from: usize,
) -> io::Result<()> {
    let digits = digits_of(text.get(from..).unwrap_or(&[]));
    let n = digits.len();
    let most = reader.most();
    let value = value_of(digits);
    let good = (0 < n) & (n <= most) & (value <= 4294967295);
    let came = reader.read(text, from);
    let due = if good {
        Some(((value % 4294967296) as u32, from.wrapping_add(n)))
    } else {
        None
    };
    let answer = |number: Option<(u32, usize)>| match number {
        Some(_) => Answer::Done,
        None => Answer::NoNumber,
    };
    let number = (from % 65536) as u32;
    desk.note(
        reader.call(),
        number,
        answer(due),
        answer(came).and_words(came == due),
    )?;
    if good & (n == most) {
        desk.add(reader.call(), Beside::MostDigits, 1);
    }
    if !good & (n == most) {
        desk.add(reader.call(), Beside::Past32Bits, 1);
    }
    if most < n {
        desk.add(reader.call(), Beside::MoreDigits, 1);
    }
    if good && (1 < n) && digits.starts_with(b"0") {
        desk.add(reader.call(), Beside::LeadingZero, 1);
    }
    Ok(())
}

// A text read at each of its places, at its end, behind it, and behind every list.
fn try_reads(desk: &mut Desk<impl Print>, trial: u32) -> io::Result<()> {
    let text = some_text(trial);
    let bytes = text.as_slice();
    for from in (0..bytes.len() + 2).chain([FAR]) {
        try_number(desk, Reader::Wide, bytes, from)?;
        try_number(desk, Reader::Decimal, bytes, from)?;
    }
    Ok(())
}

// What is put.
#[derive(Clone, Copy)]
enum Put {
    Byte(u8),
    Text(Spelling),
    Number(u32),
    Numbers(List),
}

// A number of 32 bits.
fn some_word(seed: u32, k: u32) -> u32 {
    (some_number(seed, 1000 + 16 * (k % 64)) % 4294967296) as u32
}

impl Put {
    // Each of the four in turn.
    fn drawn(turn: u32, seed: u32) -> Put {
        match turn % 4 {
            0 => Put::Byte((draw(seed, 120, 256) % 256) as u8),
            1 => Put::Text(some_text(seed)),
            2 => Put::Number(some_word(seed, 0)),
            _ => {
                let mut numbers = List::new();
                for k in 0..draw(seed, 122, 13) {
                    numbers.push(some_word(seed, k));
                }
                Put::Numbers(numbers)
            }
        }
    }

    fn call(&self) -> Call {
        match self {
            Put::Byte(_) => Call::PutByte,
            Put::Text(_) => Call::PutText,
            Put::Number(_) => Call::PutNumber,
            Put::Numbers(_) => Call::PutNumbers,
        }
    }

    // All the bytes that it takes: a space stands before each of several numbers.
    fn bytes(&self) -> Spelling {
        let mut text = Spelling::new();
        match self {
            Put::Byte(byte) => text.push(*byte),
            Put::Text(bytes) => text.extend(bytes.as_slice()),
            Put::Number(x) => push_digits(&mut text, *x as u64, 1),
            Put::Numbers(numbers) => {
                for x in numbers.as_slice() {
                    text.push(32);
                    push_digits(&mut text, *x as u64, 1);
                }
            }
        }
        text
    }

    // Puts it into a list from a place on: the position after it.
    fn put(&self, out: &mut [u8], from: usize) -> usize {
        match self {
            Put::Byte(byte) => text::put_byte(out, from, *byte),
            Put::Text(bytes) => text::put_text(out, from, bytes.as_slice()),
            Put::Number(x) => text::put_number(out, from, *x),
            Put::Numbers(numbers) => text::put_numbers(out, from, numbers.as_slice()),
        }
    }
}

// A page before a call.
fn kept_page() -> Page {
    array::from_fn(|i| ((i % 256 * 7 + 3) % 256) as u8)
}

// How many bytes are lent for so many from a place on: just enough, one less, one more, all, none from there on, or any number.
fn lent_room(seed: u32, from: u32, n: u32) -> u32 {
    let end = from % 65536 + n % 65536;
    match draw(seed, 130, 6) {
        0 => end,
        1 => end.saturating_sub(1),
        2 => end + 1,
        3 => 256,
        4 => draw(seed, 131, from % 65536 + 1),
        _ => draw(seed, 131, end),
    }
}

// One call of a writer. Of what it puts as many bytes are written as there is room for, and its answer is the position after them.
fn try_put(desk: &mut Desk<impl Print>, what: &Put, seed: u32) -> io::Result<()> {
    let text = what.bytes();
    let bytes = text.as_slice();
    let n = bytes.len();
    let near = draw(seed, 123, 40);
    let far = draw(seed, 124, 12) == 0;
    let from = if far { FAR } else { near as usize };
    let room = (lent_room(seed, near, (n % 256) as u32) % 257) as usize;
    let mut page = kept_page();
    let next = what.put(lent(&mut page, room), from);
    let space = room.saturating_sub(from);
    let written = n.min(space);
    let mut due = kept_page();
    for (byte, new) in due.iter_mut().skip(from).zip(bytes.iter().take(written)) {
        *byte = *new;
    }
    let answer = match written {
        _ if written == n => Answer::Done,
        0 => Answer::NoRoom,
        _ => Answer::Numbered((written % 256) as u32),
    };
    let moved = next == from.wrapping_add(written);
    let came = answer.and_entries(page == due).and_words(moved);
    desk.note(what.call(), (written % 256) as u32, answer, came)?;
    if (0 < n) & (space == n) {
        desk.add(what.call(), Beside::JustRoom, 1);
    }
    Ok(())
}

// A text read, and each of the four writers called four times.
pub(crate) fn try_texts(desk: &mut Desk<impl Print>, trial: u32) -> io::Result<()> {
    try_reads(desk, trial)?;
    for turn in 0u32..16 {
        let seed = 16 * (trial % 100000000) + turn % 16;
        try_put(desk, &Put::drawn(turn, seed), seed)?;
    }
    Ok(())
}
