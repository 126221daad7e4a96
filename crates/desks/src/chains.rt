// Task tables in one file: chains of random appends, against a writer of its own, and what both readers are told of them, against the list of
// what was taken; the same files with any bytes, trailers made up and single bytes changed, at odd places and used lengths, against a rule of
// its own.
use crate::tally::{Call, Desk};
use chain::{Layout, NONE, Read};
use drawn::answers::Answer;
use drawn::damage::{wrong_length, wrong_task};
use drawn::draw::draw;
use drawn::inputs::{make_input, short};
use drawn::judge::{Fault, refusal, rule, tasks_fault};
use drawn::list::{List, at, front, lent};
use std::{array, io};
use zsrm::{Mode, Refusal};

// The bytes that a file is made in: often too few for the tables of a trial.
type Book = [u8; 2048];

// A file: its bytes and its used length.
#[derive(Clone, Copy)]
struct File {
    bytes: Book,
    used: usize,
}

// A table that was taken: its number in the trial, and the used length behind it.
#[derive(Clone, Copy)]
struct Taken {
    k: u32,
    end: u32,
}

// The tables that were taken: at most one every third turn, in fixed memory.
#[derive(Clone, Copy)]
struct Log {
    taken: [Taken; 10],
    len: usize,
}

impl Log {
    fn new() -> Log {
        Log {
            taken: [Taken { k: 0, end: 0 }; 10],
            len: 0,
        }
    }

    fn push(&mut self, taken: Taken) {
        let n = self.len;
        if n < 10 {
            self.taken[n] = taken;
            self.len = n + 1;
        }
    }

    fn as_slice(&self) -> &[Taken] {
        front(&self.taken, self.len)
    }
}

// A table in a layout, of so many tasks: all its numbers, and its tasks' seven without labels, none where its length is wrong.
#[derive(Clone, Copy)]
struct Table {
    layout: Layout,
    tasks: u32,
    numbers: List,
    sevens: List,
}

// What a reader is told at a place: its answer, and of the trailer there the layout's number, where the preceding one stands, and the
// table's tasks and numbers.
#[derive(Clone, Copy)]
struct Told {
    answer: Answer,
    layout: u32,
    before: Option<u32>,
    count: u32,
    fields: [u32; 128],
}

// The numbers of a trailer.
#[derive(Clone, Copy)]
struct Trailer {
    start: u32,
    before: u32,
    layout: u32,
    count: u32,
}

// A change of a file: one byte is another, a trailer of these numbers stands at a place, or all bytes are others.
#[derive(Clone, Copy)]
enum Change {
    Byte(usize),
    Trailer(usize, [u32; 4]),
    All,
}

fn number_of(layout: Layout) -> u32 {
    match layout {
        Layout::One => 1,
        Layout::Two => 2,
    }
}

// Whether a reader knows the layout of a number.
fn is_known(reader: Layout, layout: u32) -> bool {
    matches!((reader, layout), (_, 1) | (Layout::Two, 2))
}

// The place of a trailer, where there is one.
fn some_place(place: u32) -> Option<u32> {
    if place == NONE { None } else { Some(place) }
}

// The words of a file from a place on.
fn words_at(file: &Book, place: usize) -> &[[u8; 4]] {
    let (words, _) = file.get(place..).unwrap_or(&[]).as_chunks::<4>();
    words
}

// The number of a word: each byte pushes those before it down.
fn number_in(word: &[u8; 4]) -> u32 {
    word.iter()
        .fold(0, |x: u32, byte| (x >> 8) | (u32::from(*byte) << 24))
}

// The word of a number, its lowest byte first.
fn word_of(x: u32) -> [u8; 4] {
    array::from_fn(|i| ((x >> (8 * (i % 4) as u32)) % 256) as u8)
}

fn trailer_at(file: &Book, place: usize) -> Trailer {
    let words = words_at(file, place);
    let number = |i: usize| words.get(i).map_or(0, |word| number_in(word));
    Trailer {
        start: number(0),
        before: number(1),
        layout: number(2),
        count: number(3),
    }
}

// So many numbers from a place on. Where a label stands behind every seven, it is left out.
fn numbers_at(file: &Book, place: usize, n: usize, labelled: bool) -> List {
    let mut list = List::new();
    for (j, word) in words_at(file, place).iter().enumerate().take(n) {
        if !(labelled & (j % 8 == 7)) {
            list.push(number_in(word));
        }
    }
    list
}

// Writes numbers from a place on, as far as there is room.
fn write_at(file: &mut Book, place: usize, numbers: &[u32]) {
    if let Some(rest) = file.get_mut(place..) {
        let (words, _) = rest.as_chunks_mut::<4>();
        for (word, x) in words.iter_mut().zip(numbers) {
            *word = word_of(*x);
        }
    }
}

// 21 or 22 at a place, where so many bytes are lent. No list here is so long that a whole trailer could lie at `NONE`. That the fields fit is
// told by division.
fn place_fault(
    reader: Layout,
    file: &Book,
    room: usize,
    used: usize,
    place: usize,
) -> Option<Fault> {
    if (used < 16) || (used - 16 < place) || (room < used) {
        return rule(true, 21);
    }
    let trailer = trailer_at(file, place);
    let here = (place % 4294967296) as u32;
    let gap = here.saturating_sub(trailer.start);
    let size = if trailer.layout == 2 { 32 } else { 28 };
    let torn = (gap / size != trailer.count) | (gap % size != 0);
    let early = (trailer.before != NONE)
        & (u64::from(trailer.start) < u64::from(trailer.before) + 16);
    let strays = is_known(reader, trailer.layout) & torn;
    rule(early | (here < trailer.start) | strays, 22)
}

fn fields_of(list: List) -> [u32; 128] {
    array::from_fn(|i| list.get(i))
}

fn of_read(read: Read) -> Told {
    let fields = read.fields;
    Told {
        answer: Answer::from(read.outcome),
        layout: read.layout,
        before: some_place(read.before),
        count: read.count,
        fields,
    }
}

fn of_appended(appended: Result<usize, Refusal>, end: usize) -> Answer {
    match appended {
        Err(refusal) => Answer::from(refusal),
        Ok(used) if used == end => Answer::Done,
        Ok(used) => Answer::Numbered((used % 4294967296) as u32),
    }
}

// What a reader must be told by the rule: 21 and 22 go before 23, and that before the refusals of a table.
fn due_by_rule(reader: Layout, file: &Book, used: usize, place: usize) -> Told {
    let unseen = Told {
        answer: refusal(place_fault(reader, file, 2048, used, place)),
        layout: 0,
        before: None,
        count: 0,
        fields: [0; 128],
    };
    if unseen.answer != Answer::Done {
        return unseen;
    }
    let trailer = trailer_at(file, place);
    let start = trailer.start as usize;
    let labelled = trailer.layout == 2;
    let tasks = trailer.count.min(17) as usize;
    let n = if labelled { 8 * tasks } else { 7 * tasks };
    let sevens = numbers_at(file, start, n, labelled);
    let answer = if is_known(reader, trailer.layout) {
        refusal(tasks_fault(sevens.as_slice()))
    } else {
        Answer::Refused {
            number: 23,
            place: trailer.layout,
        }
    };
    let seen = Told {
        answer,
        layout: trailer.layout,
        before: some_place(trailer.before),
        ..unseen
    };
    if answer != Answer::Done {
        return seen;
    }
    Told {
        count: trailer.count,
        fields: fields_of(numbers_at(file, start, n, false)),
        ..seen
    }
}

// Table k of a trial, at times damaged; a label is any number.
fn table_of(trial: u32, k: u32) -> Table {
    let seed = trial.wrapping_add(50000000 * (k % 64 + 1));
    let (layout, too_many) = match draw(seed, 1800, 2) {
        0 => (Layout::One, 119),
        _ => (Layout::Two, 136),
    };
    let damage = draw(seed, 1801, 12);
    let mut size = short(seed, draw(seed, 1802, 12) == 0);
    size.jobs = 0;
    let mut tasks = make_input(seed, Mode::S, size).tasks;
    if damage < 2 {
        tasks = wrong_task(tasks, seed, 1803);
    }
    let mut numbers = List::new();
    for (i, x) in tasks.as_slice().iter().enumerate() {
        numbers.push(*x);
        if matches!(layout, Layout::Two) & (i % 7 == 6) {
            let place = 1900 + (i % 128) as u32;
            numbers.push(draw(seed, place, 65536) * 65536 + draw(seed, place + 128, 65536));
        }
    }
    if damage == 2 {
        numbers = wrong_length(numbers, seed, 1820, too_many);
        tasks = List::new();
    }
    Table {
        layout,
        tasks: size.tasks,
        numbers,
        sevens: tasks,
    }
}

// What a reader must be told of the last table of those that were taken: where another stands before it, its trailer ends at its used length.
fn due_by_log(reader: Layout, trial: u32, last: Taken, before: Option<&Taken>) -> Told {
    let table = table_of(trial, last.k);
    let layout = number_of(table.layout);
    let seen = Told {
        answer: Answer::Refused {
            number: 23,
            place: 2,
        },
        layout,
        before: before.map(|taken| taken.end.saturating_sub(16)),
        count: 0,
        fields: [0; 128],
    };
    if is_known(reader, layout) {
        Told {
            answer: Answer::Done,
            count: table.tasks,
            fields: fields_of(table.numbers),
            ..seen
        }
    } else {
        seen
    }
}

// What a reader is told at a place, or at the end.
fn compare(
    desk: &mut Desk<impl Print>,
    call: Call,
    place: usize,
    due: Told,
    came: Told,
) -> io::Result<()> {
    let answer = came
        .answer
        .and_entries(came.fields == due.fields)
        .and_words((came.layout == due.layout) & (came.count == due.count))
        .and_record(came.before == due.before);
    desk.note(call, (place % 4294967296) as u32, due.answer, answer)
}

// A file walked from its end: by its log where it is as it was written, else by the rule. The walk ends, and then no table is left.
fn try_walk(
    desk: &mut Desk<impl Print>,
    reader: Layout,
    trial: u32,
    file: &File,
    log: Option<&[Taken]>,
) -> io::Result<()> {
    let used = (file.used % 65536) as u32;
    let mut left = log;
    let mut next = if used == 0 {
        None
    } else {
        Some(used.saturating_sub(16))
    };
    for _ in 0..129 {
        let Some(here) = next else {
            break;
        };
        let place = here as usize;
        let due = match left {
            None => due_by_rule(reader, &file.bytes, file.used, place),
            Some(taken) => {
                let Some((last, rest)) = taken.split_last() else {
                    break;
                };
                left = Some(rest);
                due_by_log(reader, trial, *last, rest.last())
            }
        };
        let came = of_read(chain::read(reader, &file.bytes, file.used, place));
        compare(desk, Call::Read, place, due, came)?;
        next = came.before;
    }
    let ended = next.is_none() && left.is_none_or(|taken| taken.is_empty());
    let due = match log {
        Some(_) => Answer::Done,
        None => Answer::Numbered(used),
    };
    desk.note(Call::Walk, used, due, due.and_entries(ended))
}

// Table k of a trial appended at a used length, in a list of so many bytes: the file with it, or as it was. An append knows both layouts.
fn try_append(
    desk: &mut Desk<impl Print>,
    file: &File,
    trial: u32,
    k: u32,
    used: usize,
    room: usize,
) -> io::Result<File> {
    let from = (used % 4294967296) as u32;
    let last = from.saturating_sub(16);
    let table = table_of(trial, k);
    let end = (from as usize) + 4 * table.numbers.len() + 16;
    let (before, places) = if used == 0 {
        (NONE, None)
    } else {
        let places = place_fault(Layout::Two, &file.bytes, room, used, last as usize);
        (last, places)
    };
    let fault = places
        .or(tasks_fault(table.sevens.as_slice()))
        .or(rule(room < end, 24));
    let mut due = *file;
    if fault.is_none() {
        let mut numbers = table.numbers;
        numbers.extend(&[from, before, number_of(table.layout), table.tasks]);
        write_at(&mut due.bytes, used, numbers.as_slice());
        due.used = end;
    }
    let mut bytes = file.bytes;
    let book = lent(&mut bytes, room);
    let appended = chain::append(table.layout, book, used, table.numbers.as_slice());
    let came = of_appended(appended, end).and_entries(bytes == due.bytes);
    desk.note(Call::Append, k, refusal(fault), came)?;
    Ok(File {
        bytes,
        used: due.used,
    })
}

// The used length behind one of the tables that were taken.
fn some_end(log: &[Taken], trial: u32, place: u32) -> u32 {
    let i = draw(trial, place, (log.len() % 64) as u32) as usize;
    log.get(i).map_or(0, |taken| taken.end)
}

// A change of a file: at a table of its log a trailer made up, of numbers that keep the rules and ones that just break each; or a byte of its
// trailer, or any byte before its end; in turn 0 all bytes.
fn some_change(log: &[Taken], trial: u32, turn: u32) -> Change {
    let p = 6000 + 32 * (turn % 64);
    let end = some_end(log, trial, p) % 65536;
    let here = end.saturating_sub(16);
    let one_of = |place: u32, numbers: &[u32]| {
        let i = draw(trial, p + place % 32, (numbers.len() % 64) as u32);
        at(numbers, i as usize)
    };
    let n = one_of(1, &[0, 17, 1, 2, 3, 4, 5, 16]) % 18;
    let layout = one_of(2, &[1, 2, 1, 2, 1, 2, 0, 3, 258, NONE]);
    let first = here.saturating_sub(if layout == 2 { 32 * n } else { 28 * n });
    let start = one_of(3, &[first, first, first, first, here, here + 1, NONE]).saturating_sub(
        draw(trial, p + 4, 6) / 5,
    );
    let near = start.saturating_sub(14 + draw(trial, p + 5, 4));
    let high = 4294967280 + draw(trial, p + 6, 15) % 15;
    let before = one_of(7, &[near, near, near, high, here, NONE]);
    let count = one_of(8, &[n, n, n, n, n + 1, n + 1073741824]);
    match draw(trial, p + 9, 4) {
        _ if turn == 0 => Change::All,
        0 => Change::Byte((here + draw(trial, p + 10, 16)) as usize),
        1 => Change::Byte(draw(trial, p + 11, end) as usize),
        _ => Change::Trailer(here as usize, [start, before, layout, count]),
    }
}

// A byte by lot: one of a few, or one time in so many any of them.
fn some_byte(trial: u32, turn: u32, i: usize, times: u32) -> u8 {
    let x = draw(trial, 10000 + 2048 * (turn % 64) + (i % 2048) as u32, 2048);
    match x % times.max(1) {
        0 => (x / 8 % 256) as u8,
        1 => 255,
        2 => 1,
        3 => 2,
        _ => 0,
    }
}

// A file with a change; where all bytes are others, every other one is 0, so that some look like a trailer.
fn changed(file: &File, log: &[Taken], trial: u32, turn: u32) -> File {
    let mut next = *file;
    match some_change(log, trial, turn) {
        Change::All => {
            for (i, byte) in next.bytes.iter_mut().enumerate() {
                *byte = some_byte(trial, turn, i, 8);
            }
        }
        Change::Byte(place) => {
            if let Some(byte) = next.bytes.get_mut(place) {
                *byte = some_byte(trial, turn, place, 4);
            }
        }
        Change::Trailer(place, trailer) => write_at(&mut next.bytes, place, &trailer),
    }
    next
}

fn some_reader(trial: u32, place: u32) -> Layout {
    match draw(trial, place, 2) {
        0 => Layout::Two,
        _ => Layout::One,
    }
}

// Both ways to read, and an append, at a used length and a place around the ends.
fn try_ends(
    desk: &mut Desk<impl Print>,
    file: &File,
    log: &[Taken],
    trial: u32,
    turn: u32,
) -> io::Result<()> {
    let bytes = &file.bytes;
    let p = 200000 + 16 * (turn % 64);
    let reader = some_reader(trial, p);
    let any = draw(trial, p + 1, 2050);
    let far = 18446744073709551600 + (any % 16) as usize;
    let u = (file.used % 65536) as u32;
    let down = u.saturating_sub(1);
    let up = u + 1;
    let lens = [u, u, u, u, 0, 15, 16, down, up, any, 2048, 2049, NONE];
    let len = at(&lens, draw(trial, p + 2, 13) as usize);
    let used = match draw(trial, p + 3, 16) {
        0 => far,
        _ => len as usize,
    };
    let here = some_end(log, trial, p + 4).saturating_sub(16);
    let back = len.saturating_sub(14 + any % 4);
    let high = 4294967279 + any % 16;
    let places = [back, back, here, here, here, 0, any, high, NONE];
    let place = match draw(trial, p + 6, 16) {
        0 => far,
        _ => at(&places, draw(trial, p + 5, 9) as usize) as usize,
    };
    let due = due_by_rule(reader, bytes, used, place);
    let came = of_read(chain::read(reader, bytes, used, place));
    compare(desk, Call::Read, place, due, came)?;
    let last = used.saturating_sub(16);
    let due = due_by_rule(reader, bytes, used, last);
    let came = of_read(chain::last(reader, bytes, used));
    compare(desk, Call::Last, last, due, came)?;
    let rooms = [2048, 2048, 2048, u, up, down];
    let room = at(&rooms, draw(trial, p + 7, 6) as usize) % 2049;
    try_append(desk, file, trial, 32 + turn % 32, used, room as usize)?;
    Ok(())
}

// A file that grows by a table every third turn, each tried in just the room that it needs and in a byte less, too; in every turn, the file
// with a change.
pub(crate) fn try_chains(desk: &mut Desk<impl Print>, trial: u32) -> io::Result<()> {
    let mut log = Log::new();
    let blank = File {
        bytes: [0; 2048],
        used: 0,
    };
    let mut file = changed(&blank, log.as_slice(), trial, 0);
    for turn in 0..30 {
        if turn % 3 == 0 {
            let next = try_append(desk, &file, trial, turn, file.used, 2048)?;
            let end = next.used;
            try_append(desk, &file, trial, turn, file.used, end)?;
            try_append(desk, &file, trial, turn, file.used, end.saturating_sub(1))?;
            if file.used < end {
                log.push(Taken {
                    k: turn,
                    end: (end % 4294967296) as u32,
                });
            }
            file = next;
        }
        let other = changed(&file, log.as_slice(), trial, turn + 1);
        let reader = some_reader(trial, 5000 + turn);
        try_walk(desk, reader, trial, &other, None)?;
        try_ends(desk, &other, log.as_slice(), trial, turn)?;
    }
    try_walk(desk, Layout::One, trial, &file, Some(log.as_slice()))?;
    try_walk(desk, Layout::Two, trial, &file, Some(log.as_slice()))
}
