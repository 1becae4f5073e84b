// Runs reading, and the program, on the cases of its standard input, a line for each, and writes the label of each case and the answer.
// What must be written stands in the file stdout, worked out from the vectors, from document 01 and from source document 001. The forms of
// a line, the cases being written as the vectors are:
//
//     # a remark
//     book BYTES                      the book for which `@` stands from here on
//     LABEL read BOOK MESSAGE ROOM    with a tab behind the label; an index of ROOM numbers is lent
//     LABEL program INPUT             the same
//
// Bytes: pairs of hexadecimal digits, `-` for none, and `@` behind the last pair for the book. Between quotes stands a text, in which `|`
// is byte 1 and `~` a space; behind it `*N`: that text N times in all.
//
// The answers are those of the vectors too: rows parted by `;`, and `/` in place of the end of a line that the program prints. Behind an
// answer of reading stands `kept` if the lent numbers behind the rows are as they were lent, on a refusal all of them; else `changed`.
#![tactic(auto)]

mod pen;

use reader::reading::read;
use reader::refusal::Refused;
use std::alloc::{AllocError, Global};
use std::io;
use std::io::Read;

// A row's numbers.
const WIDTH: usize = 6;

// What stands at each place of a lent index: from 65,535 downward, so no two neighbours are alike.
fn lent_at(place: usize) -> u16 {
    u16::MAX - (place % 65536) as u16
}

fn lent(alloc: Global, room: usize) -> Result<Vec<u16>, AllocError> {
    let mut index = Vec::new(alloc);
    for place in 0..room {
        index.push(lent_at(place))?;
    }
    Ok(index)
}

// Whether the numbers behind so many rows are as they were lent.
fn is_kept(index: &[u16], rows: usize) -> bool {
    index
        .iter()
        .enumerate()
        .skip(rows.saturating_mul(WIDTH))
        .all(|(place, n)| *n == lent_at(place))
}

fn say_kept(rt: &impl Print, index: &[u16], rows: usize) -> io::Result<()> {
    if is_kept(index, rows) {
        println!(rt; " kept")
    } else {
        println!(rt; " changed")
    }
}

fn say_rows(rt: &impl Print, index: &[u16], count: usize) -> io::Result<()> {
    print!(rt; "OK {count} ")?;
    let (rows, _) = index.as_chunks::<WIDTH>();
    for (i, row) in rows.iter().take(count).enumerate() {
        let [tag, start, length, depth, count_row, instance] = *row;
        let between = if i > 0 { ";" } else { "" };
        print!(rt; "{between}{tag},{start},{length},{depth},{count_row},{instance}")?;
    }
    say_kept(rt, index, count)
}

fn run_read(
    rt: &impl Print,
    alloc: Global,
    book: &[u8],
    message: &[u8],
    room: usize,
) -> io::Result<()> {
    let mut index = lent(alloc, room)?;
    match read(book, message, &mut index) {
        Ok(count) => say_rows(rt, &index, count),
        Err(Refused { why, at }) => {
            print!(rt; "REFUSED {} {at} {}", u16::from(why), why.tag())?;
            say_kept(rt, &index, 0)
        }
    }
}

// What the program prints, with `/` in place of each end of a line.
fn run_program(rt: &impl Print, alloc: Global, input: &[u8]) -> io::Result<()> {
    let lines = console::printed(alloc, input)?;
    for (i, line) in lines.split(|b| *b == b'\n').enumerate() {
        if i > 0 {
            rt.write_all(b"/")?;
        }
        rt.write_all(line)?;
    }
    println!(rt)
}

fn run_call(rt: &impl Print, alloc: Global, book: &[u8], call: &[u8]) -> io::Result<()> {
    let mut words = call.split(|b| *b == b' ');
    let (what, first) = (words.next(), words.next().unwrap_or_default());
    let first = pen::bytes(alloc, book, first)?;
    if what == Some(b"program") {
        return run_program(rt, alloc, &first);
    }
    let second = pen::bytes(alloc, book, words.next().unwrap_or_default())?;
    let room = pen::number(words.next().unwrap_or_default());
    run_read(rt, alloc, &first, &second, room)
}

fn run_case(rt: &impl Print, alloc: Global, book: &[u8], line: &[u8]) -> io::Result<()> {
    let Some(end) = line.iter().position(|b| *b == b'\t') else {
        return Ok(());
    };
    let (label, call) = line.split_at(end + 1);
    rt.write_all(label)?;
    run_call(rt, alloc, book, call)
}

fn run(rt: &impl Print, alloc: Global, input: &[u8]) -> io::Result<()> {
    let mut book = Vec::new(alloc);
    for line in input.split(|b| *b == b'\n') {
        match line.strip_prefix(b"book ") {
            Some(word) => book = pen::bytes(alloc, &[], word)?,
            None => run_case(rt, alloc, &book, line)?,
        }
    }
    Ok(())
}

fn main(rt: HostRuntime) -> io::Result<()> {
    let mut input = Vec::new(rt.alloc());
    rt.stdin().read_to_end(&mut input)?;
    run(&rt, rt.alloc(), input.as_slice())
}
