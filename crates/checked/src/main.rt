// Runs the check of a book and the datatype checks on the cases of its standard input, a line for each, and writes the label of each
// case and the answer. What must be written stands in the file stdout, worked out from the vectors, from document 01 and from source
// document 001. The forms of a line:
//
//     # a remark
//     LABEL: BOOK                 a book, in the words below
//     LABEL(N) "VALUE"            a value of datatype N; `|` is byte 1
//     LABEL(N): BYTES             the same, in the words below
//
// The words of a book: `f` tag datatype partner, `m` text members, `g` tag members, each number in decimal; the length in front of a
// record comes by itself. A text is its four bytes, `_` for a zero. Behind `.` no length is written. `x` and pairs of hexadecimal
// digits: these bytes. `*N`: the last four bytes N times more. `+N`: the last ten bytes, a field, N times more, the tag one
// higher each time.
#![tactic(auto)]

mod pen;

use arrayvec::ArrayVec;
use book::Broken;
use pen::Pen;
use std::io;
use std::io::Read;

// The input is read up to here.
const INPUT: usize = 131072;

// The answer to what was written: of a book, or of a value of a datatype.
fn answer(rt: &impl Print, datatype: Option<u16>, bytes: &[u8]) -> io::Result<()> {
    match datatype {
        None => match book::check(bytes) {
            Ok(()) => println!(rt; " SOUND"),
            Err(Broken { rule, offset }) => println!(rt; " UNSOUND {} {offset}", u16::from(rule)),
        },
        Some(n) if forms::of_type(n, bytes) => println!(rt; " yes"),
        Some(_) => println!(rt; " no"),
    }
}

// The number in a label's parentheses, if there is one.
fn datatype(label: &[u8]) -> Option<u16> {
    let mut n = 0;
    let mut inside = false;
    for &b in label {
        match b {
            b'(' => inside = true,
            b')' => inside = false,
            b'0'..=b'9' if inside => n = pen::further(n, b),
            _ => {}
        }
    }
    // kept: no datatype has the number 0, and a label `(0)` asks for a book, as before.
    if n == 0 { None } else { Some(n) }
}

// Whether no `)` closes the last `(` of a label.
fn is_open(label: &[u8]) -> bool {
    label.iter().rev().find(|b| matches!(b, b'(' | b')')) == Some(&b'(')
}

fn answer_words(rt: &impl Print, pen: &mut Pen, label: &[u8], words: &[u8]) -> io::Result<()> {
    pen.words(words, is_open(label));
    answer(rt, datatype(label), pen.bytes())
}

// The last byte is the closing quote.
fn answer_value(rt: &impl Print, pen: &mut Pen, label: &[u8], value: &[u8]) -> io::Result<()> {
    pen.text(value, b'|', 1);
    match pen.bytes().split_last() {
        Some((_, bytes)) => answer(rt, datatype(label), bytes),
        None => Ok(()),
    }
}

// Only the last line of the input may have no end, and then no answer.
fn run_line(rt: &impl Print, pen: &mut Pen, line: &[u8]) -> io::Result<()> {
    let end = line
        .iter()
        .position(|b| matches!(b, b'#' | b':' | b'"' | b'\n'));
    let (label, rest) = line.split_at(end.unwrap_or(line.len()));
    rt.write_all(label)?;
    match rest {
        [b':', words @ .., b'\n'] => answer_words(rt, pen, label, words),
        [b'"', value @ .., b'\n'] => {
            rt.write_all(b"\"")?;
            rt.write_all(value)?;
            answer_value(rt, pen, label, value)
        }
        [b'"', ..] => rt.write_all(rest),
        _ => Ok(()),
    }
}

// One pen writes all cases, since a new one is blank in all its room.
fn run(rt: &impl Print, input: &[u8]) -> io::Result<()> {
    let mut pen = Pen::new();
    for line in input.split_inclusive(|b| *b == b'\n') {
        pen.clear();
        run_line(rt, &mut pen, line)?;
    }
    Ok(())
}

fn main(rt: HostRuntime) -> io::Result<()> {
    let mut input = ArrayVec::<u8, INPUT>::new();
    io::copy(&mut rt.stdin().take(INPUT as u64), &mut input)?;
    run(&rt, input.as_slice())
}
