// Asks the questions of the vectors and of edge cases. A line for each: its label, what was asked, the answer. What must be written
// stands in the file stdout, worked out from the vectors and from document 01.
#![tactic(auto)]

use index::{Found, Walker};
use std::io;

fn say_found(rt: &impl Print, found: Found) -> io::Result<()> {
    let Found::Row(row) = found else {
        return println!(rt; " ABSENT");
    };
    println!(rt; " ROW {row}")
}

// The value's length and its bytes.
fn say_value(rt: &impl Print, value: &[u8]) -> io::Result<()> {
    print!(rt; " {} <", value.len())?;
    rt.write_all(value)?;
    println!(rt; ">")
}

// kept: four loops of two lines over four kinds of tuple; a closure for what is asked would leave three of them no shorter.
fn values(rt: &impl Print, cases: &[(&str, &[u16], &[u8], usize)]) -> io::Result<()> {
    for (label, index, message, row) in cases {
        print!(rt; "{label} value")?;
        say_value(rt, index::value(index, message, *row))?;
    }
    Ok(())
}

// Each by its count row, instance and tag.
fn finds(rt: &impl Print, cases: &[(&str, &[u16], usize, usize, usize)]) -> io::Result<()> {
    for (label, index, count, inst, tag) in cases {
        print!(rt; "{label} find")?;
        say_found(rt, index::find(index, *count, *inst, *tag))?;
    }
    Ok(())
}

fn find_values(
    rt: &impl Print,
    cases: &[(&str, &[u16], &[u8], usize, usize, usize)],
) -> io::Result<()> {
    for (label, index, message, count, inst, tag) in cases {
        print!(rt; "{label} find_value")?;
        say_value(rt, index::find_value(index, message, *count, *inst, *tag))?;
    }
    Ok(())
}

// Each by its count row and the row at which the walker stands.
fn steps(rt: &impl Print, cases: &[(&str, &[u16], usize, usize)]) -> io::Result<()> {
    for (label, index, count, row) in cases {
        print!(rt; "{label} step")?;
        say_found(rt, index::step(index, *count, *row))?;
    }
    Ok(())
}

// The rows that a walker gives, and what it answers once more behind its end.
fn walk(rt: &impl Print, label: &str, index: &[u16], count: usize) -> io::Result<()> {
    print!(rt; "{label} walk")?;
    let mut last = index.len();
    for row in Walker::new(index, count) {
        print!(rt; " {row}")?;
        last = row;
    }
    say_found(rt, index::row_after(index, count, last))
}

fn walks(rt: &impl Print, cases: &[(&str, &[u16], usize)]) -> io::Result<()> {
    for (label, index, count) in cases {
        walk(rt, label, index, *count)?;
    }
    Ok(())
}

fn vectors(rt: &impl Print) -> io::Result<()> {
    values(
        rt,
        &[
            ("Q2a", &[5, 4, 0, 0, 0, 0], b"ABCD", 0),
            ("Q2b", &[5, 3, 1, 0, 0, 0], b"ABCD", 0),
            ("Q2c", &[5, 3, 2, 0, 0, 0], b"ABCD", 0),
        ],
    )?;
    finds(
        rt,
        &[
            ("Q3a", &[5, 0, 0, 3, 0, 0], 0, 0, 5),
            ("Q3b", &[5, 0, 0, 1, 4, 1, 5, 0, 0, 0, 4, 1, 5], 4, 1, 5),
        ],
    )?;
    walks(
        rt,
        &[
            (
                "Q4a",
                &[5, 0, 0, 0, 0, 1, 6, 0, 0, 0, 0, 1, 7, 0, 0, 0, 0, 2],
                0,
            ),
            ("Q4b", &[5, 0, 0, 1, 9, 2, 6, 0, 0, 1, 9, 1], 9),
        ],
    )
}

fn p2(rt: &impl Print) -> io::Result<()> {
    values(
        rt,
        &[
            ("P2.0", &P2, P2_MESSAGE, 0),
            ("P2.1", &P2, P2_MESSAGE, 1),
            ("P2.6", &P2, P2_MESSAGE, 6),
            ("P2.7", &P2, P2_MESSAGE, 7),
            ("P2.8", &P2, P2_MESSAGE, 8),
        ],
    )?;
    finds(
        rt,
        &[
            ("P2.top", &P2, 0, 0, 11),
            ("P2.in-group", &P2, 4, 1, 447),
            ("P2.other-instance", &P2, 4, 2, 447),
            ("P2.other-count-row", &P2, 0, 0, 447),
        ],
    )?;
    find_values(
        rt,
        &[
            ("P2.448", &P2, P2_MESSAGE, 4, 1, 448),
            ("P2.452", &P2, P2_MESSAGE, 4, 1, 452),
        ],
    )?;
    walks(rt, &[("P2.group", &P2, 4), ("P2.no-group", &P2, 0)])
}

fn value_cases(rt: &impl Print) -> io::Result<()> {
    values(
        rt,
        &[
            ("whole", &[5, 0, 4, 0, 0, 0], b"ABCD", 0),
            ("middle", &[5, 1, 2, 0, 0, 0], b"ABCD", 0),
            ("behind", &[5, 5, 0, 0, 0, 0], b"ABCD", 0),
            ("second", &[5, 0, 1, 0, 0, 0, 5, 2, 1, 0, 0, 0], b"ABCD", 1),
            ("no-message", &[5, 0, 0, 0, 0, 0], b"", 0),
            ("no-row", &[], b"ABCD", 0),
            ("rest-of-five", &[5, 0, 1, 0, 0], b"ABCD", 0),
            (
                "rest-behind-a-row",
                &[5, 0, 1, 0, 0, 0, 5, 2, 1, 0, 0],
                b"ABCD",
                1,
            ),
            ("start-wraps", &[5, 65535, 2, 0, 0, 0], b"ABCD", 0),
            ("length-wraps", &[5, 2, 65535, 0, 0, 0], b"ABCD", 0),
            ("last-row-number", &[5, 0, 1, 0, 0, 0], b"ABCD", usize::MAX),
            // six times this is 2^64 + 2
            (
                "row-wraps",
                &[5, 0, 1, 0, 0, 0],
                b"ABCD",
                3074457345618258603,
            ),
        ],
    )
}

fn find_value_cases(rt: &impl Print) -> io::Result<()> {
    find_values(
        rt,
        &[
            ("leaves", &[5, 3, 2, 0, 0, 0], b"ABCD", 0, 0, 5),
            (
                "lowest-leaves",
                &[5, 3, 2, 0, 0, 0, 5, 0, 1, 0, 0, 0],
                b"ABCD",
                0,
                0,
                5,
            ),
        ],
    )
}

fn find_cases(rt: &impl Print) -> io::Result<()> {
    finds(
        rt,
        &[
            ("no-numbers", &[], 0, 0, 0),
            ("five-numbers", &[5, 0, 0, 0, 0], 0, 0, 5),
            (
                "rest-not-asked",
                &[6, 0, 0, 0, 0, 0, 5, 0, 0, 0, 0],
                0,
                0,
                5,
            ),
            ("lowest", &[5, 9, 0, 0, 0, 0, 5, 1, 1, 0, 0, 0], 0, 0, 5),
            ("second", &[5, 0, 0, 0, 1, 0, 5, 0, 0, 0, 0, 0], 0, 0, 5),
            ("zeros", &[5, 0, 0, 0, 0, 0, 0, 0, 0, 0, 0, 0], 0, 0, 0),
            (
                "highest-numbers",
                &[65535, 0, 0, 0, 65535, 65535],
                65535,
                65535,
                65535,
            ),
            ("other-tag", &[5, 0, 0, 0, 2, 3], 2, 3, 6),
            ("other-count-row", &[5, 0, 0, 0, 2, 3], 3, 3, 5),
            ("other-instance", &[5, 0, 0, 0, 2, 3], 2, 2, 5),
            ("tag-65541", &[5, 0, 0, 0, 2, 3], 2, 3, 65541),
            ("count-row-65538", &[5, 0, 0, 0, 2, 3], 65538, 3, 5),
            ("instance-65539", &[5, 0, 0, 0, 2, 3], 2, 65539, 5),
        ],
    )
}

fn walk_cases(rt: &impl Print) -> io::Result<()> {
    walks(
        rt,
        &[
            ("no-numbers", &[], 0),
            ("five-numbers", &[5, 0, 0, 0, 1], 0),
            ("rest-not-asked", &[5, 0, 0, 1, 2, 1, 5, 0, 0, 1, 2], 2),
            ("no-first", &[5, 0, 0, 1, 2, 2], 2),
            ("ends-at-the-gap", &[5, 0, 0, 1, 2, 1, 5, 0, 0, 1, 2, 3], 2),
            ("count-row-65538", &[5, 0, 0, 1, 2, 1], 65538),
            ("depth-not-asked", &[5, 0, 0, 4, 2, 1, 5, 0, 0, 0, 2, 2], 2),
            ("other-count-row", &[5, 0, 0, 1, 3, 1, 5, 0, 0, 1, 2, 1], 2),
            ("zeros-behind", &[5, 0, 0, 1, 0, 1, 0, 0, 0, 0, 0, 0], 0),
            (
                "backward",
                &[5, 0, 0, 1, 2, 3, 5, 0, 0, 1, 2, 2, 5, 0, 0, 1, 2, 1],
                2,
            ),
        ],
    )
}

fn step_cases(rt: &impl Print) -> io::Result<()> {
    let around = [5, 0, 0, 1, 2, 65535, 5, 0, 0, 1, 2, 0, 5, 0, 0, 1, 2, 1];
    steps(
        rt,
        &[
            (
                "to-65535",
                &[5, 0, 0, 1, 2, 65534, 5, 0, 0, 1, 2, 65535],
                2,
                0,
            ),
            ("from-65535", &around, 2, 0),
            ("from-0", &around, 2, 1),
            ("not-begun", &around, 2, 3),
            ("no-such-row", &around, 2, usize::MAX),
        ],
    )
}

fn many_rows(rt: &impl Print, index: &[u16]) -> io::Result<()> {
    values(rt, &[("row-65536", index, b"ABCD", 65536)])?;
    finds(
        rt,
        &[
            ("row-65536", index, 3, 1, 7),
            ("row-65537", index, 3, 2, 0),
            ("row-0", index, 0, 0, 0),
        ],
    )?;
    walks(rt, &[("row-65536", index, 3), ("65538-rows", index, 0)])
}

// The last two rows are instances 1 and 2 of count row 3.
fn filled(rt: &impl Print, numbers: &mut [u16]) -> io::Result<()> {
    if let Some(last) = numbers.last_chunk_mut() {
        *last = [7, 0, 2, 0, 3, 1, 0, 0, 0, 0, 3, 2];
    }
    many_rows(rt, numbers)
}

// 65,538 rows: all zeros but the last two.
fn large(rt: &impl Print) -> io::Result<()> {
    let mut numbers = [0; 393228];
    filled(rt, &mut numbers)
}

fn main(rt: HostRuntime) -> io::Result<()> {
    vectors(&rt)?;
    p2(&rt)?;
    value_cases(&rt)?;
    find_value_cases(&rt)?;
    find_cases(&rt)?;
    walk_cases(&rt)?;
    step_cases(&rt)?;
    large(&rt)
}

const P2_MESSAGE: &[u8] =
    b"8=FIX.4.4\x019=28\x0135=D\x0111=A\x01453=1\x01448=X\x01447=B\x0110=045\x01";

// The rows of P2 as document 01 prints them.
const P2: [u16; 48] = [
    8, 2, 7, 0, 0, 0, 9, 12, 2, 0, 0, 0, 35, 18, 1, 0, 0, 0, 11, 23, 1, 0, 0, 0, 453, 29, 1, 0, 0,
    0, 448, 35, 1, 1, 4, 1, 447, 41, 1, 1, 4, 1, 10, 46, 3, 0, 0, 0,
];
