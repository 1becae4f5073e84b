// Lines of numbers: "one line a row, the six numbers with a space between, then `OK` and the row count; or one line `REFUSED`".
ghost use Rattle.std.specs.Prelude.{◌≡◌, ◌++◌, [], ◌∷◌, OnOk};
ghost use Rattle.numbers.specs.Decimal.{render};
ghost use Rattle.reader.specs.Reading.{refused};
ghost use Rattle.console.specs.Program.{line, row_lines, lines};
ghost use Rattle.console.specs.Rows.{rows_in};

use itoa::Buffer;
use std::alloc::AllocError;

// A row's numbers.
const WIDTH: usize = 6;

#[tactic(auto, using(crate::proofs::Lines::decimal_is))]
pub fn put_number(out: &mut Vec<u8>, n: usize) -> Result<(), AllocError>
    ensures { OnOk result (out.new.items ≡ out.old.items ++ render n) }
{
    let mut buffer = Buffer::new();
    out.extend_from_slice(buffer.format(n).as_bytes())
}

// Numbers "with a space between".
pub fn put_line(out: &mut Vec<u8>, numbers: &[usize]) -> Result<(), AllocError>
    ensures { OnOk result (out.new.items ≡ out.old.items ++ line numbers.now) }
{
    for (i, n) in numbers.iter().enumerate() {
        if i > 0 {
            out.push(b' ')?;
        }
        put_number(out, *n)?;
    }
    out.push(b'\n')?;
    Ok(())
}

// The first `count` rows of an index, each whole six, and "`OK` and the row count".
pub fn put_rows(out: &mut Vec<u8>, index: &[u16], count: usize) -> Result<(), AllocError>
    ensures { OnOk result (out.new.items ≡ out.old.items ++ row_lines count (rows_in count index.now)) }
{
    let (rows, _) = index.as_chunks::<WIDTH>();
    for row in &rows[..count.min(rows.len())] {
        put_line(out, &row.map(usize::from))?;
    }
    out.extend_from_slice(b"OK ")?;
    put_line(out, &[count])
}

// "or one line `REFUSED`, number, place, tag".
pub fn put_refusal(out: &mut Vec<u8>, number: u16, place: usize, tag: u32) -> Result<(), AllocError>
    ensures { OnOk result (out.new.items ≡ out.old.items ++ lines (refused number place tag)) }
{
    out.extend_from_slice(b"REFUSED ")?;
    put_line(out, &[usize::from(number), place, tag as usize])
}
