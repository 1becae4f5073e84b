// The program: what it prints for what it reads.
ghost use Rattle.std.specs.Prelude.{◌≡◌, ◌++◌, length, OnOk, IfOk};
ghost use Rattle.reader.specs.Reading.{read};
ghost use Rattle.console.specs.Program.{full_room, lines, printed};

use crate::input::split;
use crate::text::{put_refusal, put_rows};
use reader::reading::read;
use reader::refusal::Refused;
use std::alloc::{AllocError, Global};

// "2,048 rows suffice for every message", six numbers each.
const ROOM: usize = 12288;

// "It reads standard input: book length (2 bytes, little-endian), book, message", and prints this.
pub fn printed(alloc: Global, input: &[u8]) -> Result<Vec<u8>, AllocError>
    ensures { IfOk result (λ out. out.items ≡ printed input.now) }
{
    let mut out = Vec::new(alloc);
    match split(input) {
        Ok((book, message)) => {
            let mut index = vec![in alloc; 0; ROOM]?;
            put_answer(&mut out, &mut index, book, message)?
        }
        Err(cut) => put_refusal(&mut out, cut.into(), 0, 0)?,
    }
    Ok(out)
}

// The rows, or the refusal.
fn put_answer(
    out: &mut Vec<u8>,
    index: &mut [u16],
    book: &[u8],
    message: &[u8],
) -> Result<(), AllocError>
    requires { length index.old ≡ full_room }
    ensures { OnOk result (out.new.items ≡ out.old.items ++ lines (read book.now message.now full_room)) }
{
    match read(book, message, index) {
        Ok(count) => put_rows(out, index, count),
        Err(Refused { why, at }) => put_refusal(out, why.into(), at, why.tag()),
    }
}
