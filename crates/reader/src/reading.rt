// "Reading a message": the frame, then field by field, then the end, then the room.
ghost use Rattle.std.specs.Prelude.{◌≡◌, ℕ, length, drop};
ghost use Rattle.reader.specs.Answers.{told_by};
ghost use Rattle.reader.specs.Items.{read_items};
ghost use Rattle.reader.specs.Reading.{told, read, read_checked, index_after};
ghost use Rattle.reader.specs.Filling.{row_numbers, row_bytes};
ghost use Rattle.reader.specs.Met.{page_of, Meets};
ghost use Rattle.reader.specs.Rowed.{Staged, f_message, Counts, put_by};

use crate::frame::frame;
use crate::items::put_field;
use crate::own::own;
use crate::page::Page;
use crate::refusal::{Refusal, Refused};
use crate::{Field, Framed, Scan, Spot, Step, Within};
use book::check;
use book::lookup::message_list;
use numbers::part;

// The reading with a book that was checked before: all but refusal 1, of any book. Numbers past the last row stay, on a refusal all do.
pub fn read_checked(book: &[u8], msg: &[u8], index: &mut [u16]) -> Result<usize, Refused>
    ensures told { told_by result ≡ told length (read_checked book.now msg.now (length index.old)) }
    ensures index { index.new ≡ index_after index.old (read_checked book.now msg.now (length index.old)) }
{
    let room = index.len();
    fill(book, msg, index, &mut [], room)
}

// "Reading a message": a message in, and where every field stands; or the number and place of what is wrong.
pub fn read(book: &[u8], msg: &[u8], index: &mut [u16]) -> Result<usize, Refused>
    ensures told { told_by result ≡ told length (read book.now msg.now (length index.old)) }
    ensures index { index.new ≡ index_after index.old (read book.now msg.now (length index.old)) }
{
    if check(book).is_err() {
        return Err(Refusal::Book.at(0));
    }
    read_checked(book, msg, index)
}

// Refusals 2 to 15, for any book; of one over 16,384 bytes, which is not sound, the rest is not looked at. The rows are put where there is
// room for them: into numbers, or into bytes for C.
pub fn fill(
    book: &[u8],
    msg: &[u8],
    index: &mut [u16],
    bytes: &mut [u8],
    room: usize,
) -> Result<usize, Refused>
    ensures told { told_by result ≡ told length (read_checked book.now msg.now room) }
    ensures rows { (index.new ≡ put_by 6 row_numbers index.old (read_checked book.now msg.now room))
        × (bytes.new ≡ put_by 12 row_bytes bytes.old (read_checked book.now msg.now room)) }
{
    if 8192 < msg.len() {
        return Err(Refusal::Size.at(0));
    }
    let book = part(book, 0, 16384);
    let framed = frame(book, msg)?;
    let kind = framed.kind();
    let page = Page {
        book,
        own: message_list(book, &msg[kind.start..kind.end]),
    };
    let scan = Scan {
        page,
        m: &msg[..msg.len() - 7],
        watch: 0,
    };
    let count = count_rows(scan, framed)?;
    if room / 6 < count {
        return Err(Refusal::Room.at(msg.len()));
    }
    let _ = put_message(&scan, framed, index, bytes);
    Ok(count)
}

// Puts down the rows of a message, as far as there is room: those of 8, 9 and 35, of the fields, and of 10.
fn put_message<'a>(
    scan: &Scan<'a>,
    framed: Framed,
    index: &mut [u16],
    bytes: &mut [u8],
) -> Result<Step, Refused>
    requires { Staged scan.now framed }
    ensures { Meets 0 scan.now.m.now 0 0 (f_message (page_of scan.now.page) scan.now.watch framed scan.now.m.now) result index.old index.new bytes.old bytes.new }
{
    let within = Within::message();
    put_field(framed.version(), within, 0, index, bytes);
    put_field(framed.length(), within, 1, index, bytes);
    put_field(framed.kind(), within, 2, index, bytes);
    let first = Spot {
        at: framed.type_end,
        row: 3,
    };
    let step = own(scan, first, index, bytes)?;
    let Step::Done { at, row } = step else {
        return Ok(step);
    };
    let closing = Field {
        tag: 10,
        start: at + 3,
        end: at + 6,
    };
    put_field(closing, within, row, index, bytes);
    Ok(Step::Done { at, row: row + 1 })
}

// How many rows a message has: nothing is put down. A late tag that was asked for is watched in the next reading.
fn count_rows(mut scan: Scan, framed: Framed) -> Result<usize, Refused>
    requires { Staged scan framed }
    ensures { Counts scan.entry.m.now framed (read_items (page_of scan.entry.page) (drop framed.type_end scan.entry.m.now)) result }
{
    loop {
        match put_message(&scan, framed, &mut [], &mut [])? {
            Step::Done { row, .. } => return Ok(row),
            Step::Ask(tag) => scan.watch = tag,
        }
    }
}
