// The frame of a message: fields 8, 9 and 35 from the front, 10 by its seven bytes from the end. Byte 1 is `|`.
ghost use Rattle.std.specs.Prelude.{◌≡◌, ◌&&◌, [], ◌∷◌, ◌+◌, ◌-◌, eqb, leb, length, drop};
ghost use Rattle.numbers.specs.Bytes.{some};
ghost use Rattle.numbers.specs.Decimal.{digits, value};
ghost use Rattle.book.specs.Records.{records, message_of, is_found};
ghost use Rattle.message.specs.Permitted.{versions, among};
ghost use Rattle.reader.specs.Fields.{cut_at, cut};
ghost use Rattle.reader.specs.Frame.{field, frame};
ghost use Rattle.reader.specs.Answers.{cut_in, is_closing, framed_in, Inside};

use crate::Framed;
use crate::refusal::{Refusal, Refused};
use book::lookup::has_message;
use numbers::decimal::{all_digits, sum256, value_is};

// The bytes before the first `|`, and those behind it.
pub(crate) fn cut<'a>(s: &'a [u8]) -> Option<(&'a [u8], &'a [u8])>
    ensures { cut_in result ≡ cut 1 s.entry.now }
{
    let end = s.iter().position(|b| *b == 1)?;
    Some((&s[..end], &s[end + 1..]))
}

// The value of the field that begins with `tag`, and the bytes behind it.
fn field<'a>(s: &'a [u8], tag: &[u8]) -> Option<(&'a [u8], &'a [u8])>
    ensures { cut_in result ≡ field tag.now s.entry.now }
{
    cut(s.strip_prefix(tag)?)
}

fn is_version(w: &[u8]) -> bool
    ensures { result ≡ among w.now versions }
{
    [b"FIX.4.2".as_slice(), b"FIX.4.4", b"FIXT.1.1"].contains(&w)
}

// Whether n states the bytes left but seven.
fn is_count(n: &[u8], left: usize) -> bool
    ensures { result ≡ (some n.now && digits n.now && leb 7 left && eqb (value n.now) (left - 7)) }
{
    !n.is_empty() && all_digits(n) && 7 <= left && value_is(n, left - 7)
}

// Whether field 10 with this value ends the message.
fn is_closing(sum: &[u8], rest: &[u8]) -> bool
    ensures { result ≡ is_closing (cut_at sum.now rest.now) }
{
    rest.is_empty() && sum.len() == 3 && all_digits(sum)
}

fn is_listed(book: &[u8], text: &[u8]) -> bool
    ensures { result ≡ (some text.now && is_found (message_of (records book.now) text.now)) }
{
    !text.is_empty() && has_message(book, text)
}

// Refusals 3 to 7.
pub fn frame(book: &[u8], msg: &[u8]) -> Result<Framed, Refused>
    ensures { (framed_in (records book.now) msg.now result ≡ frame (records book.now) msg.now) × Inside msg.now result }
{
    let (_, rest) = field(msg, b"8=")
        .filter(|f| is_version(f.0))
        .ok_or(Refusal::Version.at(0))?;
    let version_end = msg.len() - rest.len();
    let (_, rest) = field(rest, b"9=")
        .filter(|f| is_count(f.0, f.1.len()))
        .ok_or(Refusal::Length.at(version_end))?;
    let length_end = msg.len() - rest.len();
    let end = msg.len() - 7;
    let (front, tail) = rest.split_at(rest.len() - 7);
    let (sum, _) = field(tail, b"10=")
        .filter(|f| is_closing(f.0, f.1))
        .ok_or(Refusal::Closing.at(end))?;
    if !value_is(sum, usize::from(sum256(&msg[..end]))) {
        return Err(Refusal::Sum.at(end));
    }
    let (_, rest) = field(front, b"35=")
        .filter(|f| is_listed(book, f.0))
        .ok_or(Refusal::Type.at(length_end))?;
    Ok(Framed {
        version_end,
        length_end,
        type_end: end - rest.len(),
    })
}
