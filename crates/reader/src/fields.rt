// A field taken off the message without its last seven bytes, from a place on. Total on any bytes.
ghost use Rattle.std.specs.Prelude.{◌≡◌, List, ℕ, ◌+◌, ◌-◌, ◌<◌, ◌≤◌, min, eqb, length, take, drop, MatchOption};
ghost use Rattle.numbers.specs.Decimal.{value};
ghost use Rattle.numbers.specs.Scan.{leading_digits};
ghost use Rattle.book.specs.Records.{Record, records, partner};
ghost use Rattle.book.specs.Answers.{type_told, partner_told};
ghost use Rattle.message.specs.Rows.{lead};
ghost use Rattle.reader.specs.Fields.{cut, cut_at, torn, tag_in, peek, valued, data_of, grab};
ghost use Rattle.reader.specs.Taken.{between, Stands, Takes, Known, filled};

use crate::frame::cut;
use crate::refusal::{Refusal, Refused};
use crate::{Field, Grabbed};
use book::Declared;
use book::lookup::declared;
use forms::Datatype;
use numbers::scan::{Number, number_at, value_capped_at};
use numbers::{byte_at, part};

// What peek says where no tag of good form stands.
pub(crate) const TORN: u32 = 65537;

// The tag of good form that stands here, 65,536 for every larger one, and the place of its `=`.
// kept: 65,536, and no Option, since the clause of peek is on that number too.
fn tag_at(m: &[u8], at: usize) -> Option<Number>
    ensures { MatchOption result (torn ≡ tag_in (cut 61 (drop at m.now)))
        (λ n. (n.value ≡ tag_in (cut 61 (drop at m.now))) × (n.end ≡ at + length (leading_digits (drop at m.now))) × (n.value ≤ 65536)) }
{
    let n = number_at(m, at);
    if byte_at(m, at) != b'0' && at < n.end && byte_at(m, n.end) == b'=' {
        return Some(n);
    }
    None
}

// The same as a number: TORN where no tag of good form stands, and 0 at the end.
// kept: the clause of this public function is on that number, which lists and closing ask for.
pub fn peek(m: &[u8], at: usize) -> u32
    ensures { result ≡ peek (drop at m.now) }
{
    if m.len() <= at {
        return 0;
    }
    match tag_at(m, at) {
        Some(n) => n.value as u32,
        None => TORN,
    }
}

// What a count's text says, capped.
pub fn count_of(m: &[u8], a: usize, b: usize) -> usize
    ensures { result ≡ min (value (take (b - a) (drop a m.now))) 65536 }
{
    value_capped_at(part(m, a, b.saturating_sub(a)), 65536)
}

// The data from a place on, as many bytes as its Length says.
// kept: that the field is within m is asked here and twice below; a struct of both would be made in one place and taken apart in three.
fn data_at(m: &[u8], field: Field, tag: u16, start: usize) -> Result<Grabbed, Refused>
    requires { (field.start ≤ field.end) × (field.end < length m.now) × (start ≤ length m.now) }
    ensures { (B : List Record) (at : ℕ) → Stands m.now at field.tag field.start field.end → start ≡ field.end + 1 + lead tag
        → Takes B m.now at (filled B field.tag (between m.now field.start field.end) (drop (field.end + 1) m.now) tag (drop start m.now)) result }
{
    let at = field.end + 1;
    let n = value_capped_at(&m[field.start..field.end], m.len());
    if n == 0 {
        return Err(Refusal::Form.at(at));
    }
    let end = start + n;
    if byte_at(m, end) != 1 {
        return Err(Refusal::Pair.at(at));
    }
    Ok(Grabbed::Pair {
        length: field,
        data: Field { tag, start, end },
    })
}

// The data behind a Length: its tag is to be the partner's.
fn data_behind(m: &[u8], field: Field, other: u16) -> Result<Grabbed, Refused>
    requires { (field.start ≤ field.end) × (field.end < length m.now) }
    ensures { (B : List Record) (at : ℕ) → other ≡ partner B field.tag → Stands m.now at field.tag field.start field.end
        → Takes B m.now at (data_of B field.tag (between m.now field.start field.end) (drop (field.end + 1) m.now) (cut 61 (drop (field.end + 1) m.now))) result }
{
    let at = field.end + 1;
    if m.len() <= at {
        return Err(Refusal::Pair.at(at));
    }
    let n = tag_at(m, at).ok_or(Refusal::Form.at(at))?;
    if n.value != usize::from(other) {
        return Err(Refusal::Pair.at(at));
    }
    data_at(m, field, other, n.end + 1)
}

// The field at a place, if it is of its datatype, and the data behind it where it is a Length.
fn typed(m: &[u8], at: usize, field: Field, known: Option<Declared>) -> Result<Grabbed, Refused>
    requires { (field.start ≤ field.end) × (field.end < length m.now) }
    ensures { (B : List Record) → Known B field.tag (type_told known) (partner_told known) → Stands m.now at field.tag field.start field.end
        → Takes B m.now at (valued B field.tag (drop at m.now) (cut_at (between m.now field.start field.end) (drop (field.end + 1) m.now))) result }
{
    let wrong = Refusal::Datatype.at(at);
    let Some(known) = known else {
        return Err(wrong);
    };
    let Ok(datatype) = Datatype::try_from(known.datatype) else {
        return Err(wrong);
    };
    if !datatype.accepts(&m[field.start..field.end]) {
        return Err(wrong);
    }
    if known.is(Datatype::Length) {
        return data_behind(m, field, known.partner);
    }
    Ok(Grabbed::Single { field, datatype })
}

// The field from a place on, and the data behind it where it is a Length.
pub fn grab(book: &[u8], m: &[u8], at: usize) -> Result<Grabbed, Refused>
    ensures { Takes (records book.now) m.now at (grab (records book.now) (drop at m.now)) result }
{
    let form = Refusal::Form.at(at);
    let n = tag_at(m, at).ok_or(form)?;
    let Ok(tag) = u16::try_from(n.value) else {
        return Err(form);
    };
    let known = declared(book, tag);
    if known.is_some_and(|d| d.is(Datatype::Data)) {
        return Err(Refusal::Pair.at(at));
    }
    let start = n.end + 1;
    let (value, _) = cut(&m[start..]).filter(|f| !f.0.is_empty()).ok_or(form)?;
    let end = start + value.len();
    typed(m, at, Field { tag, start, end }, known)
}
