// The records of a book, and what each of them holds.
ghost use Rattle.std.specs.Prelude.{◌≡◌, ◌≤◌, ℕ, ◌&&◌, not, List, MatchOption, eqb, length, drop};
ghost use Rattle.numbers.specs.Bytes.{le16};
ghost use Rattle.book.specs.Records.{size, stop, kind_of, member_bytes, members_of, records, is_kind, is_message, look_up};
ghost use Rattle.book.specs.Walked.{kind_number, kind_in, record_in, records_at};

use crate::Declared;
use numbers::{part, u16_at};

// The kinds of records, each with its number in the book.
#[derive(Clone, Copy, Debug, PartialEq, Eq)]
pub enum Kind {
    Field = 1,
    Message = 2,
    Group = 3,
}

impl From<Kind> for u16 {
    ghost from_gives = { λ k n. n ≡ kind_number k };

    fn from(k: Kind) -> u16 {
        k as u16
    }
}

// A record: its offset, and the book's bytes from there on.
#[derive(Clone, Copy, Debug)]
pub struct Record<'a> {
    pub offset: usize,
    pub(crate) bytes: &'a [u8],
}

// The bytes that the record at the head takes, where one stands there whole.
#[tactic(auto, unfolding(crate::specs::Records::size))]
pub fn record_size(s: &[u8]) -> Option<usize>
    ensures { MatchOption result (size s.now ≡ 0) (λ n. (size s.now ≡ n) × (2 ≤ n)) }
{
    let [low, high, ..] = s else {
        return None;
    };
    let n = usize::from(u16::from_le_bytes([*low, *high]));
    if 2 <= n && 2 + n <= s.len() {
        return Some(2 + n);
    }
    None
}

// Whether the record at the head takes ten bytes.
// kept: record_size says it too; this way it is one comparison where the bytes are known to be there.
#[tactic(auto, using(crate::proofs::Look::takes_ten, crate::proofs::Look::too_short))]
fn takes_ten(s: &[u8]) -> bool
    ensures { result ≡ eqb (size s.now) 10 }
{
    10 <= s.len() && u16_at(s, 0) == 8
}

#[tactic(auto, unfolding(crate::specs::Records::kind_of))]
fn kind_of(n: u16, k: u16) -> Option<Kind>
    ensures { kind_in result ≡ kind_of n k }
{
    match k {
        1 if n == 8 => Some(Kind::Field),
        2 if 6 <= n && n % 4 == 2 => Some(Kind::Message),
        3 if 8 <= n && n % 4 == 0 => Some(Kind::Group),
        _ => None,
    }
}

// The kind of the record at the head, None for another kind or for a length that its kind does not have.
pub fn record_kind(s: &[u8]) -> Option<Kind>
    ensures { kind_in result ≡ kind_of (le16 s.now) (le16 (drop 2 s.now)) }
{
    kind_of(u16_at(s, 0), u16_at(s, 2))
}

// The bytes of the members of the record at the head.
pub fn record_members<'a>(s: &'a [u8]) -> &'a [u8]
    ensures { result.now ≡ member_bytes (le16 s.now) (le16 (drop 2 s.now)) s.now }
{
    let n = usize::from(u16_at(s, 0));
    if u16_at(s, 2) == u16::from(Kind::Message) {
        return part(s, 8, n.saturating_sub(6));
    }
    part(s, 6, n.saturating_sub(4))
}

#[tactic(auto, unfolding(crate::specs::Records::record_at))]
impl<'a> Record<'a> {
    pub(crate) fn kind(self) -> Option<Kind>
        ensures { kind_in result ≡ (record_in self.entry).kind }
    {
        record_kind(self.bytes)
    }

    pub(crate) fn is(self, kind: Kind) -> bool
        ensures { result ≡ eqb (record_in self.entry).kind (kind_number kind) }
    {
        self.kind() == Some(kind)
    }

    // kept: u16_at alone says the same; this way a step of a scan tests the length once.
    pub(crate) fn tag(self) -> u16
        ensures { result ≡ (record_in self.entry).tag }
    {
        match self.bytes {
            [_, _, _, _, low, high, ..] => u16::from_le_bytes([*low, *high]),
            short => u16_at(short, 4),
        }
    }

    // The tag first: it decides nearly every step of a scan.
    pub(crate) fn is_tagged(self, kind: Kind, tag: u16) -> bool
        ensures { result ≡ is_kind (kind_number kind) tag (record_in self.entry) }
    {
        self.tag() == tag && self.is(kind)
    }

    // Whether it takes ten bytes, as a field does, and is not of that kind and tag.
    pub(crate) fn is_other(self, kind: Kind, tag: u16) -> bool
        ensures { result ≡ (eqb (size self.entry.bytes.now) 10 && not (is_kind (kind_number kind) tag (record_in self.entry))) }
    {
        takes_ten(self.bytes) && !self.is_tagged(kind, tag)
    }

    pub(crate) fn declares(self) -> Declared
        ensures { (result.datatype ≡ (record_in self.entry).type) × (result.partner ≡ (record_in self.entry).partner) }
    {
        Declared {
            datatype: u16_at(self.bytes, 6),
            partner: u16_at(self.bytes, 8),
        }
    }

    pub(crate) fn text(self) -> &'a [u8]
        ensures { result.now ≡ (record_in self.entry).text }
    {
        part(self.bytes, 4, 4)
    }

    // The bytes of its members.
    pub(crate) fn list(self) -> &'a [u8]
        ensures { members_of result.now ≡ (record_in self.entry).members }
    {
        record_members(self.bytes)
    }
}

// An offset up to which a book has only records that take ten bytes, as fields do, and are not of that kind and tag.
// kept: next steps over them too; but most of a book is such, and here a step has no size to work out, and two have one test of the end.
// It is not inlined, since the check's stack has no room for that.
#[inline(never)]
pub(crate) fn past_others(book: &[u8], kind: Kind, tag: u16) -> usize
    ensures inside { result ≤ length book.now }
    ensures same { look_up (is_kind (kind_number kind) tag) (records_at result (drop result book.now)) ≡ look_up (is_kind (kind_number kind) tag) (records book.now) }
    ensures messages { (text : List ℕ) → look_up (is_message text) (records_at result (drop result book.now)) ≡ look_up (is_message text) (records book.now) }
{
    let mut at = 0;
    let mut rest = book;
    while 20 <= rest.len()
        && (Record {
            offset: at,
            bytes: rest,
        })
        .is_other(kind, tag)
        && (Record {
            offset: at + 10,
            bytes: &rest[10..],
        })
        .is_other(kind, tag)
    {
        at += 20;
        rest = &rest[20..];
    }
    at
}

// Rule 1: the offset at which no record can be taken.
// kept: that offset is no item of Records, and the last record's offset and size would have to be asked for again.
pub fn first_bad_record(book: &[u8]) -> usize
    ensures { result ≡ stop book.now }
{
    let mut at = 0;
    while let Some(n) = record_size(&book[at..]) {
        at += n;
    }
    at
}
