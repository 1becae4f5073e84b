// What the book declares: total on any bytes, the first declaration wins.
ghost use Rattle.std.specs.Prelude.{◌≡◌, ℕ, true, eqb};
ghost use Rattle.numbers.specs.Bytes.{le16, same};
ghost use Rattle.forms.specs.Numbered.{number_of};
ghost use Rattle.book.specs.Records.{members_of, type_text, is_count, is_kind, is_field, is_group, is_message, is_found, members_in, look_up, type_of, partner, group_of, message_of, place_in, records};
ghost use Rattle.book.specs.Walked.{kind_number, record_in};
ghost use Rattle.book.specs.Answers.{found_in, look_of, type_told, partner_told, is_told};

use crate::Declared;
use crate::list::Members;
use crate::records::{Kind, Record};
use crate::scan::Records;
use forms::Datatype;
use numbers::u16_at;

// The first record of that kind and tag.
// kept: inlined, since the check's stack has no room for its answer at every level of groups.
#[inline]
pub(crate) fn find_of<'a>(book: &'a [u8], kind: Kind, tag: u16) -> Option<Record<'a>>
    ensures { look_of result ≡ look_up (is_kind (kind_number kind) tag) (records book.now) }
{
    Records::past_others(book, kind, tag).find(|r| r.is_tagged(kind, tag))
}

// The same of a kind's number, 0 for a record of no kind.
// kept: find_record is public and its clause answers for every number, 0 too, where a Kind asks more of a caller, so it has a scan of its own.
pub fn find_record<'a>(book: &'a [u8], kind: u16, tag: u16) -> Option<Record<'a>>
    ensures found { look_of result ≡ look_up (is_kind kind tag) (records book.now) }
    ensures place { found_in book.now result ≡ look_up (is_kind kind tag) (records book.now) }
{
    Records::of(book).find(|r| r.tag() == tag && r.kind().map_or(0, u16::from) == kind)
}

// A type text without the zeros that fill it up.
pub fn type_text<'a>(w: &'a [u8]) -> &'a [u8]
    ensures { result.now ≡ type_text w.now }
{
    &w[..w.iter().position(|b| *b == 0).unwrap_or(w.len())]
}

// Whether the record's type text may be that one, by its first two bytes, which are head, and the two behind them.
// kept: is_message says it without this; but two bytes decide nearly every step of a scan, with nothing cut and head read once.
fn may_be(r: Record, head: u16, text: &[u8]) -> bool
    ensures { head ≡ le16 text.now → same (type_text (record_in r.entry).text) text.now ≡ true → result ≡ true }
{
    (r.tag() == head || text.is_empty())
        && (text.len() < 3 || u16_at(r.bytes, 6) == u16_at(text, 2))
}

#[tactic(auto, using(numbers::proofs::Same::same_is_eq))]
fn is_message(r: Record, head: u16, text: &[u8]) -> bool
    ensures { head ≡ le16 text.now → result ≡ is_message text.now (record_in r.entry) }
{
    may_be(r, head, text) && r.is(Kind::Message) && type_text(r.text()) == text
}

// The first message of that type text. No record that takes ten bytes is a message, so the tag to stop at is any.
pub fn find_message<'a>(book: &'a [u8], text: &[u8]) -> Option<Record<'a>>
    ensures found { look_of result ≡ look_up (is_message text.now) (records book.now) }
    ensures place { found_in book.now result ≡ look_up (is_message text.now) (records book.now) }
{
    let head = u16_at(text, 0);
    Records::past_others(book, Kind::Message, 0).find(|r| is_message(*r, head, text))
}

#[tactic(auto, unfolding(crate::specs::Records::type_of, crate::specs::Records::partner))]
pub fn declared(book: &[u8], tag: u16) -> Option<Declared>
    ensures datatype { type_told result ≡ type_of (records book.now) tag }
    ensures partner { partner_told result ≡ partner (records book.now) tag }
    ensures found { is_told result ≡ is_found (look_up (is_field tag) (records book.now)) }
{
    find_of(book, Kind::Field, tag).map(|r| r.declares())
}

// Whether a tag is declared, and of that datatype.
pub fn is_of(book: &[u8], tag: u16, datatype: Datatype) -> bool
    ensures { result ≡ eqb (type_of (records book.now) tag) (number_of datatype) }
{
    declared(book, tag).is_some_and(|d| d.is(datatype))
}

pub(crate) fn is_count(book: &[u8], tag: u16) -> bool
    ensures { result ≡ is_count (records book.now) tag }
{
    is_of(book, tag, Datatype::NumInGroup)
}

pub fn has_group(book: &[u8], tag: u16) -> bool
    ensures { result ≡ is_found (look_up (is_group tag) (records book.now)) }
{
    find_of(book, Kind::Group, tag).is_some()
}

// The bytes of the members of a count's group.
#[tactic(auto, unfolding(crate::specs::Records::group_of, crate::specs::Records::members_of))]
pub fn group_list<'a>(book: &'a [u8], tag: u16) -> &'a [u8]
    ensures { members_of result.now ≡ group_of (records book.now) tag }
{
    find_of(book, Kind::Group, tag).map_or(&[], |r| r.list())
}

#[tactic(auto, unfolding(crate::specs::Records::message_of))]
pub fn has_message(book: &[u8], text: &[u8]) -> bool
    ensures { result ≡ is_found (message_of (records book.now) text.now) }
{
    find_message(book, text).is_some()
}

// The bytes of the members of a message's own list.
#[tactic(auto, unfolding(crate::specs::Records::message_of, crate::specs::Records::members_of))]
pub fn message_list<'a>(book: &'a [u8], text: &[u8]) -> &'a [u8]
    ensures { members_of result.now ≡ members_in (message_of (records book.now) text.now) }
{
    find_message(book, text).map_or(&[], |r| r.list())
}

// The place of a tag in a list of members' bytes.
// kept: where the list has no such tag it is the count of the members, as the clause says by place_in; there is always an answer.
pub fn place_in(list: &[u8], tag: u16) -> usize
    ensures { result ≡ place_in (members_of list.now) tag }
{
    Members::of(list)
        .position(|m| m.tag == tag)
        .unwrap_or(list.len() / 4)
}
