// Rules 2 to 8: whether a record breaks one. A map holds a bit for each tag.
ghost use Rattle.std.specs.Prelude.{◌≡◌, cond, ◌&&◌, List, [], ◌∷◌, ℕ, eqb};
ghost use Rattle.numbers.specs.Bytes.{mem};
ghost use Rattle.forms.specs.Numbered.{number_of};
ghost use Rattle.book.specs.Records.{members_of, records, type_of, partner, is_length, is_count, is_bounded, is_group, look_up};
ghost use Rattle.book.specs.Records as spec;
ghost use Rattle.book.specs.Rules.{good_type_text, first_at, partnered, good_members, paired, starts_required, rule2, rule4, rule5, rule6, rule7, rule8};
ghost use Rattle.book.specs.Walked.{record_in};
ghost use Rattle.book.specs.Answers.{look_of, type_told, partner_told, Declares, Pairs};

use crate::list::{Member, Members};
use crate::lookup::{declared, find_message, find_of, has_group, is_count, type_text};
use crate::records::{Kind, Record};
use crate::{Declared, Map};
use forms::Datatype;
use numbers::bits::test;
use numbers::rest;

// A type text: printable bytes, then zeros.
fn good_type_text(w: &[u8]) -> bool
    ensures { result ≡ good_type_text w.now }
{
    let text = type_text(w);
    let is_printable = text.iter().all(|b| b.is_ascii_graphic());
    let is_filled = rest(w, text.len()).iter().all(|b| *b == 0);
    !text.is_empty() & is_printable & is_filled
}

// Whether what was found, if anything was, is this record.
#[tactic(auto, unfolding(crate::specs::Records::record_at))]
fn is_first(found: Option<Record>, r: Record) -> bool
    ensures { result ≡ first_at (look_of found.entry) (record_in r.entry).offset }
{
    found.is_none_or(|first| first.offset == r.offset)
}

#[tactic(auto, unfolding(crate::specs::Rules::rule2))]
pub fn breaks_2(r: Record) -> bool
    ensures { result ≡ rule2 (record_in r.entry) }
{
    match r.kind() {
        None => true,
        Some(Kind::Message) => !good_type_text(r.text()),
        Some(_) => false,
    }
}

#[tactic(auto, unfolding(numbers::specs::Bytes::mem))]
pub fn never_a_field(tag: u16) -> bool
    ensures { result ≡ mem tag (0 ∷ 8 ∷ 9 ∷ 35 ∷ 10 ∷ []) }
{
    matches!(tag, 0 | 8 | 9 | 35 | 10)
}

// Whether partner p is declared as t, and names the tag back.
fn names_back(book: &[u8], p: u16, t: Datatype, tag: u16) -> bool
    ensures { result ≡ (eqb (type_of (records book.now) p) (number_of t) && eqb (partner (records book.now) p) tag) }
{
    declared(book, p).is_some_and(|d| d.is(t) && d.partner == tag)
}

#[tactic(auto, unfolding(crate::specs::Rules::partnered))]
fn good_partner(book: &[u8], tag: u16, d: Declared) -> bool
    ensures { result ≡ partnered (records book.now) tag d.datatype d.partner }
{
    if d.is(Datatype::Length) {
        return names_back(book, d.partner, Datatype::Data, tag);
    }
    if d.is(Datatype::Data) {
        return names_back(book, d.partner, Datatype::Length, tag);
    }
    d.partner == 0
}

#[tactic(auto, unfolding(crate::specs::Rules::rule4))]
pub fn breaks_4(book: &[u8], r: Record) -> bool
    ensures { result ≡ rule4 (records book.now) (record_in r.entry) }
{
    let d = r.declares();
    r.is(Kind::Field) && !(Datatype::try_from(d.datatype).is_ok() && good_partner(book, r.tag(), d))
}

// A book, and a map that holds the tags that it declares.
#[derive(Clone, Copy)]
pub struct Declaring<'a> {
    pub book: &'a [u8],
    pub map: &'a Map,
    pub ghost holds: { Declares map.now (records book.now) },
}

impl<'a> Declaring<'a> {
    fn good_members(self, list: &[u8]) -> bool
        ensures { result ≡ good_members (records self.entry.book.now) (members_of list.now) }
    {
        Members::of(list).all(|m| test(self.map, usize::from(m.tag)) && m.flag <= 1)
    }

    fn good_group(self, r: Record) -> bool
        ensures { result ≡ (good_members (records self.entry.book.now) (record_in r.entry).members
            && (is_count (records self.entry.book.now) (record_in r.entry).tag
            && first_at (look_up (is_group (record_in r.entry).tag) (records self.entry.book.now)) (record_in r.entry).offset)) }
    {
        self.good_members(r.list())
            && is_count(self.book, r.tag())
            && is_first(find_of(self.book, Kind::Group, r.tag()), r)
    }

    #[tactic(auto, unfolding(crate::specs::Rules::rule5))]
    pub fn breaks_5(self, r: Record) -> bool
        ensures { result ≡ rule5 (records self.entry.book.now) (record_in r.entry) }
    {
        match r.kind() {
            None => false,
            Some(Kind::Field) => r.declares().is(Datatype::NumInGroup)
                && !has_group(self.book, r.tag()),
            Some(Kind::Message) => !self.good_members(r.list()),
            Some(Kind::Group) => !self.good_group(r),
        }
    }
}

fn next_due(d: Option<Declared>) -> u16
    ensures { result ≡ cond (eqb (type_told d) 5) (partner_told d) 0 }
{
    match d {
        Some(d) if d.is(Datatype::Length) => d.partner,
        _ => 0,
    }
}

fn is_due(d: Option<Declared>, m: Member, due: u16, before: u16) -> bool
    ensures { result ≡ cond (eqb (type_told d) 10) (eqb m.tag due && eqb m.flag before) (eqb due 0) }
{
    if d.is_some_and(|d| d.is(Datatype::Data)) {
        return m.tag == due && m.flag == before;
    }
    due == 0
}

// A book, and a map outside which no tag is a Length or a data.
#[derive(Clone, Copy)]
pub struct Pairing<'a> {
    pub book: &'a [u8],
    pub map: &'a Map,
    pub ghost holds: { Pairs map.now (records book.now) },
}

impl<'a> Pairing<'a> {
    // What a tag is declared as, if that is a Length or a data.
    fn pair_of(self, tag: u16) -> Option<Declared>
        ensures { (eqb (type_told result) 10 ≡ is_bounded (records self.entry.book.now) tag)
            × (eqb (type_told result) 5 ≡ is_length (records self.entry.book.now) tag)
            × (type_told result ≡ 5 → partner_told result ≡ partner (records self.entry.book.now) tag) }
    {
        let map = self.map;
        if test(map, usize::from(tag)) {
            return declared(self.book, tag);
        }
        None
    }

    // kept: `due` is a partner in the book's form, 0 for none, as in the definition `paired`, where a Length whose partner is 0 awaits nothing.
    fn is_paired(self, list: &[u8]) -> bool
        ensures { result ≡ paired (records self.entry.book.now) 0 0 (members_of list.now) }
    {
        let mut due: u16 = 0;
        let mut before: u16 = 0;
        for m in Members::of(list) {
            let d = self.pair_of(m.tag);
            if !is_due(d, m, due, before) {
                return false;
            }
            due = next_due(d);
            before = m.flag;
        }
        due == 0
    }

    #[tactic(auto, unfolding(crate::specs::Rules::rule6))]
    pub fn breaks_6(self, r: Record) -> bool
        ensures { result ≡ rule6 (records self.entry.book.now) (record_in r.entry) }
    {
        matches!(r.kind(), Some(Kind::Message | Kind::Group)) && !self.is_paired(r.list())
    }
}

#[tactic(auto, unfolding(crate::specs::Rules::starts_required))]
fn starts_required(list: &[u8]) -> bool
    ensures { result ≡ starts_required (members_of list.now) }
{
    Members::of(list).next().is_some_and(|m| m.flag == 1)
}

#[tactic(auto, unfolding(crate::specs::Rules::rule7))]
pub fn breaks_7(r: Record) -> bool
    ensures { result ≡ rule7 (record_in r.entry) }
{
    r.is(Kind::Group) && !starts_required(r.list())
}

#[tactic(auto, unfolding(crate::specs::Rules::rule8))]
pub fn breaks_8(book: &[u8], r: Record) -> bool
    ensures { result ≡ rule8 (records book.now) (record_in r.entry) }
{
    r.is(Kind::Message) && !is_first(find_message(book, type_text(r.text())), r)
}
