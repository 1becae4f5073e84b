// The check: rules 1 to 9 in their order.
ghost use Rattle.std.specs.Prelude.{◌≡◌, Bool, List, ℕ, ◌<◌};
ghost use Rattle.numbers.specs.Bits.{bit_at};
ghost use Rattle.book.specs.Records.{members_of, records, is_found, look_up};
ghost use Rattle.book.specs.Records as spec;
ghost use Rattle.book.specs.Rules.{open_list, open_group, rule9};
ghost use Rattle.book.specs.Check.{first, rule_of, rules_from, check};
ghost use Rattle.book.specs.Walked.{record_in};
ghost use Rattle.book.specs.Answers.{rule_number, told, is_marked, Grouped, Seen, Opens};

use crate::groups::{Groups, list_groups};
use crate::list::Members;
use crate::records::{Kind, Record, first_bad_record};
use crate::rules::{Declaring, Pairing, breaks_2, breaks_4, breaks_7, breaks_8, never_a_field};
use crate::scan::Records;
use crate::{Declared, Map};
use forms::Datatype;
use numbers::bits::{mark, test};

// A rule of document 01 goes by its number.
#[derive(Clone, Copy, Debug, PartialEq, Eq)]
pub enum Rule {
    R1 = 1,
    R2 = 2,
    R3 = 3,
    R4 = 4,
    R5 = 5,
    R6 = 6,
    R7 = 7,
    R8 = 8,
    R9 = 9,
}

impl From<Rule> for u16 {
    ghost from_gives = { λ r n. n ≡ rule_number r };

    fn from(r: Rule) -> u16 {
        r as u16
    }
}

// The lowest rule broken, and the offset of the first record that breaks it.
#[derive(Clone, Copy, Debug, PartialEq, Eq)]
pub struct Broken {
    pub rule: Rule,
    pub offset: usize,
}

// Puts into the map the tags of the fields whose datatype is picked.
// kept: book and map go side by side here and in the functions that only hand both on, where the map is plain memory, to be filled anew; for
// rules 5 and 6, which read it, Declaring and Pairing lend both.
fn mark_fields<F: Fn(Declared) -> bool>(book: &[u8], map: &mut Map, picks: F)
    requires { F.IsAlwaysCallable picks }
    ensures { (p : ℕ → Bool) → ((d : _) (b : Bool) → F.post picks d b → b ≡ p d.datatype)
        → (t : ℕ) → t < 65536 → bit_at map.new t ≡ is_found (look_up (is_marked p t) (records book.now)) }
{
    map.fill(0);
    for r in Records::of(book) {
        if !r.is(Kind::Field) {
            continue;
        }
        if picks(r.declares()) {
            mark(map, usize::from(r.tag()));
        }
    }
}

// The first record that breaks a rule.
fn first_break<F: Fn(Record) -> bool>(book: &[u8], rule: Rule, breaks: F) -> Result<(), Broken>
    requires { F.IsAlwaysCallable breaks }
    ensures { (p : spec.Record → Bool) → ((r : _) (b : Bool) → F.post breaks r b → b ≡ p (record_in r))
        → told result ≡ first (rule_number rule) p (records book.now) }
{
    match Records::of(book).find(|r| breaks(*r)) {
        Some(first) => Err(Broken {
            rule,
            offset: first.offset,
        }),
        None => Ok(()),
    }
}

// Opens a list with its groups, so many levels deep at most; whether a tag stands twice or a group too deep.
// kept: groups and map go side by side, though the map means something: the tags seen so far. Each member adds one, so a struct that says them
// would be made anew for each member and for each group below.
fn open_list(groups: &Groups, list: &[u8], depth: usize, map: &mut Map) -> bool
    ensures { (seen : List ℕ) → Seen map.old seen
        → Opens (open_list (open_group (records groups.now.book.now) depth) seen (members_of list.now)) result map.new }
{
    for m in Members::of(list) {
        let tag = usize::from(m.tag);
        if test(map, tag) {
            return true;
        }
        mark(map, tag);
        let Some(group) = groups.find(m.tag) else {
            continue;
        };
        if depth == 0 {
            return true;
        }
        if open_list(groups, group.list(), depth - 1, map) {
            return true;
        }
    }
    false
}

fn breaks_9(groups: &Groups, r: Record, map: &mut Map) -> bool
    ensures { result ≡ rule9 (records groups.now.book.now) (record_in r.entry) }
{
    if !r.is(Kind::Message) {
        return false;
    }
    map.fill(0);
    open_list(groups, r.list(), 4, map)
}

// Rule 9, of a book whose counts are just the tags that have a group.
// kept: a closure that writes into the one map did not prove as first_break's; with a map of its own the check's stack was 16 KiB, over 10.
fn first_nested(book: &[u8], map: &mut Map) -> Result<(), Broken>
    requires { Grouped (records book.now) }
    ensures { told result ≡ first 9 (rule_of 9 (records book.now)) (records book.now) }
{
    let mut offsets = [0; 680];
    let groups = list_groups(book, &mut offsets);
    for r in Records::of(book) {
        if breaks_9(&groups, r, map) {
            return Err(Broken {
                rule: Rule::R9,
                offset: r.offset,
            });
        }
    }
    Ok(())
}

// Rule 3, over a map of the tags that the fields before declare.
fn first_repeated(book: &[u8], map: &mut Map) -> Result<(), Broken>
    ensures { told result ≡ first 3 (rule_of 3 (records book.now)) (records book.now) }
{
    map.fill(0);
    for r in Records::of(book) {
        if !r.is(Kind::Field) {
            continue;
        }
        let tag = r.tag();
        if never_a_field(tag) | test(map, usize::from(tag)) {
            return Err(Broken {
                rule: Rule::R3,
                offset: r.offset,
            });
        }
        mark(map, usize::from(tag));
    }
    Ok(())
}

// Rule 5, over a map of the declared tags.
fn first_undeclared(book: &[u8], map: &mut Map) -> Result<(), Broken>
    ensures { told result ≡ first 5 (rule_of 5 (records book.now)) (records book.now) }
{
    mark_fields(book, map, |_| true);
    let fields = Declaring { book, map };
    first_break(book, Rule::R5, |r| fields.breaks_5(r))
}

// Rule 6, over a map of the tags that are a Length or a data.
fn first_unpaired(book: &[u8], map: &mut Map) -> Result<(), Broken>
    ensures { told result ≡ first 6 (rule_of 6 (records book.now)) (records book.now) }
{
    mark_fields(
        book,
        map,
        |d| d.is(Datatype::Length) || d.is(Datatype::Data),
    );
    let pairs = Pairing { book, map };
    first_break(book, Rule::R6, |r| pairs.breaks_6(r))
}

// A rule is asked only where all lower ones hold.
fn rules(book: &[u8], map: &mut Map) -> Result<(), Broken>
    ensures { told result ≡ rules_from 8 2 (records book.now) }
{
    first_break(book, Rule::R2, |r| breaks_2(r))?;
    first_repeated(book, map)?;
    first_break(book, Rule::R4, |r| breaks_4(book, r))?;
    first_undeclared(book, map)?;
    first_unpaired(book, map)?;
    first_break(book, Rule::R7, |r| breaks_7(r))?;
    first_break(book, Rule::R8, |r| breaks_8(book, r))?;
    first_nested(book, map)
}

#[tactic(auto, using(crate::proofs::Checks::check_over, crate::proofs::Checks::check_torn, crate::proofs::Checks::check_rules))]
pub fn check(book: &[u8]) -> Result<(), Broken>
    ensures { told result ≡ check book.now }
{
    if 16384 < book.len() {
        return Err(Broken {
            rule: Rule::R1,
            offset: 0,
        });
    }
    let end = first_bad_record(book);
    if end != book.len() {
        return Err(Broken {
            rule: Rule::R1,
            offset: end,
        });
    }
    rules(book, &mut [0; 8192])
}
