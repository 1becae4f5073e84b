// The message's own list: "Fields of the message's own list come in any order, each at most once".
ghost use Rattle.std.specs.Prelude.{◌≡◌, ◌≤◌, ℕ, List, [], length, drop};
ghost use Rattle.book.specs.Records.{members_of, records};
ghost use Rattle.message.specs.Permitted.{none, lacking};
ghost use Rattle.reader.specs.Filling.{f_ending, f_items};
ghost use Rattle.reader.specs.Marked.{Marked};
ghost use Rattle.reader.specs.Met.{page_of, Begun, Spare, opened_of, Says, Meets};

use crate::closing::{Group, Head, Watch, refuse};
use crate::fields::peek;
use crate::items::{group, take};
use crate::lists::lists_tag;
use crate::marks::Marks;
use crate::refusal::{Refusal, Refused};
use crate::{Scan, Spot, Step, Within};

// No group is open.
#[tactic(auto, unfolding(book::specs::Records::members_of))]
fn no_group<'a>(scan: &Scan<'a>) -> Group<'a>
    ensures { Spare (opened_of result) }
{
    Group {
        page: scan.page,
        list: &[],
        around: [&[]; 4],
    }
}

// At the end: a required member of the message that is missing.
fn ending(scan: &Scan, marks: &Marks, spot: Spot) -> Result<Step, Refused>
    ensures { (seen : List ℕ) → Marked marks.now.bits (members_of scan.now.page.own.now) seen
        → Says [] spot.at spot.row (f_ending (page_of scan.now.page) scan.now.watch (lacking (records scan.now.page.book.now) none (members_of scan.now.page.own.now) seen) spot.at) result }
{
    match marks.lacking(scan.page.book, scan.page.own) {
        Some(tag) => Err(Refusal::Missing(tag).at(spot.at)),
        None => Ok(Step::Done {
            at: spot.at,
            row: spot.row,
        }),
    }
}

pub(crate) fn own<'a>(
    scan: &Scan<'a>,
    spot: Spot,
    index: &mut [u16],
    bytes: &mut [u8],
) -> Result<Step, Refused>
    requires { Begun scan.now spot }
    ensures { Meets 0 scan.now.m.now spot.at spot.row (f_items (page_of scan.now.page) scan.now.watch spot.at spot.row (drop spot.at scan.now.m.now))
        result index.old index.new bytes.old bytes.new }
{
    let none = no_group(scan);
    let mut marks = Marks::none();
    let mut spot = spot;
    while spot.at < scan.m.len() {
        let tag = peek(scan.m, spot.at);
        // A data is in the list too, but no field begins with it: the field reader refuses it as this would, with no second look-up.
        if !lists_tag(scan.page.own, tag) {
            let head = Head { tag, at: spot.at };
            return refuse(&scan.page, &[], head, Watch::new(scan.watch));
        }
        if marks.has(scan.page.own, tag) {
            return Err(Refusal::Twice.at(spot.at));
        }
        let within = Within::message();
        let taken = take(scan, within, spot, index, bytes)?;
        let step = match taken.count {
            None => Step::Done {
                at: taken.next.at,
                row: taken.next.row,
            },
            Some(field) => group(scan, &none, 4, within, spot, field, index, bytes)?,
        };
        let Step::Done { at, row } = step else {
            return Ok(step);
        };
        marks.mark(scan.page.own, tag);
        spot = Spot { at, row };
    }
    ending(scan, &marks, spot)
}
