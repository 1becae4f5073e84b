// The fields between 35 and 10: "an instance may hold a further group". Group reader and instance reader call each other, and at every call
// the depth that is left and the bytes left together fall.
ghost use Rattle.std.specs.Prelude.{◌≡◌, ◌+◌, ◌≤◌, ◌<◌, length, drop};
ghost use Rattle.numbers.specs.Decimal.{value};
ghost use Rattle.book.specs.Records.{records};
ghost use Rattle.reader.specs.Filling.{put_row, put_rows, row_numbers, row_bytes, f_item, f_inst, f_group};
ghost use Rattle.reader.specs.Taken.{between, Stands};
ghost use Rattle.reader.specs.Met.{page_of, outer_by, inner_by, opened_of, ends_by, list_of, count_in, grab_rows, grab_end, field_row, AllShort, Ready, Took, Meets};

use crate::closing::{Group, Head, Watch};
use crate::fields::{count_of, grab, peek};
use crate::lists::{is_first, seek};
use crate::refusal::{Refusal, Refused};
use crate::rows::put_row;
use crate::{Field, Grabbed, Scan, Spot, Step, Within};
use book::lookup::group_list;
use forms::Datatype;
use message::Row;

pub(crate) fn put_field(
    field: Field,
    within: Within,
    row: usize,
    index: &mut [u16],
    bytes: &mut [u8],
)
    requires { (field.start ≤ field.end) × (field.end < 65535) × (row ≤ 8192) }
    ensures { (index.new ≡ put_row 6 row_numbers index.old row (field_row within field))
        × (bytes.new ≡ put_row 12 row_bytes bytes.old row (field_row within field)) }
{
    let stated = Row {
        tag: field.tag,
        start: field.start as u16,
        length: (field.end - field.start) as u16,
        depth: within.depth,
        count: within.count,
        instance: within.instance,
    };
    put_row(index, bytes, row, stated);
}

// Puts down what was taken off, a row or two, and tells what comes behind it.
fn put_taken(
    taken: Grabbed,
    within: Within,
    row: usize,
    index: &mut [u16],
    bytes: &mut [u8],
) -> Spot
    requires { AllShort taken × (row ≤ 8191) }
    ensures { (index.new ≡ put_rows 6 row_numbers index.old row (grab_rows within taken))
        × (bytes.new ≡ put_rows 12 row_bytes bytes.old row (grab_rows within taken))
        × (result ≡ record { at = grab_end taken; row = row + length (grab_rows within taken) }) }
{
    match taken {
        Grabbed::Single { field, .. } => {
            put_field(field, within, row, index, bytes);
            Spot {
                at: field.end + 1,
                row: row + 1,
            }
        }
        Grabbed::Pair { length, data } => {
            put_field(length, within, row, index, bytes);
            put_field(data, within, row + 1, index, bytes);
            Spot {
                at: data.end + 1,
                row: row + 2,
            }
        }
    }
}

// The count's own field, where a count was taken off.
fn count_in(taken: Grabbed) -> Option<Field>
    ensures { result ≡ count_in taken }
{
    match taken {
        Grabbed::Single { field, datatype } if datatype == Datatype::NumInGroup => Some(field),
        _ => None,
    }
}

// What was taken off and put down: what comes behind it, and the count's own field if it was a count.
#[derive(Clone, Copy, Debug, PartialEq, Eq)]
pub(crate) struct Taken {
    pub next: Spot,
    pub count: Option<Field>,
}

// Takes a field off, or a Length with its data, and puts it down. It stays a call, so that what it holds is not held at each level of groups.
#[inline(never)]
pub(crate) fn take(
    scan: &Scan,
    within: Within,
    spot: Spot,
    index: &mut [u16],
    bytes: &mut [u8],
) -> Result<Taken, Refused>
    requires { (length scan.now.m.now ≤ 8192) × (spot.row ≤ spot.at) }
    ensures { Took (records scan.now.page.book.now) scan.now.m.now within spot result index.old index.new bytes.old bytes.new }
{
    let taken = grab(scan.page.book, scan.m, spot.at)?;
    Ok(Taken {
        next: put_taken(taken, within, spot.row, index, bytes),
        count: count_in(taken),
    })
}

// The group reader: behind the count's own field, which stands at the spot and is put down, its instances.
#[cycle(items)]
pub(crate) fn group<'a>(
    scan: &Scan<'a>,
    outer: &Group<'a>,
    depth: usize,
    within: Within,
    spot: Spot,
    field: Field,
    index: &mut [u16],
    bytes: &mut [u8],
) -> Result<Step, Refused>
    requires { Ready scan.now (opened_of outer.now) depth spot × (within.depth + depth ≤ 4) × Stands scan.now.m.now spot.at field.tag field.start field.end }
    ensures { Meets 0 scan.now.m.now (field.end + 1) (spot.row + 1)
        (f_group (page_of scan.now.page) scan.now.watch (f_item (page_of scan.now.page) scan.now.watch depth) (outer_by scan.now.page (opened_of outer.now))
        field.tag (value (between scan.now.m.now field.start field.end)) within.depth (field.end + 1) spot.row (drop (field.end + 1) scan.now.m.now))
        result index.old index.new bytes.old bytes.new }
{
    let inner = Group {
        page: scan.page,
        list: group_list(scan.page.book, field.tag),
        around: outer.opened(),
    };
    let mut next = Spot {
        at: field.end + 1,
        row: spot.row + 1,
    };
    for done in 0..count_of(scan.m, field.start, field.end) {
        let inside = Within {
            depth: within.depth + 1,
            count: spot.row as u16,
            instance: done as u16 + 1,
        };
        let step = instance(scan, &inner, depth, inside, next, index, bytes)?;
        let Step::Done { at, row } = step else {
            return Ok(step);
        };
        next = Spot { at, row };
    }
    inner.end(peek(scan.m, next.at), next)
}

// The instance reader: down the group's list, from its first member on.
#[cycle(items)]
fn instance<'a>(
    scan: &Scan<'a>,
    group: &Group<'a>,
    depth: usize,
    within: Within,
    spot: Spot,
    index: &mut [u16],
    bytes: &mut [u8],
) -> Result<Step, Refused>
    requires { Ready scan.now group.now.around depth spot × (within.depth + depth ≤ 5) × (group.now.page ≡ scan.now.page) }
    ensures { Meets 1 scan.now.m.now spot.at spot.row
        (f_inst (page_of group.now.page) scan.now.watch (f_item (page_of group.now.page) scan.now.watch depth (inner_by group.now) within.depth within.count within.instance)
        (list_of group.now) (ends_by group.now) (list_of group.now) spot.at spot.row (drop spot.at scan.now.m.now)) result index.old index.new bytes.old bytes.new }
{
    let mut tag = peek(scan.m, spot.at);
    if !is_first(group.list, tag) {
        return group.no_first(Head { tag, at: spot.at }, scan.watch);
    }
    let Some(below) = depth.checked_sub(1) else {
        return Err(Refusal::Place.at(spot.at));
    };
    let mut spot = spot;
    let mut place = 4;
    let mut missing = None;
    let mut watch = Watch::new(scan.watch);
    loop {
        watch = watch.seen(tag);
        let taken = take(scan, within, spot, index, bytes)?;
        let step = match taken.count {
            None => Step::Done {
                at: taken.next.at,
                row: taken.next.row,
            },
            Some(field) => self::group(scan, group, below, within, spot, field, index, bytes)?,
        };
        let Step::Done { at, row } = step else {
            return Ok(step);
        };
        spot = Spot { at, row };
        tag = peek(scan.m, at);
        let sought = seek(group.page.book, group.list, place, tag, missing);
        missing = sought.missing;
        let Some(behind) = sought.place else {
            return group.close(Head { tag, at }, watch, missing, row);
        };
        place = behind;
    }
}
