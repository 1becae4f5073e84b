// Questions on member lists. A tag is a u32: 0 stands for the end, 65,536 for every larger one, 65,537 where none stands.
// kept: tags are u32, since the public functions answer for every u32, and a narrower type would ask more of a caller.
ghost use Rattle.std.specs.Prelude.{◌≡◌, ◌≤◌, ◌<◌, true, IfSome, length, drop};
ghost use Rattle.book.specs.Records.{members_of, records, is_bounded};
ghost use Rattle.book.specs.Lists.{member_in};
ghost use Rattle.message.specs.Permitted.{has_tag, note};
ghost use Rattle.reader.specs.Items.{is_first, stands_in, stands_under};
ghost use Rattle.reader.specs.Filling.{seek_in};
ghost use Rattle.reader.specs.Met.{miss_of, sought_in};

use crate::Sought;
use book::list::{Member, Members};
use book::lookup::{group_list, is_of};
use forms::Datatype;

pub fn has_tag(list: &[u8], tag: u32) -> bool
    ensures { result ≡ has_tag tag (members_of list.now) }
{
    Members::of(list).any(|m| tag == u32::from(m.tag))
}

// The same, for one who asks on: a tag in a list is at most 65,535.
pub(crate) fn lists_tag(list: &[u8], tag: u32) -> bool
    ensures { (result ≡ has_tag tag (members_of list.now)) × (result ≡ true → tag < 65536) }
{
    has_tag(list, tag)
}

pub fn is_first(list: &[u8], tag: u32) -> bool
    ensures { result ≡ is_first (members_of list.now) tag }
{
    Members::of(list)
        .next()
        .is_some_and(|m| tag == u32::from(m.tag))
}

pub fn is_bounded(book: &[u8], tag: u32) -> bool
    ensures { result ≡ is_bounded (records book.now) tag }
{
    let Ok(tag) = u16::try_from(tag) else {
        return false;
    };
    is_of(book, tag, Datatype::Data)
}

// The first required member that is missing stays noted; a data stands and falls with its Length.
#[tactic(auto, unfolding(message::specs::Permitted::note))]
fn noted(book: &[u8], missing: Option<u32>, m: Member) -> Option<u32>
    ensures { miss_of result ≡ note (records book.now) (miss_of missing) (member_in m) }
{
    let tag = u32::from(m.tag);
    if missing.is_none() && m.flag == 1 && !is_bounded(book, tag) {
        return Some(tag);
    }
    missing
}

// Down a list from a place on, to the member with that tag.
pub fn seek(book: &[u8], list: &[u8], from: usize, tag: u32, mut missing: Option<u32>) -> Sought
    requires { from ≤ length list.now }
    ensures walked { sought_in list.now result ≡ seek_in (records book.now) (miss_of missing) (members_of (drop from list.now)) tag }
    ensures inside { IfSome result.place (λ place. place ≤ length list.now) }
{
    // kept: the place behind the member is counted, since enumerate gives an index and the place would be from + 4 * (i + 1).
    let mut at = from;
    for m in Members::of(&list[from..]) {
        at += 4;
        if tag == u32::from(m.tag) {
            return Sought {
                place: Some(at),
                missing,
            };
        }
        missing = noted(book, missing, m);
    }
    Sought {
        place: None,
        missing,
    }
}

// Whether the tag stands in the list, or in a group opened below it, so many levels deep at most.
pub(crate) fn stands_in(book: &[u8], list: &[u8], tag: u32, depth: usize) -> bool
    ensures { result ≡ stands_in (stands_under (records book.now) depth tag) tag (members_of list.now) }
{
    for m in Members::of(list) {
        if tag == u32::from(m.tag) {
            return true;
        }
        if depth > 0
            && is_of(book, m.tag, Datatype::NumInGroup)
            && stands_in(book, group_list(book, m.tag), tag, depth - 1)
        {
            return true;
        }
    }
    false
}
