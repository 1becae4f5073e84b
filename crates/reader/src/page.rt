// Questions on a message's own list and on the groups that are open in it.
ghost use Rattle.std.specs.Prelude.{◌≡◌, ◌&&◌};
ghost use Rattle.book.specs.Records.{members_of, records, is_bounded};
ghost use Rattle.reader.specs.Items.{starts, has_place};
ghost use Rattle.reader.specs.Met.{page_of, outer_by};

use crate::Open;
use crate::lists::{has_tag, is_bounded, stands_in};

// A book, and the members of the message's own list.
#[derive(Clone, Copy, Debug)]
pub struct Page<'a> {
    pub book: &'a [u8],
    pub own: &'a [u8],
}

// kept: tags are u32, as in lists.
impl Page<'_> {
    // A field may begin with this tag in this list.
    pub fn begins(&self, list: &[u8], tag: u32) -> bool
        ensures { result ≡ starts (page_of self.now) (members_of list.now) tag }
    {
        has_tag(list, tag) && !is_bounded(self.book, tag)
    }

    // A field may begin with this tag in an open list, or the message ends.
    pub fn is_open(&self, groups: Open, tag: u32) -> bool
        ensures { result ≡ outer_by self.now groups.entry tag }
    {
        groups.iter().any(|list| self.begins(list, tag)) || tag == 0 || self.begins(self.own, tag)
    }

    #[tactic(auto, unfolding(crate::specs::Items::has_place))]
    pub fn has_place(&self, tag: u32) -> bool
        ensures { result ≡ has_place (page_of self.now) tag }
    {
        stands_in(self.book, self.own, tag, 4)
    }

    // A data with a place in this message, without its Length before it.
    pub(crate) fn is_unpaired(&self, tag: u32) -> bool
        ensures { result ≡ (is_bounded (records self.now.book.now) tag && has_place (page_of self.now) tag) }
    {
        is_bounded(self.book, tag) && self.has_place(tag)
    }
}
