// Which members of a list were there: a bit for each, by its position. A list of 16,384 bytes, as many as a book may have, holds 4,096.
ghost use Rattle.std.specs.Prelude.{◌≡◌, true, not, ◌&&◌, ◌≤◌, List, [], ◌∷◌, ℕ, length};
ghost use Rattle.numbers.specs.Bytes.{mem};
ghost use Rattle.numbers.specs.Bits.{bit_at};
ghost use Rattle.book.specs.Records.{Member as Listed, members_of, records};
ghost use Rattle.book.specs.Lists.{member_in};
ghost use Rattle.message.specs.Permitted.{has_tag, spare, none, lacking};
ghost use Rattle.reader.specs.Met.{miss_of};
ghost use Rattle.reader.specs.Marked.{Marked};

use crate::lists::is_bounded;
use book::list::{Member, Members};
use numbers::bits::{mark, test};

#[derive(Drop)]
pub(crate) struct Marks {
    bits: [u8; 512],
}

impl Marks {
    pub fn none() -> Self
        ensures { (ms : List Listed) → length ms ≤ 4096 → Marked result.bits ms [] }
    {
        Marks { bits: [0; 512] }
    }

    // In a book that breaks rule 9 a tag may stand twice in a list: each of its members is marked.
    pub fn mark(&mut self, list: &[u8], tag: u32)
        ensures { (seen : List ℕ) → Marked self.old.bits (members_of list.now) seen
            → Marked self.new.bits (members_of list.now) (tag ∷ seen) }
    {
        for (i, m) in Members::of(list).enumerate() {
            if tag == u32::from(m.tag) {
                mark(&mut self.bits, i);
            }
        }
    }

    pub fn has(&self, list: &[u8], tag: u32) -> bool
        ensures { (seen : List ℕ) → Marked self.now.bits (members_of list.now) seen
            → has_tag tag (members_of list.now) ≡ true → result ≡ mem tag seen }
    {
        Members::of(list)
            .position(|m| tag == u32::from(m.tag))
            .is_some_and(|i| test(&self.bits, i))
    }

    // A data stands and falls with its Length.
    fn is_lacking(&self, book: &[u8], i: usize, m: Member) -> bool
        ensures { result ≡ (not (spare (records book.now) (member_in m)) && not (bit_at self.now.bits i)) }
    {
        m.flag == 1 && !test(&self.bits, i) && !is_bounded(book, u32::from(m.tag))
    }

    // The missing member earliest in the list.
    pub fn lacking(&self, book: &[u8], list: &[u8]) -> Option<u32>
        ensures { (seen : List ℕ) → Marked self.now.bits (members_of list.now) seen
            → miss_of result ≡ lacking (records book.now) none (members_of list.now) seen }
    {
        Members::of(list)
            .enumerate()
            .find(|(i, m)| self.is_lacking(book, *i, *m))
            .map(|(_, m)| u32::from(m.tag))
    }
}
