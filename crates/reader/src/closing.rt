// Where an instance or the message ends, or a tag leads no further.
ghost use Rattle.std.specs.Prelude.{◌≡◌, Bool, false, cond, ◌||◌, List, [], ℕ, eqb};
ghost use Rattle.book.specs.Records.{members_of};
ghost use Rattle.reader.specs.Fields.{peek};
ghost use Rattle.reader.specs.Items.{is_first, starts};
ghost use Rattle.reader.specs.Filling.{Fill, full, poor, late_fill, f_refuse, f_close, f_inst, f_closed};
ghost use Rattle.reader.specs.Met.{miss_of, page_of, ends_by, list_of, opened_of, Says};

use crate::fields::TORN;
use crate::lists::{has_tag, is_first};
use crate::page::Page;
use crate::refusal::{Refusal, Refused};
use crate::{Open, Spot, Step};

// The tag that stands at a place, as peek says it.
// kept: a u32, here and in Watch, since the public functions below answer for every u32, TORN too, as those in lists do.
#[derive(Clone, Copy, Debug, PartialEq, Eq)]
pub struct Head {
    pub tag: u32,
    pub at: usize,
}

// A tag that is watched for, and whether it was in the instance.
// kept: it stands apart from Head, since no_instance has no hit to tell of.
#[derive(Clone, Copy, Debug, PartialEq, Eq)]
pub struct Watch {
    pub tag: u32,
    pub hit: bool,
}

impl Watch {
    pub(crate) fn new(tag: u32) -> Watch
        ensures { result ≡ record { tag = tag; hit = false } }
    {
        Watch { tag, hit: false }
    }

    // The same with this tag in the instance too.
    pub(crate) fn seen(self, tag: u32) -> Watch
        ensures { result ≡ record { tag = self.tag; hit = eqb self.tag tag || self.hit } }
    {
        Watch {
            hit: self.tag == tag || self.hit,
            ..self
        }
    }
}

// A group that is being read: its list, and the groups that are open around it.
#[derive(Clone, Copy, Debug)]
pub struct Group<'a> {
    pub page: Page<'a>,
    pub list: &'a [u8],
    pub around: Open<'a>,
}

// A member already in this instance 10, one earlier in the list 9; of a tag that is not watched it is not known.
fn late(head: Head, watch: Watch) -> Result<Step, Refused>
    ensures { (s : List ℕ) (k : ℕ) → peek s ≡ head.tag → Says s head.at k (late_fill watch.tag watch.hit s) result }
{
    if head.tag != watch.tag {
        return Ok(Step::Ask(head.tag));
    }
    let why = if watch.hit {
        Refusal::Twice
    } else {
        Refusal::Place
    };
    Err(why.at(head.at))
}

// A tag that leads no further; in the list of the instance in hand it comes late.
#[tactic(auto, unfolding(crate::specs::Filling::f_refuse))]
pub fn refuse(page: &Page, list: &[u8], head: Head, watch: Watch) -> Result<Step, Refused>
    ensures { (s : List ℕ) (k : ℕ) → peek s ≡ head.tag
        → Says s head.at k (f_refuse (page_of page.now) watch.tag (members_of list.now) watch.hit s) result }
{
    if head.tag == TORN {
        return Err(Refusal::Form.at(head.at));
    }
    if page.is_unpaired(head.tag) {
        return Err(Refusal::Pair.at(head.at));
    }
    if has_tag(list, head.tag) {
        return late(head, watch);
    }
    Err(Refusal::Place.at(head.at))
}

impl<'a> Group<'a> {
    // An instance may end with this tag behind it.
    fn may_end(&self, tag: u32) -> bool
        ensures { result ≡ ends_by self.now tag }
    {
        is_first(self.list, tag) || self.page.is_open(self.around, tag)
    }

    // The end of an instance, where its list is at its end.
    #[tactic(auto, unfolding(crate::specs::Filling::f_close))]
    pub fn close(
        &self,
        head: Head,
        watch: Watch,
        missing: Option<u32>,
        row: usize,
    ) -> Result<Step, Refused>
        ensures { (s : List ℕ) → peek s ≡ head.tag
            → Says s head.at row (f_close (page_of self.now.page) watch.tag (members_of self.now.list.now) (ends_by self.now) watch.hit (miss_of missing) head.at s) result }
    {
        if !self.may_end(head.tag) {
            return refuse(&self.page, self.list, head, watch);
        }
        match missing {
            Some(tag) => Err(Refusal::Missing(tag).at(head.at)),
            None => Ok(Step::Done { at: head.at, row }),
        }
    }

    // A tag with which no instance begins, where one is due.
    #[tactic(auto, unfolding(book::specs::Records::members_of))]
    pub fn no_instance(&self, head: Head, watch: u32) -> Result<Step, Refused>
        ensures { (s : List ℕ) (k : ℕ) → peek s ≡ head.tag
            → Says s head.at k (cond (starts (page_of self.now.page) (members_of self.now.list.now) (peek s) || ends_by self.now (peek s))
            (poor 13 0 s) (f_refuse (page_of self.now.page) watch [] false s)) result }
    {
        if self.page.begins(self.list, head.tag) || self.may_end(head.tag) {
            return Err(Refusal::Instances.at(head.at));
        }
        refuse(&self.page, &[], head, Watch::new(watch))
    }

    // The same of the tag that stands where the first member is due; a group that has no members has no instance.
    pub(crate) fn no_first(&self, head: Head, watch: u32) -> Result<Step, Refused>
        ensures { (s : List ℕ) (k : ℕ) (read : ℕ → ℕ → List ℕ → Fill) → peek s ≡ head.tag → is_first (list_of self.now) head.tag ≡ false
            → Says s head.at k (f_inst (page_of self.now.page) watch read (list_of self.now) (ends_by self.now) (list_of self.now) head.at k s) result }
    {
        if 4 <= self.list.len() {
            return self.no_instance(head, watch);
        }
        Err(Refusal::Instances.at(head.at))
    }

    // Behind the last instance the first member once more is one beyond n.
    pub(crate) fn end(&self, tag: u32, spot: Spot) -> Result<Step, Refused>
        ensures { (s : List ℕ) (w : ℕ) → peek s ≡ tag → Says s spot.at spot.row (f_closed (page_of self.now.page) w (list_of self.now) (full [] spot.at s)) result }
    {
        if is_first(self.list, tag) {
            return Err(Refusal::Instances.at(spot.at));
        }
        Ok(Step::Done {
            at: spot.at,
            row: spot.row,
        })
    }

    // The groups that are open within this one, innermost first.
    pub(crate) fn opened(&self) -> Open<'a>
        ensures { result ≡ opened_of self.now }
    {
        let [a, b, c, _] = self.around;
        [self.list, a, b, c]
    }
}
