// The members of a list's bytes, one after the other.
ghost use Rattle.std.specs.Prelude.{◌≡◌};
ghost use Rattle.std.specs.Iterator.{YieldsFirstBy, item_count};
ghost use Rattle.book.specs.Lists.{member_in, members_left};

// The flag is 1 for a required member, 0 for an optional one.
// kept: as the book's number, since before rule 5 it can be any.
#[derive(Clone, Copy, Debug, PartialEq, Eq)]
pub struct Member {
    pub tag: u16,
    pub flag: u16,
}

// The members that are still to come, by their bytes: four a member, a shorter rest is left out.
#[derive(Clone, Copy, Debug)]
pub struct Members<'a> {
    rest: &'a [u8],
}

impl<'a> Members<'a> {
    pub fn of(list: &'a [u8]) -> Self
        ensures { result.rest.now ≡ list.now }
    {
        Members { rest: list }
    }
}

impl<'a> Iterator for Members<'a> {
    type Item = Member;

    ghost next_gives = { YieldsFirstBy member_in members_left };

    ghost remaining = { item_count members_left };

    #[tactic(auto, using(crate::proofs::Members::members_none, crate::proofs::Members::next_member))]
    fn next(&mut self) -> Option<Member> {
        let [a, b, c, d, rest @ ..] = self.rest else {
            return None;
        };
        self.rest = rest;
        Some(Member {
            tag: u16::from_le_bytes([*a, *b]),
            flag: u16::from_le_bytes([*c, *d]),
        })
    }
}
