// The reader: a message in, and where every field stands.
#![tactic(auto)]

ghost use Rattle.std.specs.Prelude.{◌≡◌, ◌≤◌, ◌<◌};
ghost use Rattle.reader.specs.Rowed.{version_of, length_of, kind_of};

pub mod closing;
pub mod fields;
pub mod frame;
pub mod items;
pub mod lists;
pub mod marks;
mod own;
pub mod page;
pub mod reading;
pub mod refusal;
pub mod rows;

use forms::Datatype;

// A list walked down to a tag: the place behind its member, if the list has one; and the first required member that was passed.
// kept: the member's tag is a u32, as in lists.
#[derive(Clone, Copy, Debug, PartialEq, Eq)]
pub struct Sought {
    pub place: Option<usize>,
    pub missing: Option<u32>,
}

// Where fields 8, 9 and 35 end, each behind its `|`.
#[derive(Clone, Copy, Debug, PartialEq, Eq)]
pub struct Framed {
    pub version_end: usize,
    pub length_end: usize,
    pub type_end: usize,
}

impl Framed {
    fn version(self) -> Field
        requires { 1 ≤ self.version_end }
        ensures { result ≡ version_of self }
    {
        Field {
            tag: 8,
            start: 2,
            end: self.version_end - 1,
        }
    }

    fn length(self) -> Field
        requires { (self.version_end < 65536) × (1 ≤ self.length_end) }
        ensures { result ≡ length_of self }
    {
        Field {
            tag: 9,
            start: self.version_end + 2,
            end: self.length_end - 1,
        }
    }

    fn kind(self) -> Field
        requires { (self.length_end < 65536) × (1 ≤ self.type_end) }
        ensures { result ≡ kind_of self }
    {
        Field {
            tag: 35,
            start: self.length_end + 3,
            end: self.type_end - 1,
        }
    }
}

// A field that stands in the message: its tag, and its value from `start` up to the `|` at `end`.
#[derive(Clone, Copy, Debug, PartialEq, Eq)]
pub struct Field {
    pub tag: u16,
    pub start: usize,
    pub end: usize,
}

// A field taken off, and its datatype; or a Length and its data.
#[derive(Clone, Copy, Debug, PartialEq, Eq)]
pub enum Grabbed {
    Single { field: Field, datatype: Datatype },
    Pair { length: Field, data: Field },
}

// A part that was read: the place behind it and the next row; or a late tag that is not watched.
// kept: that tag is a u32, as in lists.
#[derive(Clone, Copy, Debug, PartialEq, Eq)]
pub enum Step {
    Done { at: usize, row: usize },
    Ask(u32),
}

// A place in the message, and the number of the next row.
#[derive(Clone, Copy, Debug, PartialEq, Eq)]
pub struct Spot {
    pub at: usize,
    pub row: usize,
}

// Where a field stands: how deep, under which count row, in which instance.
#[derive(Clone, Copy, Debug, PartialEq, Eq)]
pub struct Within {
    pub depth: u16,
    pub count: u16,
    pub instance: u16,
}

impl Within {
    // "0 in the message".
    pub(crate) fn message() -> Within
        ensures { result ≡ record { depth = 0; count = 0; instance = 0 } }
    {
        Within {
            depth: 0,
            count: 0,
            instance: 0,
        }
    }
}

// A message in hand: its page, its bytes up to the closing `10=`, and the tag that is watched for.
#[derive(Clone, Copy, Debug)]
pub struct Scan<'a> {
    pub page: page::Page<'a>,
    pub m: &'a [u8],
    pub watch: u32,
}

// The groups that are open around the one in hand, innermost first: the bytes of their lists, none for no group.
pub type Open<'a> = [&'a [u8]; 4];
