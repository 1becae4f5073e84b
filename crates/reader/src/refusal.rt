// The refusals of a message: an enum, and the place where each was met. A definition has document 01's numbers.
ghost use Rattle.std.specs.Prelude.{◌≡◌};
ghost use Rattle.reader.specs.Refusals.{number, tag_of};

// Why a message is refused, each case under what document 01 says of it, and where.
#[derive(Clone, Copy, Debug, PartialEq, Eq)]
pub enum Refusal {
    // 1: book not sound
    Book,
    // 2: over 8,192 bytes
    Size,
    // 3: does not start with field 8
    Version,
    // 4: field 9 missing, not digits, ending too late, or not the count
    Length,
    // 5: the last seven bytes are not `10=`, three digits, `|`
    Closing,
    // 6: the sum differs
    Sum,
    // 7: no field 35 with a value, or a type not in the book
    Type,
    // 8: a field of bad form
    Form,
    // 9: no place, or its list isn't open
    Place,
    // 10: a second time
    Twice,
    // 11: not of its datatype
    Datatype,
    // 12: a Length without its data, or a data without its Length
    Pair,
    // 13: another number of instances
    Instances,
    // 14: a required member is missing, this one
    // kept: its tag is a u32, as in lists
    Missing(u32),
    // 15: index too short
    Room,
}

#[derive(Clone, Copy, Debug, PartialEq, Eq)]
pub struct Refused {
    pub why: Refusal,
    pub at: usize,
}

impl From<Refusal> for u16 {
    ghost from_gives = { λ r n. n ≡ number r };

    fn from(r: Refusal) -> u16 {
        match r {
            Refusal::Book => 1,
            Refusal::Size => 2,
            Refusal::Version => 3,
            Refusal::Length => 4,
            Refusal::Closing => 5,
            Refusal::Sum => 6,
            Refusal::Type => 7,
            Refusal::Form => 8,
            Refusal::Place => 9,
            Refusal::Twice => 10,
            Refusal::Datatype => 11,
            Refusal::Pair => 12,
            Refusal::Instances => 13,
            Refusal::Missing(_) => 14,
            Refusal::Room => 15,
        }
    }
}

impl Refusal {
    // "for 14 the missing member earliest in its list, else tag 0".
    pub fn tag(self) -> u32
        ensures { result ≡ tag_of self }
    {
        match self {
            Refusal::Missing(tag) => tag,
            _ => 0,
        }
    }

    pub(crate) fn at(self, at: usize) -> Refused
        ensures { result ≡ record { why = self; at = at } }
    {
        Refused { why: self, at }
    }
}
