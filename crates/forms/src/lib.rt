// Whether a value is of a datatype of document 01.
#![tactic(auto)]

pub mod number;
pub mod text;
pub mod time;

ghost use Rattle.std.specs.Prelude.{◌≡◌};
ghost use Rattle.forms.specs.Numbered.{number_of, Numbers};
ghost use Rattle.forms.specs.Types.{of_type};

use number::{is_day, is_float, is_int, is_length, is_positive};
use text::{is_boolean, is_char, is_data, is_string, is_words};
use time::{is_date, is_month_year, is_time_only, is_timestamp, is_tz_time};

// The datatypes of document 01, each with its number there.
#[derive(Clone, Copy, Debug, PartialEq, Eq)]
pub enum Datatype {
    String = 1,
    Char = 2,
    Boolean = 3,
    Int = 4,
    Length = 5,
    SeqNum = 6,
    NumInGroup = 7,
    DayOfMonth = 8,
    Float = 9,
    Data = 10,
    UtcTimestamp = 11,
    UtcTimeOnly = 12,
    UtcDateOnly = 13,
    MonthYear = 14,
    TzTimeOnly = 15,
    MultipleStringValue = 16,
}

// A number that no datatype has.
#[derive(Clone, Copy, Debug, PartialEq, Eq)]
pub struct UnknownDatatype(pub u16);

impl TryFrom<u16> for Datatype {
    type Error = UnknownDatatype;

    ghost try_from_gives = { Numbers };

    fn try_from(n: u16) -> Result<Self, UnknownDatatype> {
        match n {
            1 => Ok(Datatype::String),
            2 => Ok(Datatype::Char),
            3 => Ok(Datatype::Boolean),
            4 => Ok(Datatype::Int),
            5 => Ok(Datatype::Length),
            6 => Ok(Datatype::SeqNum),
            7 => Ok(Datatype::NumInGroup),
            8 => Ok(Datatype::DayOfMonth),
            9 => Ok(Datatype::Float),
            10 => Ok(Datatype::Data),
            11 => Ok(Datatype::UtcTimestamp),
            12 => Ok(Datatype::UtcTimeOnly),
            13 => Ok(Datatype::UtcDateOnly),
            14 => Ok(Datatype::MonthYear),
            15 => Ok(Datatype::TzTimeOnly),
            16 => Ok(Datatype::MultipleStringValue),
            _ => Err(UnknownDatatype(n)),
        }
    }
}

impl From<Datatype> for u16 {
    ghost from_gives = { λ t n. n ≡ number_of t };

    fn from(t: Datatype) -> u16 {
        t as u16
    }
}

impl Datatype {
    #[tactic(auto, unfolding(crate::specs::Types::of_type, crate::specs::Types::form_of))]
    pub fn accepts(self, s: &[u8]) -> bool
        ensures { result ≡ of_type (number_of self) s.now }
    {
        match self {
            Datatype::String => is_string(s),
            Datatype::Char => is_char(s),
            Datatype::Boolean => is_boolean(s),
            Datatype::Int => is_int(s),
            Datatype::Length => is_length(s),
            Datatype::SeqNum | Datatype::NumInGroup => is_positive(s),
            Datatype::DayOfMonth => is_day(s),
            Datatype::Float => is_float(s),
            Datatype::Data => is_data(s),
            Datatype::UtcTimestamp => is_timestamp(s),
            Datatype::UtcTimeOnly => is_time_only(s),
            Datatype::UtcDateOnly => is_date(s),
            Datatype::MonthYear => is_month_year(s),
            Datatype::TzTimeOnly => is_tz_time(s),
            Datatype::MultipleStringValue => is_words(s),
        }
    }
}

#[tactic(auto, using(crate::proofs::OfType::of_none))]
pub fn of_type(n: u16, s: &[u8]) -> bool
    ensures { result ≡ of_type n s.now }
{
    Datatype::try_from(n).is_ok_and(|t| t.accepts(s))
}
