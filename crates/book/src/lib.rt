// The book: its records, what they declare, and the check.
#![tactic(auto)]

ghost use Rattle.std.specs.Prelude.{◌≡◌, eqb};
ghost use Rattle.forms.specs.Numbered.{number_of};

use forms::Datatype;

mod checking;
mod groups;
pub mod list;
pub mod lookup;
pub mod records;
mod rules;
mod scan;

pub use checking::{Broken, Rule, check};

// A bit for each tag.
// kept: an array that check has on its stack, since libraries use no heap and their memory is fixed.
type Map = [u8; 8192];

// What a tag is declared as.
// kept: both are the book's numbers, since type_of and partner in the clauses say any number that a book holds, sound or not.
#[derive(Clone, Copy, Debug, PartialEq, Eq)]
pub struct Declared {
    pub datatype: u16,
    pub partner: u16,
}

impl Declared {
    pub fn is(self, t: Datatype) -> bool
        ensures { result ≡ eqb self.datatype (number_of t) }
    {
        self.datatype == u16::from(t)
    }
}
