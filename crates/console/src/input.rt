// "It reads standard input: book length (2 bytes, little-endian), book, message."
ghost use Rattle.std.specs.Prelude.{◌≡◌};
ghost use Rattle.console.specs.Input.{cut_number, parts, parts_of};

// Why an input has no book and message, each case by document 01's word for its number.
#[derive(Clone, Copy, Debug, PartialEq, Eq)]
pub enum Cut {
    // "book not sound", here too long
    Large = 1,
    // "bad request": the input ends too early
    Bad = 16,
}

impl From<Cut> for u16 {
    ghost from_gives = { λ c n. n ≡ cut_number c };

    fn from(c: Cut) -> u16 {
        c as u16
    }
}

// The longest book.
const BOOK: usize = 16384;

// "Input that ends inside the length is refused with 16; then a length above 16,384 with 1; then input that ends before the book does with
// 16." Otherwise the book's bytes and the message's.
#[tactic(auto, unfolding(crate::specs::Input::parts))]
pub fn split(input: &[u8]) -> Result<(&[u8], &[u8]), Cut>
    ensures { parts_of result ≡ parts input.now }
{
    let (length, rest) = input.split_first_chunk().ok_or(Cut::Bad)?;
    let length = usize::from(u16::from_le_bytes(*length));
    if length > BOOK {
        return Err(Cut::Large);
    }
    rest.split_at_checked(length).ok_or(Cut::Bad)
}
