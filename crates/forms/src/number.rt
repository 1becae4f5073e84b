// The digit types. They may have any number of leading zeros, so no value is computed but that of two digits.
ghost use Rattle.std.specs.Prelude.{◌≡◌, ◌&&◌, leb, ◌∷◌, [], ◌≤◌, length};
ghost use Rattle.forms.specs.Form.{accepts, ◌▷◌, ◌∣◌, many};
ghost use Rattle.forms.specs.Types.{byte, digit, more, maybe, int, len, positive, day_of_month, float};
ghost use Rattle.forms.specs.Words.{is_two};
ghost use Rattle.forms.specs.Walks.{leading, unsigned};

use numbers::decimal::all_digits;

pub(crate) fn between(b: u8, lo: u8, hi: u8) -> bool
    ensures { result ≡ (leb lo b && leb b hi) }
{
    (lo..=hi).contains(&b)
}

// How many bytes in front are from lo to hi.
fn count(s: &[u8], lo: u8, hi: u8) -> usize
    ensures value { result ≡ leading lo hi s.now }
    ensures upper_bound { result ≤ length s.now }
{
    s.iter().take_while(|b| between(**b, lo, hi)).count()
}

// a and b are digits, their number from lo to hi.
#[tactic(auto, using(crate::proofs::Pairs::pair_is))]
pub(crate) fn is_pair(a: u8, b: u8, lo: u8, hi: u8) -> bool
    ensures { result ≡ is_two lo hi (a ∷ b ∷ []) }
{
    a.is_ascii_digit() && b.is_ascii_digit() && between((a - b'0') * 10 + (b - b'0'), lo, hi)
}

// 5 Length: digits, zero allowed here (house)
#[tactic(auto, using(crate::proofs::Leading::len_is))]
pub fn is_length(s: &[u8]) -> bool
    ensures { result ≡ accepts len s.now }
{
    !s.is_empty() && all_digits(s)
}

// 6 SeqNum, 7 NumInGroup: digits, above zero
#[tactic(auto, using(crate::proofs::Leading::positive_at))]
pub fn is_positive(s: &[u8]) -> bool
    ensures { result ≡ accepts positive s.now }
{
    all_digits(s) && count(s, b'0', b'0') < s.len()
}

// 8 DayOfMonth: digits, value 1 to 31; behind the zeros that is 1 to 9 or 10 to 31
pub fn is_day(s: &[u8]) -> bool
    ensures { result ≡ accepts day_of_month s.now }
{
    let zeros = count(s, b'0', b'0');
    match &s[zeros..] {
        [b] => between(*b, b'1', b'9'),
        [a, b] => is_pair(*a, *b, 10, 31),
        _ => false,
    }
}

// What follows an optional `-`.
fn unsigned(s: &[u8]) -> &[u8]
    ensures { result.now ≡ unsigned s.now }
{
    s.strip_prefix(b"-").unwrap_or(s)
}

// 4 int: one optional `-`, one or more digits
#[tactic(auto, using(crate::proofs::Decimals::int_is))]
pub fn is_int(s: &[u8]) -> bool
    ensures { result ≡ accepts int s.now }
{
    is_length(unsigned(s))
}

// Digits with at most one point, at least one digit; the point may be first or last (house). With a point, a second byte
// is the digit that it takes.
fn is_decimal(s: &[u8]) -> bool
    ensures { result ≡ accepts (more digit ▷ maybe (byte 46 ▷ many digit) ∣ byte 46 ▷ more digit) s.now }
{
    let (whole, rest) = s.split_at(count(s, b'0', b'9'));
    match rest {
        [] => !whole.is_empty(),
        [b'.', fraction @ ..] => 1 < s.len() && all_digits(fraction),
        _ => false,
    }
}

// 9 float: optional `-`, then a decimal
#[tactic(auto, using(crate::proofs::Decimals::float_is))]
pub fn is_float(s: &[u8]) -> bool
    ensures { result ≡ accepts float s.now }
{
    is_decimal(unsigned(s))
}
