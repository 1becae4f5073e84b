// Numbers of any number of digits, capped. Total, as all of this crate.
ghost use Rattle.std.specs.Prelude.{◌≡◌, ◌+◌, min, length, drop};
ghost use Rattle.numbers.specs.Decimal.{value};
ghost use Rattle.numbers.specs.Scan.{leading_digits};

use crate::decimal::value_of;
use crate::rest;

// The value of the digits in front, capped, and the place behind them.
#[derive(Clone, Copy, Debug, PartialEq, Eq)]
pub struct Number {
    pub value: usize,
    pub end: usize,
}

pub fn number_at(s: &[u8], from: usize) -> Number
    ensures { (result.value ≡ min (value (leading_digits (drop from s.now))) 65536) × (result.end ≡ from + length (leading_digits (drop from s.now))) }
{
    let mut value = 0;
    let mut end = from;
    for b in rest(s, from) {
        if !b.is_ascii_digit() {
            return Number { value, end };
        }
        if value < 65_536 {
            value = (value * 10 + usize::from(b - b'0')).min(65_536);
        }
        end += 1;
    }
    Number { value, end }
}

// The value of digits, or the cap where it is larger.
pub fn value_capped_at(s: &[u8], cap: usize) -> usize
    ensures { result ≡ min (value s.now) cap }
{
    value_of(s).map_or(cap, |v| v.min(cap))
}
