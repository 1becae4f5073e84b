// A byte looked for, decimal text, and the sum of bytes. Every function is total.
ghost use Rattle.std.specs.Prelude.{◌≡◌, ◌+◌, ◌%◌, ◌^◌, ◌≤◌, eqb, drop, MatchOption};
ghost use Rattle.numbers.specs.Bytes.{total};
ghost use Rattle.numbers.specs.Decimal.{digits, value};
ghost use Rattle.numbers.specs.Before.{before};

use crate::rest;

// The first place of b at or behind `from`; where there is none, the end.
// kept: the end, and no Option, since the clause says it by `before`; there is always an answer.
pub fn find_byte(s: &[u8], from: usize, b: u8) -> usize
    ensures { result ≡ from + before b (drop from s.now) }
{
    let rest = rest(s, from);
    from + rest.iter().position(|x| *x == b).unwrap_or(rest.len())
}

pub fn all_digits(s: &[u8]) -> bool
    ensures { result ≡ digits s.now }
{
    s.iter().all(|b| b.is_ascii_digit())
}

// The value of digits, however many; None where it is too large for a usize. A byte below `0` counts 0.
pub(crate) fn value_of(s: &[u8]) -> Option<usize>
    ensures { MatchOption result (2 ^ 64 ≤ value s.now) (λ v. v ≡ value s.now) }
{
    let mut v: usize = 0;
    for b in s {
        v = v
            .checked_mul(10)?
            .checked_add(usize::from(b.saturating_sub(b'0')))?;
    }
    Some(v)
}

// The digits have this value, however large.
pub fn value_is(s: &[u8], n: usize) -> bool
    ensures { result ≡ eqb (value s.now) n }
{
    value_of(s) == Some(n)
}

// The sum of all bytes, modulo 256.
pub fn sum256(s: &[u8]) -> u8
    ensures { result ≡ total s.now % 256 }
{
    let mut t: u64 = 0;
    for b in s {
        t = (t + u64::from(*b)) % 256;
    }
    t as u8
}
