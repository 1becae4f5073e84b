// Bytes and two-byte numbers. Every function is total: what stands outside the slice reads as 0, as in the definitions.
#![tactic(auto)]

ghost use Rattle.std.specs.Prelude.{◌≡◌, take, drop, get_or};
ghost use Rattle.numbers.specs.Bytes.{le16};

pub fn byte_at(s: &[u8], i: usize) -> u8
    ensures { result ≡ get_or s.now i 0 }
{
    s.get(i).copied().unwrap_or(0)
}

// Little-endian.
pub fn u16_at(s: &[u8], i: usize) -> u16
    ensures { result ≡ le16 (drop i s.now) }
{
    match s.get(i..) {
        Some([low, high, ..]) => u16::from_le_bytes([*low, *high]),
        Some([low]) => u16::from(*low),
        _ => 0,
    }
}

// A part that would leave the slice ends with it.
pub fn part<'a>(s: &'a [u8], from: usize, n: usize) -> &'a [u8]
    ensures { result.now ≡ take n (drop from s.now) }
{
    let s = rest(s, from);
    &s[..n.min(s.len())]
}

// What is left from a place on; nothing where the slice ends before it.
pub fn rest<'a>(s: &'a [u8], from: usize) -> &'a [u8]
    ensures { result.now ≡ drop from s.now }
{
    &s[from.min(s.len())..]
}

pub mod bits;
pub mod decimal;
pub mod scan;
