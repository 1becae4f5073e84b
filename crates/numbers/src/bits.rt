// A set of numbers as bits in lent bytes: 8,192 of them hold every tag.
ghost use Rattle.std.specs.Prelude.{◌≡◌};
ghost use Rattle.numbers.specs.Bits.{bit_at, marked};

use crate::byte_at;

#[tactic(auto, unfolding(crate::specs::Bits::bit_at, crate::specs::Bits::bit_of))]
pub fn test(map: &[u8], n: usize) -> bool
    ensures { result ≡ bit_at map.now n }
{
    byte_at(map, n / 8) >> (n % 8) & 1 == 1
}

#[tactic(auto, using(crate::proofs::Marks::marked_at, crate::proofs::Marks::marked_out))]
pub fn mark(map: &mut [u8], n: usize)
    ensures { map.new ≡ marked map.old n }
{
    let at = n / 8;
    if at < map.len() {
        map[at] |= 1 << (n % 8);
    }
}
