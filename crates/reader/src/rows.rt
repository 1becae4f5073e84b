// Rows of the index, as numbers and as little-endian bytes. Here alone is known which of the two is filled: a row is written where there
// is room for it, and the one that is not wanted is lent empty.
ghost use Rattle.std.specs.Prelude.{◌≡◌, ℕ, ◌+◌, ◌*◌, ◌^◌, ◌<◌, ◌≤◌, length, cond, leb};
ghost use Rattle.std.proofs.lemmas.List.Edits.{sets};
ghost use Rattle.message.specs.Sixes.{row_in};
ghost use Rattle.reader.specs.Filling.{put_row, row_numbers, row_bytes};

use message::Row;

fn put<T: Copy>(lent: &mut [T], at: usize, row: &[T])
    requires { at + length row.now < 2 ^ 64 }
    ensures { lent.new ≡ cond (leb (at + length row.now) (length lent.old)) (sets lent.old at row.now) lent.old }
{
    let end = at + row.len();
    if end <= lent.len() {
        // kept: item by item, since copy_from_slice compares addresses, for which the row has to lie in memory: a call took twice the time.
        let place = &mut lent[at..end];
        for i in 0..row.len() {
            place[i] = row[i];
        }
    }
}

// kept: two buffers, of which one is empty: by the same functions the reader fills numbers for callers in Rattle and little-endian bytes for C,
// and the clause is on both.
pub fn put_row(index: &mut [u16], bytes: &mut [u8], k: usize, r: Row)
    requires { k ≤ 8192 }
    ensures { (index.new ≡ put_row 6 row_numbers index.old k (row_in r))
        × (bytes.new ≡ put_row 12 row_bytes bytes.old k (row_in r)) }
{
    let numbers = <[u16; 6]>::from(r);
    let pairs = numbers.map(|n| n.to_le_bytes());
    put(index, 6 * k, &numbers);
    put(bytes, 12 * k, pairs.as_flattened());
}
