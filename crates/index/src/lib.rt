// The questions of document 01 on an index: the value of a row, find, and a walker. They are asked of any lent numbers.
#![tactic(auto)]

ghost use Rattle.std.specs.Prelude.{◌≡◌, ◌&&◌, eqb, length};
ghost use Rattle.std.specs.Iterator.{YieldsFirst, item_count};
ghost use Rattle.std.specs.Simd.{first_chunks};
ghost use Rattle.message.specs.Rows.{width};
ghost use Rattle.index.specs.Questions.{row_count, value_of, find as find_of, find_value, instance_row, next_instance, walk, step as step_of};
ghost use Rattle.index.specs.Answers.{found_of, found_from, row_at, rows_of_walker};

use message::Row;

// "Six 16-bit numbers for each field".
pub const WIDTH: usize = 6;

// "it answers the row or that the tag is absent there".
// kept: document 01 names this form, "find returns an enum Row(number) or Absent; callers take it apart by let .. else".
#[derive(Clone, Copy, Debug, PartialEq, Eq)]
pub enum Found {
    Row(usize),
    Absent,
}

impl From<Option<usize>> for Found {
    ghost from_gives = { λ row found. found_of found ≡ found_from row };

    fn from(row: Option<usize>) -> Found {
        row.map_or(Found::Absent, Found::Row)
    }
}

// Whether the row has this count row and instance; the depth is not compared.
fn is_in(row: Row, count: usize, inst: usize) -> bool
    ensures { result ≡ (eqb row.count count && eqb row.instance inst) }
{
    usize::from(row.count) == count && usize::from(row.instance) == inst
}

// The rows: each whole six. A shorter rest is ignored.
fn rows_of(index: &[u16]) -> &[[u16; WIDTH]]
    ensures { result.now ≡ first_chunks width (row_count index.now) index.now }
{
    index.as_chunks().0
}

// Row k, if the index has so many.
fn row_at(index: &[u16], k: usize) -> Option<Row>
    ensures { result ≡ row_at index.now k }
{
    rows_of(index).get(k).map(Row::from)
}

// The part of the message that holds the value of row k. Start and length are added as wide numbers, so the sum does not wrap.
#[tactic(auto, unfolding(crate::specs::Questions::value_of))]
pub fn value<'a>(index: &[u16], message: &'a [u8], k: usize) -> &'a [u8]
    ensures { result.now ≡ value_of index.now message.now k }
{
    let Some(row) = row_at(index, k) else {
        return &[];
    };
    let start = usize::from(row.start);
    let end = start + usize::from(row.length);
    message.get(start..end).unwrap_or_default()
}

// The lowest row with this count row, instance and tag. They are compared as wide numbers: one above 65,535 is in no row.
// kept: three parameters, as in find_value: document 01 has "find, given count row, instance and tag", and inkrowan_find takes them from C.
pub fn find(index: &[u16], count: usize, inst: usize, tag: usize) -> Found
    ensures { found_of result ≡ find_of index.now count inst tag }
{
    rows_of(index)
        .iter()
        .map(Row::from)
        .position(|row| is_in(row, count, inst) && usize::from(row.tag) == tag)
        .into()
}

// The value of the row that find gives.
#[tactic(auto, unfolding(crate::specs::Questions::find_value, crate::specs::Questions::if_row))]
pub fn find_value<'a>(
    index: &[u16],
    message: &'a [u8],
    count: usize,
    inst: usize,
    tag: usize,
) -> &'a [u8]
    ensures { result.now ≡ find_value index.now message.now count inst tag }
{
    let Found::Row(k) = find(index, count, inst, tag) else {
        return &[];
    };
    value(index, message, k)
}

// The lowest row with this count row and instance.
fn instance_row(index: &[u16], count: usize, inst: usize) -> Found
    ensures { found_of result ≡ instance_row index.now count inst }
{
    rows_of(index)
        .iter()
        .map(Row::from)
        .position(|row| is_in(row, count, inst))
        .into()
}

// The instance that a walker at this row looks for: a wide number, so that the one after 65,535 is in no row.
fn next_instance(index: &[u16], row: usize) -> usize
    ensures { result ≡ next_instance index.now row }
{
    let Some(row) = row_at(index, row) else {
        return 1;
    };
    usize::from(row.instance) + 1
}

// The walker's work, on a plain slice and numbers: the row that it gives next.
#[tactic(auto, unfolding(crate::specs::Questions::step))]
pub fn step(rows: &[u16], count: usize, row: usize) -> Found
    ensures { found_of result ≡ step_of rows.now count row }
{
    instance_row(rows, count, next_instance(rows, row))
}

// "a walker that holds the lent index and its place": the index, the count row, and the row at which it stands. Where that is no row of
// the index it has not begun. The instance at which it stands is that row's. At the end it stays where it is, and the answer stays.
// kept: the row is a number with no Option, since the clause of new and its must-fail edit fix it for a walker that has not begun.
#[derive(Clone, Copy)]
pub struct Walker<'a> {
    rows: &'a [u16],
    count: usize,
    row: usize,
}

impl<'a> Walker<'a> {
    // A walker that has not begun: the numbers are more than the rows, or there are none of either.
    #[tactic(auto, using(crate::proofs::Walking::left_all))]
    pub fn new(rows: &'a [u16], count: usize) -> Walker<'a>
        ensures fields { (result.rows ≡ rows.entry) × (result.count ≡ count) × (result.row ≡ length rows.now) }
        ensures left { rows_of_walker result ≡ walk rows.now count }
    {
        Walker {
            rows,
            count,
            row: rows.len(),
        }
    }

    // The row that the walker gives next. It does not move.
    pub fn peek(self) -> Found
        ensures { found_of result ≡ step_of self.entry.rows.now self.entry.count self.entry.row }
    {
        step(self.rows, self.count, self.row)
    }

    // The walker at another row: the one that it gave.
    pub fn moved(self, row: usize) -> Walker<'a>
        ensures { (result.rows ≡ self.entry.rows) × (result.count ≡ self.entry.count) × (result.row ≡ row) }
    {
        Walker { row, ..self }
    }
}

// From row to row, as far as each instance has one. It ends, since each has a row of its own.
impl<'a> Iterator for Walker<'a> {
    type Item = usize;

    ghost next_gives = { YieldsFirst rows_of_walker };

    ghost remaining = { item_count rows_of_walker };

    #[tactic(auto, using(crate::proofs::Walking::left_none, crate::proofs::Walking::left_row))]
    fn next(&mut self) -> Option<usize> {
        let Found::Row(row) = self.peek() else {
            return None;
        };
        self.row = row;
        Some(row)
    }
}

// A walker's row with plain parameters: whoever goes from row to row by this one holds no walker.
// kept: step has the same clause. It stands below the walker, whose form in document 01 is a "thin next function over a covered
// number-based one"; this one stands above it.
pub fn row_after(rows: &[u16], count: usize, row: usize) -> Found
    ensures { found_of result ≡ step_of rows.now count row }
{
    Walker::new(rows, count).moved(row).peek()
}
