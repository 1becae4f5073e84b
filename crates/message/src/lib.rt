// Arrangements are definitions alone, in specs/. Of the rows that they state the code has this struct.
#![tactic(auto)]

ghost use Rattle.std.specs.Prelude.{◌≡◌};
ghost use Rattle.message.specs.Sixes.{row_from, six_of};

// A row of an index: tag, value start, value length, depth, count row, instance. In an index its six numbers stand in this order.
#[derive(Clone, Copy, Debug, PartialEq, Eq)]
pub struct Row {
    pub tag: u16,
    pub start: u16,
    pub length: u16,
    pub depth: u16,
    pub count: u16,
    pub instance: u16,
}

impl From<&[u16; 6]> for Row {
    ghost from_gives = { λ numbers row. row ≡ row_from numbers.now };

    fn from(numbers: &[u16; 6]) -> Row {
        let [tag, start, length, depth, count, instance] = *numbers;
        Row {
            tag,
            start,
            length,
            depth,
            count,
            instance,
        }
    }
}

impl From<Row> for [u16; 6] {
    ghost from_gives = { λ row numbers. numbers ≡ six_of row };

    fn from(row: Row) -> [u16; 6] {
        [
            row.tag,
            row.start,
            row.length,
            row.depth,
            row.count,
            row.instance,
        ]
    }
}
