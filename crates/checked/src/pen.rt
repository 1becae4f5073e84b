// The bytes that the words or the value of a case write. What does not fit is left out.
use arrayvec::ArrayVec;
use book::records::Kind;
use numbers::u16_at;

// More than the 16,384 bytes of the longest book.
const ROOM: usize = 16400;

#[derive(Drop)]
pub struct Pen {
    out: ArrayVec<u8, ROOM>,
    // where the length of the open record stands
    open: Option<usize>,
}

// kept: what a case answers may not change, and a byte that is no digit counts too, where `to_digit` gives none.
fn digit(b: u8) -> u8 {
    if b < b'a' {
        return b % 16;
    }
    b % 16 + 9
}

// A number with one digit more.
pub fn further(n: u16, b: u8) -> u16 {
    n.wrapping_mul(10).wrapping_add(u16::from(digit(b)))
}

fn number(digits: &[u8]) -> u16 {
    digits.iter().fold(0, |n, b| further(n, *b))
}

// A field's bytes with the tag one higher.
fn raised(mut field: [u8; 10]) -> [u8; 10] {
    let [_, _, _, _, low, high, ..] = field;
    let [low, high] = u16::from_le_bytes([low, high])
        .saturating_add(1)
        .to_le_bytes();
    field[4] = low;
    field[5] = high;
    field
}

impl Pen {
    pub fn new() -> Pen {
        Pen {
            out: ArrayVec::new(),
            open: None,
        }
    }

    // For the next case: nothing is written.
    pub fn clear(&mut self) {
        self.out.clear();
        self.open = None;
    }

    pub fn bytes(&self) -> &[u8] {
        self.out.as_slice()
    }

    fn put(&mut self, b: u8) {
        let _ = self.out.try_push(b);
    }

    fn put_number(&mut self, n: u16) {
        for b in n.to_le_bytes() {
            self.put(b);
        }
    }

    // In place of the number that stands there.
    fn set_number(&mut self, at: usize, n: u16) {
        let Some(behind) = self.out.as_mut_slice().get_mut(at..) else {
            return;
        };
        for (old, new) in behind.iter_mut().zip(n.to_le_bytes()) {
            *old = new;
        }
    }

    // A text in which one byte stands for another.
    pub fn text(&mut self, text: &[u8], mark: u8, meant: u8) {
        for &b in text {
            self.put(if b == mark { meant } else { b });
        }
    }

    // Two digits make a byte; one that is left over is left out.
    fn hex(&mut self, digits: &[u8]) {
        let (pairs, _) = digits.as_chunks::<2>();
        for [high, low] in pairs {
            self.put(digit(*high) % 16 * 16 + digit(*low) % 16);
        }
    }

    // The last four bytes so many times more, as far as there is room.
    fn again(&mut self, last: [u8; 4], times: u16) {
        for _ in 0..times {
            if self.out.try_extend_from_slice(&last).is_err() {
                let room = self.out.remaining_capacity().min(4);
                let _ = self.out.try_extend_from_slice(&last[..room]);
                return;
            }
        }
    }

    // The tag of the field that ends here, so much higher.
    fn raise(&mut self, by: u16) {
        if let Some(at) = self.out.len().checked_sub(6) {
            let tag = u16_at(self.bytes(), at);
            self.set_number(at, tag.saturating_add(by));
        }
    }

    // So many fields more, the tag one higher each time. With no field to repeat, or no room, the tag goes up alone.
    fn run(&mut self, count: u16) {
        let Some(mut field) = self.bytes().last_chunk::<10>().copied() else {
            self.raise(count);
            return;
        };
        for left in (1..=count).rev() {
            let next = raised(field);
            if self.out.try_extend_from_slice(&next).is_err() {
                let room = self.out.remaining_capacity().min(10);
                let _ = self.out.try_extend_from_slice(&field[..room]);
                self.raise(left);
                return;
            }
            field = next;
        }
    }

    // A record with the length 0 so far.
    fn begin(&mut self, kind: Kind) {
        self.open = Some(self.out.len());
        self.put_number(0);
        self.put_number(u16::from(kind));
    }

    fn mark(&mut self, b: u8) {
        match b {
            b'f' => self.begin(Kind::Field),
            b'm' => self.begin(Kind::Message),
            b'g' => self.begin(Kind::Group),
            _ => self.open = None,
        }
    }

    // `f`, `m`, `g` and `.` need no space behind them.
    fn word(&mut self, word: &[u8]) {
        let marks = word
            .iter()
            .take_while(|b| matches!(b, b'f' | b'm' | b'g' | b'.'))
            .count();
        let (marks, rest) = word.split_at(marks);
        for &b in marks {
            self.mark(b);
        }
        match rest {
            [b'0'..=b'9', ..] => self.put_number(number(rest)),
            [b'x', digits @ ..] => self.hex(digits),
            [b'*', digits @ ..] => {
                if let Some(last) = self.bytes().last_chunk::<4>().copied() {
                    self.again(last, number(digits));
                }
            }
            [b'+', digits @ ..] => {
                self.open = None;
                self.run(number(digits));
            }
            _ => self.text(rest, b'_', 0),
        }
    }

    // The length of the open record, as it is so far.
    fn count(&mut self) {
        if let Some(start) = self.open {
            let behind = self.out.len().saturating_sub(start).saturating_sub(2);
            self.set_number(start, behind as u16);
        }
    }

    // The words of a book. The first may go on with a number that the label has begun.
    pub fn words(&mut self, words: &[u8], in_number: bool) {
        for (i, word) in words.split(|b| *b == b' ').enumerate() {
            if in_number && i == 0 {
                self.put_number(number(word));
            } else {
                self.word(word);
            }
            self.count();
        }
    }
}
