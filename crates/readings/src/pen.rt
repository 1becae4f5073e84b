// The bytes that a word of a case writes.
use std::alloc::{AllocError, Global};

#[derive(Drop)]
struct Pen<'a> {
    out: Vec<u8>,
    // what `@` stands for
    book: &'a [u8],
    // the text that was written last
    last: &'a [u8],
}

fn digit(b: u8) -> u8 {
    if b < b'a' { b % 16 } else { b % 16 + 9 }
}

// A number in decimal.
pub fn number(digits: &[u8]) -> usize {
    digits.iter().fold(0, |n: usize, b| {
        n.wrapping_mul(10).wrapping_add(usize::from(b % 16))
    })
}

impl<'a> Pen<'a> {
    // Two digits make a byte; one that is left over is left out, and so is `-`.
    fn hex(&mut self, digits: &[u8]) -> Result<(), AllocError> {
        let (pairs, _) = digits.as_chunks::<2>();
        for [high, low] in pairs {
            self.out.push(digit(*high) % 16 * 16 + digit(*low) % 16)?;
        }
        Ok(())
    }

    fn text(&mut self, text: &'a [u8]) -> Result<(), AllocError> {
        for &b in text {
            let meant = match b {
                b'|' => 1,
                b'~' => b' ',
                _ => b,
            };
            self.out.push(meant)?;
        }
        self.last = text;
        Ok(())
    }

    // The last text once more, so that it stands there so many times.
    fn again(&mut self, times: usize) -> Result<(), AllocError> {
        for _ in 1..times {
            self.text(self.last)?;
        }
        Ok(())
    }

    // What stands outside quotes: how often the text before it, or bytes.
    fn plain(&mut self, part: &[u8]) -> Result<(), AllocError> {
        match part {
            [b'*', times @ ..] => self.again(number(times)),
            [digits @ .., b'@'] => {
                self.hex(digits)?;
                self.out.extend_from_slice(self.book)
            }
            _ => self.hex(part),
        }
    }
}

// The bytes of a word, with the book for which `@` stands.
pub fn bytes(alloc: Global, book: &[u8], word: &[u8]) -> Result<Vec<u8>, AllocError> {
    let mut pen = Pen {
        out: Vec::new(alloc),
        book,
        last: &[],
    };
    for (i, part) in word.split(|b| *b == b'"').enumerate() {
        if i % 2 == 0 {
            pen.plain(part)?;
        } else {
            pen.text(part)?;
        }
    }
    Ok(pen.out)
}
