// The records of a book, one after the other.
ghost use Rattle.std.specs.Prelude.{◌+◌, ◌<◌, ◌^◌, length};

use crate::records::{Kind, Record, past_others, record_size};

// The records from an offset on, by the book's bytes from there on.
#[derive(Clone, Copy, Debug)]
pub(crate) struct Records<'a> {
    at: usize,
    rest: &'a [u8],
    ghost fits: { at + length rest.now < 2 ^ 64 },
}

impl<'a> Records<'a> {
    ghost use Rattle.std.specs.Prelude.{◌≡◌, ℕ, List};
    ghost use Rattle.book.specs.Records.{records, is_kind, is_message, look_up};
    ghost use Rattle.book.specs.Walked.{kind_number, records_left};

    #[tactic(auto, unfolding(crate::specs::Records::records))]
    pub(crate) fn of(book: &'a [u8]) -> Self
        ensures { records_left result ≡ records book.now }
    {
        Records { at: 0, rest: book }
    }

    // The records but for some at the front that are not of that kind and tag, nor messages.
    pub(crate) fn past_others(book: &'a [u8], kind: Kind, tag: u16) -> Self
        ensures same { look_up (is_kind (kind_number kind) tag) (records_left result) ≡ look_up (is_kind (kind_number kind) tag) (records book.now) }
        ensures messages { (text : List ℕ) → look_up (is_message text) (records_left result) ≡ look_up (is_message text) (records book.now) }
    {
        let at = past_others(book, kind, tag);
        Records {
            at,
            rest: &book[at..],
        }
    }
}

impl<'a> Iterator for Records<'a> {
    ghost use Rattle.std.specs.Iterator.{YieldsFirstBy, item_count};
    ghost use Rattle.book.specs.Walked.{record_in, records_left};

    type Item = Record<'a>;

    ghost next_gives = { YieldsFirstBy record_in records_left };

    ghost remaining = { item_count records_left };

    #[tactic(auto, using(crate::proofs::Look::no_record, crate::proofs::Look::next_record, crate::proofs::Look::next_fits))]
    fn next(&mut self) -> Option<Record<'a>> {
        let record = Record {
            offset: self.at,
            bytes: self.rest,
        };
        let n = record_size(self.rest)?;
        self.at += n;
        self.rest = &self.rest[n..];
        Some(record)
    }
}
