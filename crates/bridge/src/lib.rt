// The reader with its theorem for a contract, for a caller in Rattle.
#![tactic(auto)]

ghost use Rattle.std.specs.Prelude.{◌≡◌, ◌↔◌, IsOk, IfOk, IfErr, OnErr};
ghost use Rattle.book.specs.Check.{sound, check};
ghost use Rattle.message.specs.Arrangement.{Arrangement};
ghost use Rattle.reader.specs.Refusals.{number, tag_of};
ghost use Rattle.bridge.specs.Arranged.{Gives, IsRoomy, Fits, States, OfTable};

use reader::reading;
use reader::refusal::Refused;

// `read` of the crate reader: a message is accepted exactly if some arrangement of fields and group instances that the book permits, written
// out, gives those bytes; there is never more than one, and the index states it. A refusal is of the table, and the index stays.
#[tactic(auto, using(crate::proofs::Tied::accepted, crate::proofs::Tied::exactly, crate::proofs::Tied::stated, crate::proofs::Tied::kept, crate::proofs::Tied::in_table))]
pub fn read_arrangement(book: &[u8], msg: &[u8], index: &mut [u16]) -> Result<usize, Refused>
    ensures accepted { IsRoomy book.now msg.now index.old → (IsOk result ↔ ((A : Arrangement) × Gives book.now msg.now A)) }
    // of any book, message and index
    ensures exactly { IsOk result ↔ ((A : Arrangement) × Gives book.now msg.now A × Fits book.now msg.now index.old A) }
    ensures stated { IfOk result (λ n. (A : Arrangement) × Gives book.now msg.now A × States A msg.now index.old index.new n) }
    ensures one { check book.now ≡ sound → (A C : Arrangement) → Gives book.now msg.now A → Gives book.now msg.now C → A ≡ C }
    ensures kept { OnErr result (index.new ≡ index.old) }
    ensures refused { IfErr result (λ r. OfTable book.now msg.now index.old (number r.why) r.at (tag_of r.why)) }
{
    reading::read(book, msg, index)
}

// The same of `read_checked`, which leaves out whether the book is sound: of a book that is, these are the promises of `read_arrangement`.
pub fn read_arrangement_checked(
    book: &[u8],
    msg: &[u8],
    index: &mut [u16],
) -> Result<usize, Refused>
    ensures accepted { IsRoomy book.now msg.now index.old → (IsOk result ↔ ((A : Arrangement) × Gives book.now msg.now A)) }
    ensures exactly { check book.now ≡ sound → IsOk result ↔ ((A : Arrangement) × Gives book.now msg.now A × Fits book.now msg.now index.old A) }
    ensures stated { check book.now ≡ sound → IfOk result (λ n. (A : Arrangement) × Gives book.now msg.now A × States A msg.now index.old index.new n) }
    ensures one { check book.now ≡ sound → (A C : Arrangement) → Gives book.now msg.now A → Gives book.now msg.now C → A ≡ C }
    ensures kept { check book.now ≡ sound → OnErr result (index.new ≡ index.old) }
    ensures refused { check book.now ≡ sound → IfErr result (λ r. OfTable book.now msg.now index.old (number r.why) r.at (tag_of r.why)) }
{
    reading::read_checked(book, msg, index)
}
