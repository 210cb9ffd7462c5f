// Short texts that say what an answer means, handed back by value. A refusal has one text, by its number, whichever
// call answered with it.
#![tactic(auto)]

ghost use Rattle.std.specs.Prelude.{◌≡◌};
ghost use Rattle.effect.specs.Says.{lack_number, verdict_said};
ghost use Rattle.num.specs.Answer.{answered};
ghost use Rattle.body.specs.Fault.{fault_number};
ghost use Rattle.filecheck.specs.File.{file_said};
ghost use Rattle.frame.specs.Place.{order_said};
ghost use Rattle.listing.specs.Text.{text_of};
ghost use Rattle.reader.specs.Item.{item_said};
ghost use Rattle.samples.specs.Copy.{copied_said};
ghost use Rattle.writer.specs.Write.{written_said};
ghost use Rattle.answers.specs.Refusals.{refusal_text};
ghost use Rattle.answers.specs.Texts.{answer_text, order_text, says_text, cause_text, item_text, written_text, copied_text, file_text};

use body::Fault;
use effect::{Lack, Verdict};
use filecheck::BadFile;
use frame::NoSyncWord;
use listing::{Text, word};
use num::{Numbered, Order};
use reader::{Cause, Item};
use samples::Uncopied;
use writer::Unwritten;

// The text of a number of refusal; no byte for a number that no refusal has.
#[tactic(auto, unfolding(crate::specs::Refusals::refusal_text, crate::specs::Refusals::rows, crate::specs::Refusals::text_in))]
pub fn refusal(number: u32) -> Text
    ensures { result ≡ text_of (refusal_text number) }
{
    match number {
        1 => word(b"no sync word of either order stands in the stream"),
        2 => word(b"the place is past the end of the slice"),
        3 => word(b"the cursor carries a state that is not good"),
        11 => word(b"the body is not of the size that its kind has"),
        12 => word(b"the body holds a value that its kind does not allow"),
        13 => word(b"the number of channels is not 1 to 16"),
        14 => word(b"the padding after the text is not zero"),
        15 => word(b"the text is not UTF-8"),
        16 => word(b"the channels of the group do not cover its pairs"),
        21 => word(b"the packing of the samples is not known yet"),
        22 => word(b"the sample rate is not known yet"),
        23 => word(b"the float full scale is not known yet"),
        31 => word(b"the slice has too little room for the record"),
        32 => word(b"the body is too long, or its size is no multiple of 4"),
        33 => word(b"the slice is too short for the samples"),
        34 => word(b"the chunk has no such channel"),
        35 => word(b"no ready data of this width is there"),
        41 => word(b"the file does not begin with a well-formed SOFH"),
        42 => word(b"data or the end of the file comes before a well-formed EOFH"),
        43 => word(b"a second SOFH stands in the file"),
        44 => word(b"the file has bytes that belong to no whole chunk"),
        _ => word(b""),
    }
}

// A call for each type of answer, as docs/CALLS.md has them: what they share is `refusal` and `text_for`.

// What an answer says: these words where something is given, and else the text of the refusal's number.
fn text_for<E: Numbered>(answer: Result<usize, E>, given: &[u8]) -> Text
    ensures { result ≡ text_of (answer_text (λ n. given.now) (answered E.number_of answer)) }
{
    match answer {
        Ok(_) => word(given),
        Err(e) => refusal(e.number()),
    }
}

// What finding the order of a stream answered: which order, or that there is none.
pub fn order(found: Result<Order, NoSyncWord>) -> Text
    ensures { result ≡ text_of (answer_text order_text (order_said found)) }
{
    match found {
        Ok(Order::Big) => word(b"big order"),
        Ok(Order::Little) => word(b"little order"),
        Err(none) => refusal(none.number()),
    }
}

// What is wrong with a body.
pub fn fault(fault: Fault) -> Text
    ensures { result ≡ text_of (refusal_text (fault_number fault)) }
{
    refusal(fault.number())
}

// What a data chunk lacks.
pub fn lack(lack: Lack) -> Text
    ensures { result ≡ text_of (refusal_text (lack_number lack)) }
{
    refusal(lack.number())
}

// What the reader said of a chunk: well-formed, of an unknown type, ready, or what is wrong or lacking.
pub fn verdict(verdict: Verdict) -> Text
    ensures { result ≡ text_of (says_text (verdict_said verdict)) }
{
    match verdict {
        Verdict::Good => word(b"well-formed"),
        Verdict::Unknown => word(b"unknown type"),
        Verdict::Ready(_) => word(b"ready data"),
        Verdict::Malformed(_) | Verdict::NotCovered | Verdict::Waits(..) => refusal(
            verdict.number(),
        ),
    }
}

// Why bytes were skipped.
pub fn cause(cause: Cause) -> Text
    ensures { result ≡ text_of (cause_text cause) }
{
    match cause {
        Cause::Searching => word(b"skipped bytes, the reader was searching already"),
        Cause::NoSync => word(b"skipped bytes, no sync word stands where one was due"),
        Cause::Large => word(b"skipped bytes, the size in the header is over 69632"),
        Cause::Uneven => word(b"skipped bytes, the size in the header is no multiple of 4"),
    }
}

// What a step answered: a refusal, the end, why bytes were skipped, an unfinished end, or what was said of a chunk.
pub fn item(item: Item) -> Text
    ensures { result ≡ text_of (answer_text item_text (item_said item)) }
{
    match item {
        Item::PastEnd | Item::BadState => refusal(item.number()),
        Item::End => word(b"end of the stream"),
        Item::Skipped { cause: why, .. } => cause(why),
        Item::Unfinished { .. } => word(b"unfinished chunk at the end"),
        Item::Chunk { verdict: said, .. } => verdict(said),
    }
}

// What writing a record answered: that it was written, or why not.
pub fn written(written: Result<usize, Unwritten>) -> Text
    ensures { result ≡ text_of (answer_text written_text (written_said written)) }
{
    text_for(written, b"written")
}

// What copying samples answered: that they were copied, or why not.
pub fn copied(copied: Result<usize, Uncopied>) -> Text
    ensures { result ≡ text_of (answer_text copied_text (copied_said copied)) }
{
    text_for(copied, b"copied")
}

// What the check of a file answered: that it is good, or what is wrong.
pub fn file(checked: Result<usize, BadFile>) -> Text
    ensures { result ≡ text_of (file_text (file_said checked)) }
{
    text_for(checked, b"a good file")
}
