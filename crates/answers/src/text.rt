// Answer lines put straight after bytes in memory, with no formatter between: with one they took 1.6 times the instructions of plain Rust, and without it 0.6.
ghost use Rattle.std.specs.Prelude.{◌≡◌, ◌+◌, ◌*◌, ◌<◌, ◌≤◌, ◌++◌, length, vec_len, vec_capacity, decimal, MatchResult};
ghost use Rattle.answers.specs.Answers.{items_text, numbers, outcome, answer_text};
ghost use Rattle.answers.specs.Texts.{longest};

use crate::Answer;
use itoa::Buffer;
use std::alloc::AllocError;

// The most bytes of an item: a space and the digits of a number of 64 bits.
const ITEM_BYTES: usize = 21;

// The most bytes of the rest of an answer: the brackets, the line's number, a space and the word.
const FRAME_BYTES: usize = 25;

// Puts a number in decimal after the bytes of `out`, which has the room.
#[tactic(auto, using(std::proofs::lemmas::Fmt::decimal_digit))]
fn put_number(out: &mut Vec<u8>, n: u64)
    requires { vec_len out.old + 20 ≤ vec_capacity out.old }
    ensures items { out.new.items ≡ out.old.items ++ decimal n }
    ensures len { vec_len out.new ≤ vec_len out.old + 20 }
    ensures capacity { vec_capacity out.old ≤ vec_capacity out.new }
{
    // One digit, which most numbers of answers have, is put without the buffer.
    if n < 10 {
        out.push_reserved(b'0' + n as u8);
        return;
    }
    let mut digits = Buffer::new();
    // There is room, so this cannot fail.
    let _ = out.extend_from_slice(digits.format(n).as_bytes());
}

// Puts numbers after the bytes of `out`, which has the room, each after one space.
fn put_items(out: &mut Vec<u8>, items: &[u64])
    requires { vec_len out.old + 21 * length items.now ≤ vec_capacity out.old }
    ensures items { out.new.items ≡ out.old.items ++ items_text items.now }
    ensures len { vec_len out.new ≤ vec_len out.old + 21 * length items.now }
    ensures capacity { vec_capacity out.old ≤ vec_capacity out.new }
{
    for n in items {
        out.push_reserved(b' ');
        put_number(out, *n);
    }
}

// Puts an answer's line after the bytes of `out`, which has the room.
fn put_answer(out: &mut Vec<u8>, answer: &Answer)
    requires { vec_len out.old + longest (length (numbers (outcome answer.now))) ≤ vec_capacity out.old }
    ensures { out.new.items ≡ out.old.items ++ answer_text answer.now }
{
    out.push_reserved(b'(');
    put_number(out, answer.line);
    out.push_reserved(b' ');
    let _ = out.extend_from_slice(answer.word().as_bytes());
    put_items(out, answer.numbers());
    out.push_reserved(b')');
}

// Appends the answer's line, without a newline; where memory is wanting for it the bytes stay as they are.
pub fn append_answer(out: &mut Vec<u8>, answer: &Answer) -> Result<(), AllocError>
    ensures { MatchResult result (λ _. out.new.items ≡ out.old.items ++ answer_text answer.now) (λ _. (out.new.items ≡ out.old.items) × (vec_capacity out.old < vec_len out.old + longest (length (numbers (outcome answer.now))))) }
{
    let room = ITEM_BYTES.saturating_mul(answer.numbers().len());
    out.reserve(FRAME_BYTES.saturating_add(room))?;
    put_answer(out, answer);
    Ok(())
}
