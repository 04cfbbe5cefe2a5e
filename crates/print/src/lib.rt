// What the program prints, put into lent room as far as it goes: text, numbers in decimal, answers, lines. Places stay far below what a
// word holds, so that no sum wraps. An answer takes at most 11 bytes. Room and place are two parameters, as `put_fixed` and
// `put_line_fixed` of demands read them.
#![tactic(auto)]

ghost use Rattle.std.specs.Prelude.{◌≡◌, ◌+◌, ◌^◌, ◌<◌, ◌≤◌, length};
ghost use Rattle.model.specs.Answers.{refused, listed, number_of_refusal, number_of_order};
ghost use Rattle.print.specs.Text.{decimal};
ghost use Rattle.print.specs.Printed.{order_name, answer_text, line_text, said_answer};
ghost use Rattle.print.specs.Room.{Put};

use model::{Copies, Order, Refusal};

// What a call of any kind gives.
#[derive(Clone, Copy, Debug, PartialEq, Eq, Hash)]
pub enum Answer {
    Done,
    Order(Order),
    Copies(Copies),
}

// Text from `at` on, as far as the room goes; the answer is the place behind it. This is no `fmt::Write`: a `Display` promises its text
// only where the writer answers `Ok`, and here every byte of the room is fixed, also where the room ends.
pub fn put(out: &mut [u8], at: usize, text: &[u8]) -> usize
    requires { at ≤ 2 ^ 32 }
    ensures { Put text.now at out.old out.new result }
{
    let start = at.min(out.len());
    let n = text.len().min(out.len() - start);
    out[start..start + n].copy_from_slice(&text[..n]);
    at + text.len()
}

// A number in decimal, by way of the 20 bytes that `io::decimal` asks for.
fn put_number(out: &mut [u8], at: usize, n: usize) -> usize
    requires { at ≤ 2 ^ 32 }
    ensures { Put (decimal n) at out.old out.new result }
{
    let mut digits = [0u8; 20];
    // std has no `From<usize> for u64`.
    let k = io::decimal(n as u64, &mut digits);
    put(out, at, &digits[..k])
}

// `refused` and its number.
fn put_refused(out: &mut [u8], at: usize, x: Refusal) -> usize
    requires { at ≤ 2 ^ 31 }
    ensures { Put (answer_text (refused (number_of_refusal x))) at out.old out.new result × (result ≤ at + 11) }
{
    let next = put(out, at, b"refused ");
    put_number(out, next, usize::from(u8::from(x)))
}

// The comparison's name.
#[tactic(auto, unfolding(crate::specs::Printed::order_name))]
fn name_of(x: Order) -> &'static [u8]
    ensures { (result.now ≡ order_name (number_of_order x)) × (length result.now ≤ 11) }
{
    match x {
        Order::Equal => b"equal",
        Order::Older => b"older",
        Order::Newer => b"newer",
        Order::Conflicting => b"conflicting",
    }
}

// Mask and count, one space between.
fn put_copies(out: &mut [u8], at: usize, x: Copies) -> usize
    requires { at ≤ 2 ^ 31 }
    ensures { Put (answer_text (listed x.mask x.count)) at out.old out.new result × (result ≤ at + 11) }
{
    let next = put_number(out, at, usize::from(x.mask));
    let then = put(out, next, b" ");
    put_number(out, then, usize::from(x.count))
}

#[tactic(auto, unfolding(crate::specs::Printed::answer_text))]
fn put_answer(out: &mut [u8], at: usize, x: Result<Answer, Refusal>) -> usize
    requires { at ≤ 2 ^ 31 }
    ensures { Put (answer_text (said_answer x)) at out.old out.new result × (result ≤ at + 11) }
{
    match x {
        Ok(Answer::Done) => put(out, at, b"ok"),
        Ok(Answer::Order(order)) => put(out, at, name_of(order)),
        Ok(Answer::Copies(copies)) => put_copies(out, at, copies),
        Err(refusal) => put_refused(out, at, refusal),
    }
}

// A line: its number, the letter, the answer, one space between. It takes at most 20 bytes.
pub fn put_line(
    out: &mut [u8],
    at: usize,
    k: usize,
    letter: u8,
    x: Result<Answer, Refusal>,
) -> usize
    requires { (at ≤ 2 ^ 30) × (k < 100000) }
    ensures { Put (line_text k letter (said_answer x)) at out.old out.new result × (result ≤ at + 20) }
{
    let a = put_number(out, at, k);
    let b = put(out, a, &[b' ', letter, b' ']);
    let c = put_answer(out, b, x);
    put(out, c, b"\n")
}
