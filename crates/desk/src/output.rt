// Standard output: answers are gathered in a buffer and written out when it is full or input has to be waited for.
ghost use Rattle.std.specs.Prelude.{true, ◌≡◌, ◌∷◌, ◌*◌, ◌≤◌, IfOk, length, take};
ghost use Rattle.std.specs.Result.{result_ok};
ghost use Rattle.lines.specs.Answer.{room_for};
ghost use Rattle.desk.specs.Output.{counts, never_more, longest, told, Prints, texts, Gathered};

use crate::block::MALFORMED;
use console::Console;
use lines::answer::put_answer;
use policy::serve::{ANSWER_WIDTH, REQUEST_WIDTH};
use rules::Order;
use std::io;

// The buffer's bytes: more than the longest answer has, that of a leave.
pub const OUTPUT: usize = 98304;

// One answer behind those gathered, or at the front once those are written out: how far the buffer is filled. At the front it has room, so that it fails only
// where they can't be written.
fn print_answer(
    console: Console,
    number: u16,
    view: u16,
    rows: &[u16],
    out: &mut [u8],
    filled: usize,
) -> io::Result<usize>
    requires filled_in_bounds { filled ≤ length out.old }
    requires out_value { room_for rows.now 0 out.old ≡ true }
    ensures filled { IfOk result (λ end. end ≤ length out.new) }
    ensures prints { Prints number view rows.now out.old filled (result_ok result) out.new }
{
    if let Some(end) = put_answer(number, view, rows, out, filled) {
        return Ok(end);
    }
    console.write_out(&out[..filled])?;
    Ok(put_answer(number, view, rows, out, 0).unwrap())
}

// The number that a row's line is answered with.
#[tactic(auto, using(std::proofs::lemmas::Bool::Decides::nat_tests), unfolding(crate::specs::Output::told))]
fn number_told(kind: u64, number: u16) -> u16
    ensures { result ≡ told kind number }
{
    if kind == MALFORMED { 14 } else { number }
}

// The answers of a block, each with its stretch of the order list.
pub fn print_block(
    console: Console,
    requests: &[u64],
    answers: &[u16],
    orders: &[u16],
    out: &mut [u8],
    filled: usize,
) -> io::Result<usize>
    requires answers_in_bounds { length answers.now ≤ length requests.now }
    requires answers_in_bounds_2 { counts answers.now * 3 ≤ length orders.now }
    requires filled_in_bounds { filled ≤ length out.old }
    requires answers_value { never_more answers.now ≡ true }
    requires longest_in_bounds { longest ≤ length out.old }
    ensures filled { IfOk result (λ end. end ≤ length out.new) }
    ensures gathered { IfOk result (λ end. Gathered (take filled out.old ∷ texts requests.now answers.now orders.now) end out.new) }
{
    let mut end = filled;
    let mut left = orders;
    let asked = requests.chunks_exact(REQUEST_WIDTH);
    for (request, answer) in asked.zip(answers.chunks_exact(ANSWER_WIDTH)) {
        let number = number_told(request[0], answer[0]);
        let (rows, behind) = left.split_at(usize::from(answer[2]) * Order::WIDTH);
        end = print_answer(console, number, answer[1], rows, out, end)?;
        left = behind;
    }
    Ok(end)
}
