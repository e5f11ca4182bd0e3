// The check program: a book's bytes from standard input; whether they are a sound book, or what is wrong with them and where, to standard output (RULES 15).
//
// Proved: the text that is put into the output buffer, each byte of it, is the text that specs/Text.antt gives for the whole input, however long it is. Not
// proved, since no contract can say it: that the system hands over the bytes of standard input in their order, and puts out those of the buffer.
#![tactic(auto)]

mod answer;
mod input;
mod memory;
mod text;
mod words;

ghost use Rattle.std.specs.Prelude.{◌≡◌, ◌+◌, ◌≤◌, IfOk, length};
ghost use Rattle.inspect.specs.Input.{longest};
ghost use Rattle.inspect.specs.Text.{Told};

use answer::put_check;
use console::{Console, zeros};
use input::read_all;
use memory::{INPUT, OUTPUT};
use std::io;
use std::io::Read;

// Reads the input and puts the answer into the output buffer: where its text ends.
fn check<R: Read>(reader: &mut R, input: &mut [u8], out: &mut [u8]) -> io::Result<usize>
    requires longest_value { longest + 1 ≡ length input.old }
    requires in_bounds { 512 ≤ length out.old }
    ensures { IfOk result (λ end. Told input.new end out.new (R.remaining reader.old) (R.remaining reader.new)) }
{
    let total = read_all(reader, input)?;
    let kept = total.min(input.len());
    Ok(put_check(&input[..kept], total, out))
}

fn main(rt: HostRuntime) {
    let console = Console {
        stdin: rt.stdin(),
        stdout: rt.stdout(),
        stderr: rt.stderr(),
    };
    let mut input: [u8; INPUT] = zeros(0);
    let mut out: [u8; OUTPUT] = zeros(0);
    let mut stdin = console.stdin;
    match check(&mut stdin, &mut input, &mut out) {
        Ok(end) => {
            let _ = console.write_out(&out[..end]);
        }
        Err(_) => console.tell_unread(),
    }
}
