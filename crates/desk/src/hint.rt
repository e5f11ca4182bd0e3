// What a person is told whose input starts with neither mode. Standard output has the program's own answer to that; this goes to standard error.
ghost use Rattle.std.specs.Prelude.{◌≡◌};
ghost use Rattle.rules.specs.Lists.{some};
ghost use Rattle.lines.specs.Program.{lines_in};
ghost use Rattle.desk.specs.Input.{between, Within};
ghost use Rattle.desk.specs.Hint.{blank, capital, marked, hint_for, hint_in};

use crate::input::{Unread, line_end};
use console::Console;

// What the first line is instead of a mode: nothing came in, it is empty, begins with a byte order mark, ends in a carriage return, has a blank at an end,
// has a capital; or anything else.
#[derive(Clone, Copy)]
pub enum Hint {
    Nothing,
    Empty,
    Marked,
    Returned,
    Blank,
    Capital,
    Other,
}

#[tactic(auto, using(std::proofs::lemmas::Bool::Decides::nat_tests), unfolding(crate::specs::Hint::blank))]
fn is_blank(c: u8) -> bool
    ensures { result ≡ blank c }
{
    c == b' ' || c == b'\t'
}

// Whether it begins with a byte order mark.
fn is_marked(line: &[u8]) -> bool
    ensures { result ≡ marked line.now }
{
    line.starts_with(b"\xEF\xBB\xBF")
}

fn has_capital(line: &[u8]) -> bool
    ensures { result ≡ some capital line.now }
{
    line.iter().any(|c| c.is_ascii_uppercase())
}

#[tactic(auto, using(std::proofs::lemmas::Bool::Decides::nat_tests), unfolding(crate::specs::Hint::hint_for, crate::specs::Hint::last_of))]
fn hint_for(line: &[u8]) -> Hint
    ensures { result ≡ hint_for line.now }
{
    let [first, ..] = line else {
        return Hint::Empty;
    };
    let last = line[line.len() - 1];
    if is_marked(line) {
        Hint::Marked
    } else if last == b'\r' {
        Hint::Returned
    } else if is_blank(*first) || is_blank(last) {
        Hint::Blank
    } else if has_capital(line) {
        Hint::Capital
    } else {
        Hint::Other
    }
}

// Of the input that was read until its first line was whole.
pub fn hint_in(input: &[u8], u: Unread) -> Hint
    requires { Within u input.now }
    ensures { result ≡ hint_in u.cut (lines_in (between u.from u.to input.now)) }
{
    if u.cut {
        return Hint::Other;
    }
    let from = u.from;
    let Some(width) = line_end(&input[from..u.to]) else {
        return Hint::Nothing;
    };
    hint_for(&input[from..from + width])
}

pub fn tell(console: Console, h: Hint) {
    console.tell(match h {
        Hint::Nothing => {
            b"fenstubble: nothing came in: the first line must be 'delta' or 'full' (see --help)\n"
        }
        Hint::Empty => { b"fenstubble: the first line is empty: write 'delta' or 'full' there\n" }
        Hint::Marked => {
            b"fenstubble: the first line begins with a byte order mark: save the requests as plain text without one\n"
        }
        Hint::Returned => {
            b"fenstubble: the first line ends in a carriage return: save the requests with plain newlines (tr -d '\\r' < old > new)\n"
        }
        Hint::Blank => {
            b"fenstubble: the first line has a blank before or behind it: write 'delta' or 'full' alone\n"
        }
        Hint::Capital => {
            b"fenstubble: the first line has a capital: write 'delta' or 'full' in small letters\n"
        }
        Hint::Other => {
            b"fenstubble: the first line is neither 'delta' nor 'full' (see --help)\n"
        }
    });
}
