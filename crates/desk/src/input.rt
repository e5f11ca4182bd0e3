// Standard input, line by line: the part of a buffer that was read and holds lines not yet taken.
ghost use Rattle.std.specs.Prelude.{[], ◌≡◌, ◌-◌, ◌≤◌, ◌<◌, IfOk, IfSome, length, position};
ghost use Rattle.lines.specs.Program.{newline, lines_in};
ghost use Rattle.desk.specs.Input.{between, Within, pending, lacks_line, Got, FirstRead, Kept, Keeps, Ends, mode_taken};

use console::Console;
use lines::request::read_mode;
use rules::Mode;
use std::io;
use std::io::ErrorKind;

// The buffer's bytes: a line too long to be a request and one read more.
pub const INPUT: usize = 16384;

// The most bytes of a line: RULES 10.4.
pub const LONGEST: usize = 512;

// The bytes from `from` to `to`. `cut`: the first of them belong to a line that is longer than a line may be, whose start was dropped.
// `ended`: no more is to be read. (Two flags and no enum: each may hold with the other and without it.)
#[derive(Clone, Copy)]
pub struct Unread {
    pub from: usize,
    pub to: usize,
    pub cut: bool,
    pub ended: bool,
}

// Where the first newline stands. A call, since the loop takes an instruction more for each byte where it is built into `read_block`.
#[inline(never)]
pub fn line_end(stretch: &[u8]) -> Option<usize>
    ensures { result ≡ position newline stretch.now }
{
    stretch.iter().position(|c| *c == b'\n')
}

// An unfinished line at the buffer's front; of one that is too long nothing is kept.
fn keep_start(input: &mut [u8], u: Unread) -> Unread
    requires { Within u input.old }
    ensures kept { Kept result }
    ensures keeps { Keeps u input.old result input.new }
{
    let n = u.to - u.from;
    if u.cut || n > LONGEST {
        return Unread {
            from: 0,
            to: 0,
            cut: true,
            ended: false,
        };
    }
    input.copy_within(u.from..u.to, 0);
    Unread {
        from: 0,
        to: n,
        cut: false,
        ended: false,
    }
}

// At the end of the input: the newline that the last line may lack.
fn end_last(input: &mut [u8], u: Unread) -> Unread
    requires kept { Kept u }
    requires in_bounds { 512 < length input.old }
    requires input_value { lines_in (pending u input.old) ≡ [] }
    ensures within { Within result input.new }
    ensures ends { Ends result (pending result input.new) (pending u input.old) }
{
    let to = u.to;
    if to == 0 && !u.cut {
        return Unread {
            from: 0,
            to: 0,
            cut: false,
            ended: true,
        };
    }
    input[to] = b'\n';
    Unread {
        from: 0,
        to: to + 1,
        cut: u.cut,
        ended: true,
    }
}

// One read behind an unfinished line. A read that fails ends the program; the unfinished line is not taken for a whole one.
pub fn read_more(console: Console, input: &mut [u8], u: Unread) -> io::Result<Unread>
    requires within { Within u input.old }
    requires in_bounds { 512 < length input.old }
    requires input_value { lines_in (pending u input.old) ≡ [] }
    ensures { IfOk result (λ r. Got u input.old r input.new) }
{
    let kept = keep_start(input, u);
    let to = kept.to;
    let n = console.read(&mut input[to..])?;
    if n == 0 {
        return Ok(end_last(input, kept));
    }
    Ok(Unread {
        from: 0,
        to: to + n,
        cut: kept.cut,
        ended: false,
    })
}

// Whether a whole line is still to be waited for.
fn lacks_line(input: &[u8], u: Unread) -> bool
    requires { Within u input.now }
    ensures { result ≡ lacks_line u input.now }
{
    !u.ended && line_end(&input[u.from..u.to]).is_none()
}

// Reads until the first line is whole, or the input ends. (The turns are counted, since nothing says that the input ends. An input that uses them up fails.)
pub fn read_first(console: Console, input: &mut [u8]) -> io::Result<Unread>
    requires { 512 < length input.old }
    ensures within { IfOk result (λ r. Within r input.new) }
    ensures first_read { IfOk result (λ r. FirstRead r input.new) }
{
    let mut u = Unread {
        from: 0,
        to: 0,
        cut: false,
        ended: false,
    };
    for _ in 0..u64::MAX {
        if !lacks_line(input, u) {
            return Ok(u);
        }
        u = read_more(console, input, u)?;
    }
    console.tell_unread();
    Err(ErrorKind::TimedOut.into())
}

// The mode that the first line names, and what comes after that line.
#[derive(Clone, Copy)]
pub struct Taken {
    pub mode: Mode,
    pub unread: Unread,
}

pub fn take_mode(input: &[u8], u: Unread) -> Option<Taken>
    requires { Within u input.now }
    ensures within { IfSome result (λ t. Within t.unread input.now) }
    ensures moded { IfSome result (λ t. t.mode.0 ≤ 1) }
    ensures value { result ≡ mode_taken u u.cut (lines_in (between u.from u.to input.now)) }
{
    if u.cut {
        return None;
    }
    let from = u.from;
    let to = u.to;
    let end = from + line_end(&input[from..to])?;
    Some(Taken {
        mode: read_mode(&input[from..end])?,
        unread: Unread {
            from: end + 1,
            to,
            cut: false,
            ended: u.ended,
        },
    })
}
