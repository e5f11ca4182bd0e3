// A line of the request program, without its newline.
ghost use Rattle.std.specs.Prelude.{◌≡◌, ◌≤◌, length};
ghost use Rattle.lines.specs.Request.{shaped, number_in, kind_of, twice, users, above, insert_of, exactly, row_of, line_asks, first_line};
ghost use Rattle.rules.specs.Lists.{first};
ghost use Rattle.rules.specs.Kinds.{request_number};
ghost use Rattle.lines.specs.Reading.{space, Rest, behind, numbers_of, got, counted, kind_told};

use rules::{Mode, RequestKind};
use sets::{User, Users};

// A set can name the users below it.
const LIMIT: u64 = Users::LIMIT as u64;

// A request as the row of three numbers that a call which serves several requests takes: its kind is a number, as in C.
#[derive(Clone, Copy)]
pub struct Asked {
    pub kind: u64,
    pub a: u64,
    pub b: u64,
}

// One to five bytes that start with 0 only if there is no other: a NUMBER of RULES 10.4, if they are digits.
#[tactic(auto, using(std::proofs::lemmas::Bool::Decides::nat_tests), unfolding(crate::specs::Request::shaped))]
fn shaped(piece: &[u8]) -> bool
    ensures { result ≡ shaped piece.now }
{
    match piece {
        [_] => true,
        [] | [b'0', ..] => false,
        _ => piece.len() <= 5,
    }
}

// The number that a piece is.
fn number_in(piece: &[u8]) -> Option<u64>
    ensures { result ≡ number_in piece.now }
{
    if !shaped(piece) {
        return None;
    }
    let mut n = 0;
    for c in piece {
        if !c.is_ascii_digit() {
            return None;
        }
        n = n * 10 + u64::from(c - b'0');
    }
    Some(n)
}

// Whether a number comes twice.
fn repeats(numbers: &[u64]) -> bool
    ensures { result ≡ twice numbers.now }
{
    let mut rest = numbers;
    while let [n, behind @ ..] = rest {
        if behind.contains(n) {
            return true;
        }
        rest = behind;
    }
    false
}

// The set of the users up to 63.
fn users_of(numbers: &[u64]) -> u64
    ensures { result ≡ users numbers.now }
{
    let mut users = Users::empty();
    for n in numbers {
        if *n < LIMIT {
            users = users.with(User(*n as u16));
        }
    }
    u64::from(users)
}

// 1 if a number is above 63.
fn above_of(numbers: &[u64]) -> u64
    ensures { result ≡ above numbers.now }
{
    u64::from(numbers.iter().any(|n| *n >= LIMIT))
}

// Which request a word is.
#[tactic(auto, using(crate::proofs::Passed::same_is), unfolding(crate::specs::Request::kind_of, crate::specs::Request::words, rules::specs::Lists::first))]
fn kind_of(word: &[u8]) -> Option<RequestKind>
    ensures { kind_told result ≡ kind_of word.now }
{
    if word == b"join".as_slice() {
        Some(RequestKind::Join)
    } else if word == b"insert".as_slice() {
        Some(RequestKind::Insert)
    } else if word == b"grant".as_slice() {
        Some(RequestKind::Grant)
    } else if word == b"revoke".as_slice() {
        Some(RequestKind::Revoke)
    } else if word == b"open".as_slice() {
        Some(RequestKind::Open)
    } else if word == b"leave".as_slice() {
        Some(RequestKind::Leave)
    } else {
        None
    }
}

// An insert of the users that the numbers name.
fn insert_of(numbers: &[u64]) -> Option<Asked>
    ensures { result ≡ insert_of numbers.now }
{
    if repeats(numbers) {
        return None;
    }
    Some(Asked {
        kind: RequestKind::Insert.number(),
        a: users_of(numbers),
        b: above_of(numbers),
    })
}

// A request of exactly n numbers, two at most; what it has no number for is 0.
fn exactly(n: usize, kind: RequestKind, numbers: &[u64]) -> Option<Asked>
    ensures { result ≡ exactly n (request_number kind) numbers.now }
{
    if numbers.len() != n {
        return None;
    }
    let (a, b) = match numbers {
        [] => (0, 0),
        [a] => (*a, 0),
        [a, b, ..] => (*a, *b),
    };
    Some(Asked {
        kind: kind.number(),
        a,
        b,
    })
}

// The request of a word and its numbers.
fn row_of(kind: RequestKind, numbers: &[u64]) -> Option<Asked>
    ensures { result ≡ row_of (request_number kind) numbers.now }
{
    match kind {
        RequestKind::Join => exactly(0, kind, numbers),
        RequestKind::Insert => insert_of(numbers),
        RequestKind::Grant | RequestKind::Revoke | RequestKind::Open => exactly(2, kind, numbers),
        RequestKind::Leave => exactly(1, kind, numbers),
    }
}

// How many numbers a line's rest has, put into the array, if each piece is one. The rest is the part behind the word and starts at a space or is empty, as RULES
// 14.3 asks: so its first piece is empty, and no number.
fn read_numbers(rest: &[u8], numbers: &mut [u64]) -> Option<usize>
    requires rest { Rest rest.now }
    requires in_bounds { 256 ≤ length numbers.old }
    ensures numbers_after { got result numbers.new ≡ numbers_of (behind rest.now) }
    ensures result_bound { counted result ≤ 256 }
{
    // Counted by hand: how many there are is the result, which `enumerate` tells only in the loop.
    let mut count = 0;
    for piece in rest.split(|c| *c == b' ').skip(1) {
        numbers[count] = number_in(piece)?;
        count += 1;
    }
    Some(count)
}

// Where a line's first word ends: at a space or at the line's end.
fn word_end(line: &[u8]) -> usize
    ensures value { result ≡ first space line.now }
    ensures upper_bound { result ≤ length line.now }
{
    line.iter().position(|c| *c == b' ').unwrap_or(line.len())
}

// What a line asks, if it is a request; it is given without its newline. "It has at most 512 bytes", so at most 256 numbers.
pub fn read_line(line: &[u8]) -> Option<Asked>
    ensures { result ≡ line_asks line.now }
{
    if line.len() > 512 {
        return None;
    }
    let k = word_end(line);
    let kind = kind_of(&line[..k])?;
    // An array with a count beside it: nothing is put on a heap.
    let mut numbers = [0u64; 256];
    let count = read_numbers(&line[k..], &mut numbers)?;
    row_of(kind, &numbers[..count])
}

// The mode that the first line names, if it names one.
#[tactic(auto, using(crate::proofs::Passed::same_is), unfolding(crate::specs::Request::first_line, crate::specs::Request::mode_of, crate::specs::Request::modes, rules::specs::Lists::first))]
pub fn read_mode(line: &[u8]) -> Option<Mode>
    ensures { result ≡ first_line line.now }
{
    if line == b"full".as_slice() {
        Some(Mode::FULL)
    } else if line == b"delta".as_slice() {
        Some(Mode::DELTA)
    } else {
        None
    }
}
