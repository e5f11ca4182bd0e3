// The lines that one call serves, as request rows.
ghost use Rattle.std.specs.Prelude.{◌≡◌, ◌+◌, ◌*◌, ◌≤◌, length, take};
ghost use Rattle.rows.specs.Number.{stored};
ghost use Rattle.rules.specs.Bytes.{tables_mut, SameTables};
ghost use Rattle.rules.specs.Calls.{serving, serve_call};
ghost use Rattle.plan.specs.Judge.{Ready};
ghost use Rattle.lines.specs.Request.{line_asks};
ghost use Rattle.desk.specs.Input.{Within};
ghost use Rattle.desk.specs.Block.{row_for, numbers_of, most_of, most_in, Reads, Enough, Answered};

use crate::input::{Unread, line_end};
use lines::request::{Asked, read_line};
use policy::serve::{REQUEST_WIDTH, serve};
use rules::{Head, RequestKind, Served, TablesMut};

// At most so many lines.
pub const BLOCK: usize = 128;

// The order list's rows, more than any request needs. A block ends before a request that may need more than are left, so that none finds the list too short.
pub const ORDERS: usize = 6144;

// The most order rows of any request, a leave's.
pub const MOST: usize = 4608;

// The kind that stands for a malformed line; no request has it, so the call does nothing for its row.
pub const MALFORMED: u64 = 14;

// The most order rows of a request of this kind.
fn most_rows(kind: u64) -> usize
    ensures { result ≡ most_of kind }
{
    match RequestKind::try_from(kind) {
        Ok(RequestKind::Join) => 2,
        Ok(RequestKind::Insert) => 132,
        Ok(RequestKind::Grant) => 385,
        Ok(RequestKind::Revoke) => 65,
        Ok(RequestKind::Open) => 126,
        Ok(RequestKind::Leave) => MOST,
        Err(_) => 0,
    }
}

// The row of a malformed line.
const NO_REQUEST: Asked = Asked {
    kind: MALFORMED,
    a: 0,
    b: 0,
};

// What a line asks; `cut` says that its start was dropped because it is too long.
// `cut` is a flag: what is left of the line comes with it either way, as in `row_for`.
fn asked(line: &[u8], cut: bool) -> Asked
    ensures { result ≡ row_for cut (line_asks line.now) }
{
    if cut {
        return NO_REQUEST;
    }
    read_line(line).unwrap_or(NO_REQUEST)
}

fn put_request(requests: &mut [u64], row: usize, q: Asked)
    requires { row * 3 + 3 ≤ length requests.old }
    ensures { requests.new ≡ stored (row * 3) (numbers_of q) requests.old }
{
    let at = row * REQUEST_WIDTH;
    requests[at..at + REQUEST_WIDTH].copy_from_slice(&[q.kind, q.a, q.b]);
}

// How many request rows were filled, and what is left of the input.
// The rows lie in lent memory of a fixed size, so that their count stands here.
#[derive(Clone, Copy)]
pub struct Block {
    pub rows: usize,
    pub unread: Unread,
}

// The next whole lines, until the rows are full or the order rows may not be enough for the next.
pub fn read_block(input: &[u8], u: Unread, requests: &mut [u64]) -> Block
    requires within { Within u input.now }
    requires in_bounds { 384 ≤ length requests.old }
    ensures within_2 { Within result.unread input.now }
    ensures rows_bound { result.rows ≤ 128 }
    ensures requests_bound { most_in (take (result.rows * 3) requests.new) ≤ 6144 }
    ensures reads { Reads u input.now result requests.new }
{
    let mut unread = u;
    let mut room = ORDERS;
    for rows in 0..BLOCK {
        let from = unread.from;
        let Some(width) = line_end(&input[from..unread.to]) else {
            return Block { rows, unread };
        };
        let end = from + width;
        let q = asked(&input[from..end], unread.cut);
        let most = most_rows(q.kind);
        if room < most {
            return Block { rows, unread };
        }
        room -= most;
        put_request(requests, rows, q);
        unread.from = end + 1;
        unread.cut = false;
    }
    Block {
        rows: BLOCK,
        unread,
    }
}

// The block's requests on the book, in one call. None finds the order list too short.
// `Ready` is a clause: the tables are lent to be changed, a `SoundBook`'s only to be read.
pub fn serve_block(
    h: Head,
    t: &mut TablesMut<'_>,
    requests: &[u64],
    answers: &mut [u16],
    orders: &mut [u16],
) -> Served
    requires ready { Ready h (tables_mut t.old) }
    requires enough { Enough requests.now answers.old orders.old }
    ensures answered { Answered (Ok result) (tables_mut t.new) (take (length requests.now) answers.new) orders.new }
    ensures orders_after { serving (Ok result) (tables_mut t.new) answers.new orders.new ≡ serve_call requests.now h (tables_mut t.old) answers.old orders.old }
    ensures same { SameTables t.old t.new }
{
    serve(h, t, requests, answers, orders).unwrap()
}
