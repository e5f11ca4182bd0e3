// The requests that change the book, with the order list lent as records of three numbers each. The work is that of `policy::requests`, on an array of numbers; its rows are then
// stored as records.
#![tactic(auto)]

ghost use Rattle.std.specs.Prelude.{◌≡◌, ◌<◌, ◌≤◌, ◌+◌, ◌*◌, length, set};
ghost use Rattle.rules.specs.Bytes.{tables_mut, SameTables};
ghost use Rattle.rules.specs.Calls.{changing, orders_in};
ghost use Rattle.plan.specs.Judge.{request_of};
ghost use Rattle.orders.specs.Records.{over, most_numbers, least, filled, recording, recorded};

use plan::Request;
use rules::{Applied, Head, Order, Refusal, TablesMut};

// The most orders that a request gives, a leave's (`allowed-rows`).
const MOST: usize = 4608;

// A row becomes record `at`: the thin function of RULES 14.9.
fn store(records: &mut [Order], at: usize, kind: u16, a: u16, b: u16)
    requires { at < length records.old }
    ensures { records.new ≡ set records.old at (record { kind = kind; a = a; b = b }) }
{
    records[at] = Order { kind, a, b };
}

// The first n rows of the numbers become the first n records.
// The rows are an array of a fixed size, so that their count n stands beside them.
fn store_rows(records: &mut [Order], rows: &[u16], n: usize)
    requires { (n * 3 ≤ length rows.now) × (n ≤ length records.old) }
    ensures { records.new ≡ over (orders_in n rows.now) records.old }
{
    for i in 0..n {
        let at = i * Order::WIDTH;
        store(records, i, rows[at], rows[at + 1], rows[at + 2]);
    }
}

fn rows_for(room: usize) -> usize
    ensures { result ≡ least room }
{
    room.min(MOST)
}

// The request on `room` rows of orders, which go to the first of these numbers.
fn fill(
    h: Head,
    t: &mut TablesMut<'_>,
    request: Request,
    rows: &mut [u16],
    room: usize,
) -> Result<Applied, Refusal>
    requires { most_numbers ≤ length rows.old }
    ensures same { SameTables t.old t.new }
    ensures change { changing result (tables_mut t.new) rows.new ≡ filled (request_of request) h (tables_mut t.old) room rows.old }
{
    let end = rows_for(room) * Order::WIDTH;
    policy::requests::change(h, t, &mut rows[..end], request)
}

// A request, on as many rows of orders as there are records.
#[tactic(auto, using(crate::proofs::Enough::refused_by, crate::proofs::Enough::answer_by, crate::proofs::Enough::tables_by))]
pub fn change(
    h: Head,
    t: &mut TablesMut<'_>,
    request: Request,
    records: &mut [Order],
) -> Result<Applied, Refusal>
    ensures same { SameTables t.old t.new }
    ensures change { recording result (tables_mut t.new) records.new ≡ recorded (request_of request) h (tables_mut t.old) records.old }
{
    // An array for the most orders, since nothing is put on a heap.
    let mut rows = [0u16; MOST * Order::WIDTH];
    let done = fill(h, t, request, &mut rows, records.len())?;
    store_rows(records, &rows, done.count as usize);
    Ok(done)
}
