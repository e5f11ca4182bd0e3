// Several requests in one call: 13 and 12 once, first; then each on the book that the ones before it left and on the order rows left.
// A request, an answer and an order are rows of three numbers.
ghost use Rattle.std.specs.Prelude.{◌≡◌, ◌+◌, ◌*◌, ◌≤◌, length};
ghost use Rattle.std.proofs.Math.Option.{none};
ghost use Rattle.rows.specs.Number.{stored};
ghost use Rattle.rules.specs.Bytes.{tables_of, tables_mut, SameTables, book_in};
ghost use Rattle.rules.specs.Kinds.{order_number};
ghost use Rattle.rules.specs.Calls.{opens, asked, asked_in, rows_lent, one, change_one, chain_rows, all, serve_by, serve_call, serving};
ghost use Rattle.plan.specs.Judge.{Ready};
ghost use Rattle.policy.specs.Open.{Passed};
ghost use Rattle.policy.specs.Serve.{asked_of, narrow, number_of, answer_row, after, marked, Answerable};

use crate::open::{judge_open, put_chains};
use crate::requests::carry_out;
use layer::cover::put_order;
use plan::Request;
use rules::{
    Applied, Chains, Head, Order, OrderKind, Refusal, RequestKind, Resource, Served, Tables,
    TablesMut,
};
use sets::{User, Users};
use sound::check;

// The numbers of a request row, and of an answer row.
pub const REQUEST_WIDTH: usize = 3;

pub const ANSWER_WIDTH: usize = 3;

// The most rows that the two chains of an open can have together: each has fewer than there are users. They stand in an array, since nothing is put on a heap.
pub const CHAINS: usize = 2 * (Users::LIMIT as usize - 1);

// ---- what a row asks

#[derive(Clone, Copy)]
pub enum Asks {
    Change(Request),
    Open(User, Resource),
}

// A user's or a resource's number has 16 bits: a number past them is nobody's.
fn number(n: u64) -> Option<u16>
    ensures { result ≡ number_of n }
{
    u16::try_from(n).ok()
}

// What a row asks, if anything. An insert whose b is not 0 also names a user above 63; the b of a leave is not read.
#[tactic(auto, unfolding(rules::specs::Calls::asked, crate::specs::Serve::narrow, crate::specs::Serve::within16))]
fn row_asks(kind: u64, a: u64, b: u64) -> Option<Asks>
    ensures { asked_of result ≡ narrow (asked kind a b) }
{
    match RequestKind::try_from(kind).ok()? {
        RequestKind::Join => Some(Asks::Change(Request::Join)),
        RequestKind::Insert => {
            if b != 0 {
                return None;
            }
            Some(Asks::Change(Request::Insert(Users::from(a))))
        }
        RequestKind::Grant => {
            let r = Resource(number(a)?);
            let u = User(number(b)?);
            Some(Asks::Change(Request::Grant(r, u)))
        }
        RequestKind::Revoke => {
            let r = Resource(number(a)?);
            let u = User(number(b)?);
            Some(Asks::Change(Request::Revoke(r, u)))
        }
        RequestKind::Open => {
            let u = User(number(a)?);
            let r = Resource(number(b)?);
            Some(Asks::Open(u, r))
        }
        RequestKind::Leave => Some(Asks::Change(Request::Leave(User(number(a)?)))),
    }
}

// ---- one request

// Rows of a chain into the order rows from `row` on, with the mark of their layer.
fn put_marked(list: &[u16], mark: OrderKind, orders: &mut [u16], row: usize)
    requires { (row + length list.now) * 3 ≤ length orders.old }
    ensures { orders.new ≡ stored (row * 3) (marked (order_number mark) list.now) orders.old }
{
    for (i, &k) in list.iter().enumerate() {
        put_order(orders, row + i, mark.number(), k, 0);
    }
}

// Both chains' rows as order rows: 'i' marks the inner ones, 'o' the outer.
#[tactic(auto, using(crate::proofs::OpenLaws::length_opened))]
fn put_shown(h: Head, t: &Tables<'_>, u: User, r: Resource, k: Chains, orders: &mut [u16])
    requires { Passed h (tables_of t.now) u.0 r.0 (rows_lent orders.old) k }
    ensures { orders.new ≡ stored 0 (chain_rows (book_in h (tables_of t.now)) u.0 r.0) orders.old }
{
    let mut list = [0u16; CHAINS];
    let inner = k.inner as usize;
    let outer = k.outer as usize;
    put_chains(h, t, u, r, inner, &mut list);
    put_marked(&list[..inner], OrderKind::InnerRow, orders, 0);
    put_marked(
        &list[inner..inner + outer],
        OrderKind::OuterRow,
        orders,
        inner,
    );
}

// An open on tables that are known to be long enough and to hold a sound book: the head stays, and its rows count.
// `Ready` is a clause: head and tables come apart from `answer_one`, which may change the tables.
fn open_one(
    h: Head,
    t: &Tables<'_>,
    u: User,
    r: Resource,
    orders: &mut [u16],
) -> Result<Applied, Refusal>
    requires { Ready h (tables_of t.now) }
    ensures { change_one result h (tables_of t.now) orders.new ≡ one (opens u.0 r.0) h (tables_of t.now) orders.old }
{
    let k = judge_open(h, t, u, r, orders.len() / Order::WIDTH)?;
    put_shown(h, t, u, r, k, orders);
    Ok(Applied {
        head: h,
        count: k.inner + k.outer,
    })
}

// One of several requests, on the book that the ones before it left.
// `Ready` is a clause: the tables are lent to be changed, a `SoundBook`'s only to be read.
fn answer_one(
    h: Head,
    t: &mut TablesMut<'_>,
    orders: &mut [u16],
    q: Option<Asks>,
) -> Result<Applied, Refusal>
    requires { Ready h (tables_mut t.old) }
    ensures value { change_one result h (tables_mut t.new) orders.new ≡ one (asked_of q) h (tables_mut t.old) orders.old }
    ensures same { SameTables t.old t.new }
{
    match q {
        Some(Asks::Change(c)) => carry_out(h, t, orders, c),
        Some(Asks::Open(u, r)) => open_one(h, &t.read(), u, r, orders),
        None => Err(Refusal::NoSuch),
    }
}

// The answer row of a request: the refusal's number or 0, the view for 11, the count of its rows. It gives the head and the count after the request.
fn put_answer(h: Head, a: Result<Applied, Refusal>, answers: &mut [u16], row: usize) -> Applied
    requires { row * 3 + 3 ≤ length answers.old }
    ensures value { result ≡ after h a }
    ensures answers_after { answers.new ≡ stored (row * 3) (answer_row a) answers.old }
{
    match a {
        Ok(done) => {
            put_order(answers, row, 0, 0, done.count);
            done
        }
        Err(n) => {
            put_order(answers, row, n.number(), n.view(), 0);
            Applied { head: h, count: 0 }
        }
    }
}

// ---- all of them

// `Ready` is a clause: each request may change the tables, and a `SoundBook`'s are only read.
fn serve_all(
    h: Head,
    t: &mut TablesMut<'_>,
    requests: &[u64],
    answers: &mut [u16],
    orders: &mut [u16],
) -> Served
    requires ready { Ready h (tables_mut t.old) }
    requires answerable { Answerable requests.now answers.old }
    ensures value { serving (Ok result) (tables_mut t.new) answers.new orders.new ≡ serve_by none (all (asked_in requests.now) h (tables_mut t.old) orders.old) (tables_mut t.old) answers.old orders.old }
    ensures same { SameTables t.old t.new }
{
    let mut head = h;
    let mut used: usize = 0;
    for i in 0..requests.len() / REQUEST_WIDTH {
        let at = i * REQUEST_WIDTH;
        let q = row_asks(requests[at], requests[at + 1], requests[at + 2]);
        let a = answer_one(head, t, &mut orders[used * Order::WIDTH..], q);
        let after = put_answer(head, a, answers, i);
        head = after.head;
        used += after.count as usize;
    }
    Served { head, used }
}

pub fn serve(
    h: Head,
    t: &mut TablesMut<'_>,
    requests: &[u64],
    answers: &mut [u16],
    orders: &mut [u16],
) -> Result<Served, Refusal>
    ensures value { serving result (tables_mut t.new) answers.new orders.new ≡ serve_call requests.now h (tables_mut t.old) answers.old orders.old }
    ensures same { SameTables t.old t.new }
{
    check(h, &t.read())?;
    if answers.len() / ANSWER_WIDTH < requests.len() / REQUEST_WIDTH {
        return Err(Refusal::ShortList);
    }
    Ok(serve_all(h, t, requests, answers, orders))
}
