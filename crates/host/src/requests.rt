// The requests of the C interface, view and open. The result is 0 or the refusal's number; 11 comes as 11 + 256 * view. A refusal leaves every
// cell as it was.
// Order rows are three numbers each.
ghost use Rattle.std.specs.Prelude.{◌≡◌};
ghost use Rattle.rules.specs.Bytes.{tables, tables_of, tables_mut, SameTables};
ghost use Rattle.rules.specs.Refusals.{joins, grants, revokes, leaves};
ghost use Rattle.plan.specs.Judge.{request_of};
ghost use Rattle.host.specs.Answers.{code_of, changed_as, change_answer, insert_answer, viewed_as, view_answer, opened_as, open_answer, served_as, serve_answer};

use crate::{head_in, put_head};
use plan::Request;
use policy::open::{open, view};
use policy::requests::change;
use policy::serve::serve;
use rows::Number;
use rules::{BookTables, Refusal, Resource, Tables, TablesMut};
use sets::{User, Users};

// The number of a refusal, with 11 also the view; 0 where there is none.
// A number and no Result: it is what C is given.
#[tactic(auto, unfolding(crate::specs::Answers::result_of))]
fn code(done: Result<(), Refusal>) -> u16
    ensures { result ≡ code_of done }
{
    match done {
        Ok(()) => 0,
        Err(k) => k.number() + 256 * k.view(),
    }
}

// Any of the five below.
fn changed(
    head: &mut [u16],
    t: &mut TablesMut<'_>,
    orders: &mut [u16],
    count: &mut u16,
    q: Request,
) -> Result<(), Refusal>
    ensures same { SameTables t.old t.new }
    ensures answer { changed_as (code_of result) head.new (tables_mut t.new) orders.new count.new ≡ change_answer (request_of q) head.old (tables_mut t.old) orders.old count.old }
{
    let a = change(head_in(head)?, t, orders, q)?;
    put_head(head, a.head);
    *count = a.count;
    Ok(())
}

#[unsafe(no_mangle)]
pub extern "C" fn fenstubble_join(
    head: &mut [u16],
    inner_vertices: &mut [u8],
    inner_tokens: &mut [u8],
    outer_vertices: &mut [u8],
    outer_tokens: &mut [u8],
    resources: &mut [u8],
    orders: &mut [u16],
    count: &mut u16,
) -> u16
    ensures { changed_as result head.new (tables inner_vertices.new inner_tokens.new outer_vertices.new outer_tokens.new resources.new) orders.new count.new ≡ change_answer joins head.old (tables inner_vertices.old inner_tokens.old outer_vertices.old outer_tokens.old resources.old) orders.old count.old }
{
    // The five pointers of C, here and below, written out as in `fenstubble_read`.
    let mut t = BookTables {
        inner_vertices,
        inner_tokens,
        outer_vertices,
        outer_tokens,
        resources,
    };
    code(changed(head, &mut t, orders, count, Request::Join))
}

// The list is lent as the bytes of a set in a row; bytes past them are not looked at.
fn inserted(
    head: &mut [u16],
    t: &mut TablesMut<'_>,
    orders: &mut [u16],
    count: &mut u16,
    list: &[u8],
) -> Result<(), Refusal>
    ensures same { SameTables t.old t.new }
    ensures answer { changed_as (code_of result) head.new (tables_mut t.new) orders.new count.new ≡ insert_answer list.now head.old (tables_mut t.old) orders.old count.old }
{
    if list.len() < Users::WIDTH {
        return Err(Refusal::ShortTable);
    }
    changed(head, t, orders, count, Request::Insert(Users::get(list, 0)))
}

#[unsafe(no_mangle)]
pub extern "C" fn fenstubble_insert(
    head: &mut [u16],
    inner_vertices: &mut [u8],
    inner_tokens: &mut [u8],
    outer_vertices: &mut [u8],
    outer_tokens: &mut [u8],
    resources: &mut [u8],
    orders: &mut [u16],
    count: &mut u16,
    list: &[u8],
) -> u16
    ensures { changed_as result head.new (tables inner_vertices.new inner_tokens.new outer_vertices.new outer_tokens.new resources.new) orders.new count.new ≡ insert_answer list.now head.old (tables inner_vertices.old inner_tokens.old outer_vertices.old outer_tokens.old resources.old) orders.old count.old }
{
    let mut t = BookTables {
        inner_vertices,
        inner_tokens,
        outer_vertices,
        outer_tokens,
        resources,
    };
    code(inserted(head, &mut t, orders, count, list))
}

#[unsafe(no_mangle)]
pub extern "C" fn fenstubble_grant(
    head: &mut [u16],
    inner_vertices: &mut [u8],
    inner_tokens: &mut [u8],
    outer_vertices: &mut [u8],
    outer_tokens: &mut [u8],
    resources: &mut [u8],
    orders: &mut [u16],
    count: &mut u16,
    r: u16,
    u: u16,
) -> u16
    ensures { changed_as result head.new (tables inner_vertices.new inner_tokens.new outer_vertices.new outer_tokens.new resources.new) orders.new count.new ≡ change_answer (grants r u) head.old (tables inner_vertices.old inner_tokens.old outer_vertices.old outer_tokens.old resources.old) orders.old count.old }
{
    let mut t = BookTables {
        inner_vertices,
        inner_tokens,
        outer_vertices,
        outer_tokens,
        resources,
    };
    code(changed(
        head,
        &mut t,
        orders,
        count,
        Request::Grant(Resource(r), User(u)),
    ))
}

#[unsafe(no_mangle)]
pub extern "C" fn fenstubble_revoke(
    head: &mut [u16],
    inner_vertices: &mut [u8],
    inner_tokens: &mut [u8],
    outer_vertices: &mut [u8],
    outer_tokens: &mut [u8],
    resources: &mut [u8],
    orders: &mut [u16],
    count: &mut u16,
    r: u16,
    u: u16,
) -> u16
    ensures { changed_as result head.new (tables inner_vertices.new inner_tokens.new outer_vertices.new outer_tokens.new resources.new) orders.new count.new ≡ change_answer (revokes r u) head.old (tables inner_vertices.old inner_tokens.old outer_vertices.old outer_tokens.old resources.old) orders.old count.old }
{
    let mut t = BookTables {
        inner_vertices,
        inner_tokens,
        outer_vertices,
        outer_tokens,
        resources,
    };
    code(changed(
        head,
        &mut t,
        orders,
        count,
        Request::Revoke(Resource(r), User(u)),
    ))
}

#[unsafe(no_mangle)]
pub extern "C" fn fenstubble_leave(
    head: &mut [u16],
    inner_vertices: &mut [u8],
    inner_tokens: &mut [u8],
    outer_vertices: &mut [u8],
    outer_tokens: &mut [u8],
    resources: &mut [u8],
    orders: &mut [u16],
    count: &mut u16,
    u: u16,
) -> u16
    ensures { changed_as result head.new (tables inner_vertices.new inner_tokens.new outer_vertices.new outer_tokens.new resources.new) orders.new count.new ≡ change_answer (leaves u) head.old (tables inner_vertices.old inner_tokens.old outer_vertices.old outer_tokens.old resources.old) orders.old count.old }
{
    let mut t = BookTables {
        inner_vertices,
        inner_tokens,
        outer_vertices,
        outer_tokens,
        resources,
    };
    code(changed(head, &mut t, orders, count, Request::Leave(User(u))))
}

fn viewed(head: &[u16], t: &Tables<'_>, u: User, r: Resource, cell: &mut u16) -> Result<(), Refusal>
    ensures { viewed_as (code_of result) cell.new ≡ view_answer u.0 r.0 head.now (tables_of t.now) cell.old }
{
    *cell = view(head_in(head)?, t, u, r)?.number();
    Ok(())
}

#[unsafe(no_mangle)]
pub extern "C" fn fenstubble_view(
    head: &[u16],
    inner_vertices: &[u8],
    inner_tokens: &[u8],
    outer_vertices: &[u8],
    outer_tokens: &[u8],
    resources: &[u8],
    u: u16,
    r: u16,
    cell: &mut u16,
) -> u16
    ensures { viewed_as result cell.new ≡ view_answer u r head.now (tables inner_vertices.now inner_tokens.now outer_vertices.now outer_tokens.now resources.now) cell.old }
{
    let t = BookTables {
        inner_vertices,
        inner_tokens,
        outer_vertices,
        outer_tokens,
        resources,
    };
    code(viewed(head, &t, User(u), Resource(r), cell))
}

fn opened(
    head: &[u16],
    t: &Tables<'_>,
    u: User,
    r: Resource,
    list: &mut [u16],
    inner: &mut u16,
    outer: &mut u16,
) -> Result<(), Refusal>
    ensures { opened_as (code_of result) list.new inner.new outer.new ≡ open_answer u.0 r.0 head.now (tables_of t.now) list.old inner.old outer.old }
{
    let chains = open(head_in(head)?, t, u, r, list)?;
    *inner = chains.inner;
    *outer = chains.outer;
    Ok(())
}

#[unsafe(no_mangle)]
pub extern "C" fn fenstubble_open(
    head: &[u16],
    inner_vertices: &[u8],
    inner_tokens: &[u8],
    outer_vertices: &[u8],
    outer_tokens: &[u8],
    resources: &[u8],
    u: u16,
    r: u16,
    list: &mut [u16],
    inner: &mut u16,
    outer: &mut u16,
) -> u16
    ensures { opened_as result list.new inner.new outer.new ≡ open_answer u r head.now (tables inner_vertices.now inner_tokens.now outer_vertices.now outer_tokens.now resources.now) list.old inner.old outer.old }
{
    let t = BookTables {
        inner_vertices,
        inner_tokens,
        outer_vertices,
        outer_tokens,
        resources,
    };
    code(opened(head, &t, User(u), Resource(r), list, inner, outer))
}

fn served(
    head: &mut [u16],
    t: &mut TablesMut<'_>,
    requests: &[u64],
    answers: &mut [u16],
    orders: &mut [u16],
    used: &mut usize,
) -> Result<(), Refusal>
    ensures same { SameTables t.old t.new }
    ensures answer { served_as (code_of result) head.new (tables_mut t.new) answers.new orders.new used.new ≡ serve_answer requests.now head.old (tables_mut t.old) answers.old orders.old used.old }
{
    let done = serve(head_in(head)?, t, requests, answers, orders)?;
    put_head(head, done.head);
    *used = done.used;
    Ok(())
}

#[unsafe(no_mangle)]
pub extern "C" fn fenstubble_serve(
    head: &mut [u16],
    inner_vertices: &mut [u8],
    inner_tokens: &mut [u8],
    outer_vertices: &mut [u8],
    outer_tokens: &mut [u8],
    resources: &mut [u8],
    requests: &[u64],
    answers: &mut [u16],
    orders: &mut [u16],
    used: &mut usize,
) -> u16
    ensures { served_as result head.new (tables inner_vertices.new inner_tokens.new outer_vertices.new outer_tokens.new resources.new) answers.new orders.new used.new ≡ serve_answer requests.now head.old (tables inner_vertices.old inner_tokens.old outer_vertices.old outer_tokens.old resources.old) answers.old orders.old used.old }
{
    let mut t = BookTables {
        inner_vertices,
        inner_tokens,
        outer_vertices,
        outer_tokens,
        resources,
    };
    code(served(head, &mut t, requests, answers, orders, used))
}
