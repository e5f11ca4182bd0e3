// The requests that change the book, as calls: each makes every check itself, then plans, then applies. Order rows are three numbers each.
ghost use Rattle.std.specs.Prelude.{◌≡◌};
ghost use Rattle.sets.specs.Words.{set_in};
ghost use Rattle.rules.specs.Bytes.{tables_mut, SameTables};
ghost use Rattle.rules.specs.Refusals.{joins, inserts, grants, revokes, leaves};
ghost use Rattle.rules.specs.Calls.{change, changing};
ghost use Rattle.plan.specs.Judge.{Ready, request_of};

use apply::apply;
use plan::Request;
use plan::judge::judge;
use rules::{Applied, Head, Order, Refusal, Resource, TablesMut};
use sets::{User, Users};
use sound::check;

// A request on tables that are known to be long enough and to hold a sound book.
// `Ready` is a clause: the tables are lent to be changed, a `SoundBook`'s only to be read.
pub fn carry_out(
    h: Head,
    t: &mut TablesMut<'_>,
    orders: &mut [u16],
    q: Request,
) -> Result<Applied, Refusal>
    requires { Ready h (tables_mut t.old) }
    ensures value { changing result (tables_mut t.new) orders.new ≡ change (request_of q) h (tables_mut t.old) orders.old }
    ensures same { SameTables t.old t.new }
{
    let p = judge(h, &t.read(), q, orders.len() / Order::WIDTH)?;
    Ok(apply(h, t, orders, q, p))
}

// Any of the five below.
pub fn change(
    h: Head,
    t: &mut TablesMut<'_>,
    orders: &mut [u16],
    q: Request,
) -> Result<Applied, Refusal>
    ensures value { changing result (tables_mut t.new) orders.new ≡ change (request_of q) h (tables_mut t.old) orders.old }
    ensures same { SameTables t.old t.new }
{
    check(h, &t.read())?;
    carry_out(h, t, orders, q)
}

// A new user: a vertex in both layers.
pub fn join(h: Head, t: &mut TablesMut<'_>, orders: &mut [u16]) -> Result<Applied, Refusal>
    ensures value { changing result (tables_mut t.new) orders.new ≡ change joins h (tables_mut t.old) orders.old }
    ensures same { SameTables t.old t.new }
{
    change(h, t, orders, Request::Join)
}

// A new resource for a list of users.
pub fn insert(
    h: Head,
    t: &mut TablesMut<'_>,
    orders: &mut [u16],
    l: Users,
) -> Result<Applied, Refusal>
    ensures value { changing result (tables_mut t.new) orders.new ≡ change (inserts (set_in l)) h (tables_mut t.old) orders.old }
    ensures same { SameTables t.old t.new }
{
    change(h, t, orders, Request::Insert(l))
}

// User u joins the list of r.
pub fn grant(
    h: Head,
    t: &mut TablesMut<'_>,
    orders: &mut [u16],
    r: Resource,
    u: User,
) -> Result<Applied, Refusal>
    ensures value { changing result (tables_mut t.new) orders.new ≡ change (grants r.0 u.0) h (tables_mut t.old) orders.old }
    ensures same { SameTables t.old t.new }
{
    change(h, t, orders, Request::Grant(r, u))
}

// User u leaves the list of r.
pub fn revoke(
    h: Head,
    t: &mut TablesMut<'_>,
    orders: &mut [u16],
    r: Resource,
    u: User,
) -> Result<Applied, Refusal>
    ensures value { changing result (tables_mut t.new) orders.new ≡ change (revokes r.0 u.0) h (tables_mut t.old) orders.old }
    ensures same { SameTables t.old t.new }
{
    change(h, t, orders, Request::Revoke(r, u))
}

// User u leaves every list, for good.
pub fn leave(
    h: Head,
    t: &mut TablesMut<'_>,
    orders: &mut [u16],
    u: User,
) -> Result<Applied, Refusal>
    ensures value { changing result (tables_mut t.new) orders.new ≡ change (leaves u.0) h (tables_mut t.old) orders.old }
    ensures same { SameTables t.old t.new }
{
    change(h, t, orders, Request::Leave(u))
}
