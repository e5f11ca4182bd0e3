// Applying a request that no refusal stops: the rows, and the orders in the order of RULES 6.2.
#![tactic(auto)]

ghost use Rattle.std.specs.Prelude.{◌≡◌};
ghost use Rattle.sets.specs.Words.{set_in};
ghost use Rattle.rules.specs.Bytes.{tables_mut, book_in, SameTables};
ghost use Rattle.rules.specs.Refusals.{joins, inserts, revokes};
ghost use Rattle.rules.specs.Calls.{change};
ghost use Rattle.plan.specs.Judge.{request_of, plan_of};
ghost use Rattle.apply.specs.Apply.{Accepted, applied};

use crate::grant::apply_grant;
use crate::leave::apply_leave;
use crate::step::{Work, with_inner};
use layer::cover::put_order;
use layer::make::vertex_for;
use layer::table::put_set;
use layer::walk::inner_shape;
use plan::{Plan, Request};
use rules::{
    Applied, Head, InnerVertex, InnerVertices, Joined, OrderKind, OuterVertex, OuterVertices,
    Resource, Resources, TablesMut,
};
use sets::{User, Users};
use write::add_resource;

pub mod grant;
pub mod leave;
pub mod step;

// The inner tables are taken first, here and below: they go beside `Work`, which is lent the others.
#[tactic(auto, using(crate::proofs::ApplyLaws::join_room))]
pub fn apply_join(h: Head, t: &mut TablesMut<'_>, orders: &mut [u16]) -> Applied
    requires { Accepted joins h (tables_mut t.old) orders.old }
    ensures same { SameTables t.old t.new }
    ensures value { applied result (tables_mut t.new) orders.new ≡ change joins h (tables_mut t.old) orders.old }
{
    let inner_vertices = &mut *t.inner_vertices;
    let inner_tokens = &mut *t.inner_tokens;
    let s = Users::only(User(h.users.0));
    let i = h.inner_vertices.0;
    let o = h.outer_vertices.0;
    put_set(inner_vertices, i as usize, s);
    put_set(t.outer_vertices, o as usize, s);
    put_order(orders, 0, OrderKind::InnerVertex as u16, i, 0);
    put_order(orders, 1, OrderKind::OuterVertex as u16, o, 0);
    let head = Head {
        users: Joined(h.users.0 + 1),
        inner_vertices: InnerVertices(i + 1),
        outer_vertices: OuterVertices(o + 1),
        ..h
    };
    let w = Work {
        head,
        outer_vertices: t.outer_vertices,
        outer_tokens: t.outer_tokens,
        resources: t.resources,
        orders,
        at: 2,
    };
    w.answer(inner_vertices, inner_tokens)
}

// The vertex, the row, and its lock, which may be none; the order for the row comes last.
pub fn apply_insert(
    h: Head,
    t: &mut TablesMut<'_>,
    orders: &mut [u16],
    l: Users,
    p: Plan,
) -> Applied
    requires accepted { Accepted (inserts (set_in l)) h (tables_mut t.old) orders.old }
    requires p_value { p ≡ plan_of (inserts (set_in l)) (book_in h (tables_mut t.old)) }
    ensures same { SameTables t.old t.new }
    ensures value { applied result (tables_mut t.new) orders.new ≡ change (inserts (set_in l)) h (tables_mut t.old) orders.old }
{
    let inner_vertices = &mut *t.inner_vertices;
    let inner_tokens = &mut *t.inner_tokens;
    let m = vertex_for(
        inner_vertices,
        inner_tokens,
        inner_shape(h),
        l,
        orders,
        0,
        OrderKind::InnerVertex as u16,
        OrderKind::InnerToken as u16,
    );
    let n = h.resources.0;
    let inner = InnerVertex(m.vertex);
    add_resource(t.resources, n as usize, l, inner);
    let head = Head {
        resources: Resources(n + 1),
        ..with_inner(h, m.shape)
    };
    let mut w = Work {
        head,
        outer_vertices: t.outer_vertices,
        outer_tokens: t.outer_tokens,
        resources: t.resources,
        orders,
        at: m.at,
    };
    let none = OuterVertex(OuterVertex::NONE);
    w.settle(Resource(n), none, l, p.free);
    w.encrypt(Resource(n), inner);
    w.answer(inner_vertices, inner_tokens)
}

pub fn apply_revoke(
    h: Head,
    t: &mut TablesMut<'_>,
    orders: &mut [u16],
    r: Resource,
    u: User,
) -> Applied
    requires { Accepted (revokes r.0 u.0) h (tables_mut t.old) orders.old }
    ensures same { SameTables t.old t.new }
    ensures value { applied result (tables_mut t.new) orders.new ≡ change (revokes r.0 u.0) h (tables_mut t.old) orders.old }
{
    let inner_vertices = &mut *t.inner_vertices;
    let inner_tokens = &mut *t.inner_tokens;
    let mut w = Work {
        head: h,
        outer_vertices: t.outer_vertices,
        outer_tokens: t.outer_tokens,
        resources: t.resources,
        orders,
        at: 0,
    };
    w.strike(r, u);
    w.answer(inner_vertices, inner_tokens)
}

// Applying a request with its plan.
pub fn apply(h: Head, t: &mut TablesMut<'_>, orders: &mut [u16], q: Request, p: Plan) -> Applied
    requires accepted { Accepted (request_of q) h (tables_mut t.old) orders.old }
    requires p_value { p ≡ plan_of (request_of q) (book_in h (tables_mut t.old)) }
    ensures same { SameTables t.old t.new }
    ensures value { applied result (tables_mut t.new) orders.new ≡ change (request_of q) h (tables_mut t.old) orders.old }
{
    match q {
        Request::Join => apply_join(h, t, orders),
        Request::Insert(l) => apply_insert(h, t, orders, l, p),
        Request::Grant(r, u) => apply_grant(h, t, orders, r, u, p),
        Request::Revoke(r, u) => apply_revoke(h, t, orders, r, u),
        Request::Leave(u) => {
            let inner_vertices = &mut *t.inner_vertices;
            let inner_tokens = &mut *t.inner_tokens;
            apply_leave(
                h,
                inner_vertices,
                inner_tokens,
                t.outer_vertices,
                t.outer_tokens,
                t.resources,
                orders,
                u,
            )
        }
    }
}
