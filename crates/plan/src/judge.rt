// Every refusal but 13 and 12, judged on the tables as they are: 7, 8, 9 and 10 on what the rules on unlimited tables would leave. Nothing is written here.
ghost use Rattle.std.specs.Prelude.{◌≡◌, ◌^◌, false, ◌&&◌, cond, ◌+◌, ◌*◌, ◌≤◌, ◌<◌, eqb, ltb, length, Ok, Err};
ghost use Rattle.sets.specs.Words.{people, bytes, set_in};
ghost use Rattle.rules.specs.Bytes.{tables_of, book_in};
ghost use Rattle.rules.specs.declared.Refusal.TheVariants.{NoSuch};
ghost use Rattle.rules.specs.Holders.{holders};
ghost use Rattle.rules.specs.Refusals.{joins, inserts, grants, revokes, leaves};
ghost use Rattle.layer.specs.Laid.{inner_shape, resource_is};
ghost use Rattle.layer.specs.Lent.{layer_in};
ghost use Rattle.layer.specs.Make.{sets_only};
ghost use Rattle.plan.specs.Judge.{Ready, request_of, plan, judged, limited, holders_are, Few, part, lock_part, settled_part, group_part, joint, after_of, grant_part, grant_plan};

use crate::book::SoundBook;
use crate::leave::leave_part;
use crate::waiting::waiting;
use crate::{Plan, Request};
use layer::laid::Layer;
use layer::make::{New, new_rows};
use layer::table::{find_set, resource_in};
use layer::walk::inner_shape;
use rules::{
    Head, InnerTokens, InnerVertex, Joined, OuterTokens, OuterVertex, OuterVertices, Refusal,
    Resource, ResourceRow, Resources, Tables,
};
use sets::{User, Users};
use std::ops::Add;

// The rows that a request would leave, and the orders it would give.
#[derive(Clone, Copy)]
pub struct After {
    pub users: usize,
    pub outer_vertices: usize,
    pub inner_tokens: usize,
    pub outer_tokens: usize,
    pub orders: usize,
}

// The outer rows and the orders of a part of the work.
#[derive(Clone, Copy)]
pub struct Part {
    pub vertices: usize,
    pub tokens: usize,
    pub orders: usize,
}

impl Part {
    pub(crate) const NOTHING: Part = Part {
        vertices: 0,
        tokens: 0,
        orders: 0,
    };

    // The rows of a vertex, and n re-locks with it.
    pub(crate) fn locking(rows: New, n: usize) -> Part
        requires { (rows.vertices ≤ 1) × (rows.tokens ≤ people) × (n < 65536) }
        ensures { result ≡ part rows.vertices rows.tokens (rows.vertices + rows.tokens + n) }
    {
        Part {
            vertices: rows.vertices,
            tokens: rows.tokens,
            orders: rows.vertices + rows.tokens + n,
        }
    }
}

impl Add for Part {
    type Output = Part;

    ghost can_add = { λ p q. (p.vertices + q.vertices < 2 ^ 64) × (p.tokens + q.tokens < 2 ^ 64) × (p.orders + q.orders < 2 ^ 64) };

    ghost add_gives = { λ p q both. both ≡ joint p q };

    fn add(self, other: Part) -> Part {
        Part {
            vertices: self.vertices + other.vertices,
            tokens: self.tokens + other.tokens,
            orders: self.orders + other.orders,
        }
    }
}

// 7, 8, 9 and 10, in this order; else the plan.
fn limits(a: After, room: usize, p: Plan) -> Result<Plan, Refusal>
    requires { a.users ≤ people }
    ensures { result ≡ limited a room p }
{
    if a.outer_vertices > a.users + OuterVertices::GROUPS as usize {
        return Err(Refusal::GroupsFull);
    }
    if a.inner_tokens > InnerTokens::LIMIT as usize {
        return Err(Refusal::InnerTokensFull);
    }
    if a.outer_tokens > OuterTokens::LIMIT as usize {
        return Err(Refusal::OuterTokensFull);
    }
    if a.orders > room {
        return Err(Refusal::ShortList);
    }
    Ok(p)
}

// The plan of a request that adds no kind 1 token.
// `free` is a flag: a condition with no value beside it.
fn plain(free: bool) -> Plan
    ensures { result ≡ plan free false 0 }
{
    Plan {
        free,
        token: false,
        holders: Users::empty(),
    }
}

// What is left, with so many inner tokens more, their orders and those of the outer part.
fn rows_after(h: Head, tokens: usize, orders: usize, p: Part) -> After
    requires { (tokens ≤ people) × (orders ≤ people + 2) × Few p }
    ensures { result ≡ after_of h tokens orders p }
{
    After {
        users: h.users.0 as usize,
        outer_vertices: h.outer_vertices.0 as usize + p.vertices,
        inner_tokens: h.inner_tokens.0 as usize + tokens,
        outer_tokens: h.outer_tokens.0 as usize + p.tokens,
        orders: orders + p.orders,
    }
}

// The user and the resource exist.
pub fn exist(h: Head, r: Resource, u: User) -> Result<(), Refusal>
    ensures { result ≡ cond (ltb u.0 h.users.0 && ltb r.0 h.resources.0) (Ok tt) (Err NoSuch) }
{
    if u.0 >= h.users.0 || r.0 >= h.resources.0 {
        return Err(Refusal::NoSuch);
    }
    Ok(())
}

// ---- parts of the outer work

// The vertex for a list, and n re-locks with it.
// The table may be longer than the rows in use, as one lent from C is: so the head is beside it.
fn lock_rows(h: Head, ov: &[u8], list: Users, n: usize) -> Part
    requires { (h.outer_vertices.0 * bytes ≤ length ov.now) × (n < 65536) }
    ensures value { result ≡ lock_part (sets_only h.outer_vertices.0 ov.now) (set_in list) n }
    ensures vertices_bound { (result.vertices ≤ 1) × (result.tokens ≤ people) × (result.orders ≤ people + 1 + n) }
{
    Part::locking(new_rows(ov, h.outer_vertices.0 as usize, list), n)
}

// The folder itself: its outer key taken off, or a lock for the list.
// `free` is a flag: list and outer vertex are the folder's either way.
// `NONE` by its number, as the rows and the definition `settled_part` have it.
fn settled(h: Head, ov: &[u8], free: bool, outer: OuterVertex, list: Users) -> Part
    requires { h.outer_vertices.0 * bytes ≤ length ov.now }
    ensures value { result ≡ settled_part free outer.0 (sets_only h.outer_vertices.0 ov.now) (set_in list) }
    ensures vertices_bound { (result.vertices ≤ 1) × (result.tokens ≤ people) × (result.orders ≤ people + 2) }
{
    if !free {
        return lock_rows(h, ov, list, 1);
    }
    if outer.0 == OuterVertex::NONE {
        return Part::NOTHING;
    }
    Part {
        orders: 1,
        ..Part::NOTHING
    }
}

// The neighbours' part, one vertex for the old holders where n of them wait, and the folder's.
fn with_neighbours(h: Head, ov: &[u8], n: usize, holders: Users, s: Part) -> Part
    requires { (h.outer_vertices.0 * bytes ≤ length ov.now) × (n < 65536) × (s.vertices ≤ 1) × (s.tokens ≤ people) × (s.orders ≤ people + 2) }
    ensures value { result ≡ joint (group_part n (sets_only h.outer_vertices.0 ov.now) (set_in holders)) s }
    ensures few { Few result }
{
    if n == 0 {
        return s;
    }
    lock_rows(h, ov, holders, n) + s
}

// ---- insert

// The inner layer as it lies in the tables.
// Twin of sound's `Book::inner`: `laid` is shown from `Ready` here, from `room` and `s1` there.
// `Ready` is a clause: policy's `keys_of` has head and tables, and no `SoundBook`.
pub fn inner_layer<'a>(h: Head, t: &Tables<'a>) -> Layer<'a>
    requires { Ready h (tables_of t.now) }
    ensures shape { result.shape ≡ inner_shape h }
    ensures layer { layer_in result ≡ (book_in h (tables_of t.now)).inner }
{
    Layer {
        vertices: t.inner_vertices,
        tokens: t.inner_tokens,
        shape: inner_shape(h),
    }
}

// The holders of inner vertex v.
pub fn all_holders(l: &Layer<'_>, v: InnerVertex) -> Users
    requires { v.0 < l.now.shape.vertices }
    ensures { set_in result ≡ holders (layer_in l.now) v.0 }
{
    let k = l.holders_of(v.0);
    k.start.union(k.token)
}

// Whether the vertex for a list has the list for its holders: it is new, or no token lets in anyone else.
fn holders_are(l: &Layer<'_>, list: Users) -> bool
    requires { l.now.shape.vertices < 65536 }
    ensures { result ≡ holders_are (layer_in l.now) (set_in list) }
{
    match find_set(l.vertices, l.shape.vertices, list) {
        Some(v) => all_holders(l, InnerVertex(v as u16)) == list,
        None => true,
    }
}

// Whether a folder with a list will have no outer key.
fn insert_free(h: Head, l: &Layer<'_>, list: Users) -> bool
    requires { l.now.shape.vertices < 65536 }
    ensures { result ≡ (eqb h.mode.0 1 && holders_are (layer_in l.now) (set_in list)) }
{
    h.mode.is_delta() && holders_are(l, list)
}

// ---- grant

// Whether the holders will be the list, whether u comes in, and the holders before.
fn grant_plan(h: Head, l: &Layer<'_>, x: ResourceRow, u: User) -> Plan
    requires { (x.inner.0 < l.now.shape.vertices) × (u.0 < people) }
    ensures { result ≡ grant_plan h.mode.0 (holders (layer_in l.now) x.inner.0) (set_in x.list) u.0 }
{
    let holders = all_holders(l, x.inner);
    let after = holders.with(u);
    Plan {
        free: h.mode.is_delta() && after == x.list.with(u),
        token: !holders.has(u),
        holders,
    }
}

// The outer part of a grant: the neighbours, then the folder with its new list.
fn grant_part(h: Head, ov: &[u8], rs: &[u8], r: Resource, u: User, x: ResourceRow, p: Plan) -> Part
    requires { (h.outer_vertices.0 * bytes ≤ length ov.now) × (h.resources.0 * (bytes + 4) ≤ length rs.now) × (u.0 < people) }
    ensures value { result ≡ grant_part h ov.now rs.now r.0 u.0 (resource_is x) p }
    ensures few { Few result }
{
    let s = settled(h, ov, p.free, x.outer, x.list.with(u));
    let n = waiting(h, rs, r, x.inner, p);
    with_neighbours(h, ov, n, p.holders, s)
}

// ---- each request

impl SoundBook<'_> {
    pub fn judge_join(&self, room: usize) -> Result<Plan, Refusal>
        ensures { result ≡ judged joins (book_in self.now.head (tables_of self.now.tables)) room }
    {
        let h = self.head;
        if h.users.0 >= Joined::LIMIT {
            return Err(Refusal::UsersFull);
        }
        if room < 2 {
            return Err(Refusal::ShortList);
        }
        Ok(plain(false))
    }

    pub fn judge_insert(&self, l: Users, room: usize) -> Result<Plan, Refusal>
        ensures { result ≡ judged (inserts (set_in l)) (book_in self.now.head (tables_of self.now.tables)) room }
    {
        let h = self.head;
        if !l.below(h.users.0) {
            return Err(Refusal::NoSuch);
        }
        if !l.apart(h.leavers) {
            return Err(Refusal::HasLeft);
        }
        if l == Users::empty() {
            return Err(Refusal::EmptyList);
        }
        if h.resources.0 >= Resources::LIMIT {
            return Err(Refusal::ResourcesFull);
        }
        let free = insert_free(h, &inner_layer(h, &self.tables), l);
        let i = new_rows(self.tables.inner_vertices, h.inner_vertices.0 as usize, l);
        let s = settled(
            h,
            self.tables.outer_vertices,
            free,
            OuterVertex(OuterVertex::NONE),
            l,
        );
        let a = rows_after(h, i.tokens, i.vertices + i.tokens + 1, s);
        limits(a, room, plain(free))
    }

    pub fn judge_revoke(&self, r: Resource, u: User, room: usize) -> Result<Plan, Refusal>
        ensures { result ≡ judged (revokes r.0 u.0) (book_in self.now.head (tables_of self.now.tables)) room }
    {
        let h = self.head;
        exist(h, r, u)?;
        let x = resource_in(self.tables.resources, h.resources.0 as usize, r.0 as usize);
        if !x.list.has(u) {
            return Err(Refusal::NotListed);
        }
        let s = lock_rows(h, self.tables.outer_vertices, x.list.without(u), 1);
        limits(rows_after(h, 0, 0, s), room, plain(false))
    }

    pub fn judge_grant(&self, r: Resource, u: User, room: usize) -> Result<Plan, Refusal>
        ensures { result ≡ judged (grants r.0 u.0) (book_in self.now.head (tables_of self.now.tables)) room }
    {
        let h = self.head;
        exist(h, r, u)?;
        if h.leavers.has(u) {
            return Err(Refusal::HasLeft);
        }
        let x = resource_in(self.tables.resources, h.resources.0 as usize, r.0 as usize);
        if x.list.has(u) {
            return Err(Refusal::Listed);
        }
        let p = grant_plan(h, &inner_layer(h, &self.tables), x, u);
        let s = grant_part(
            h,
            self.tables.outer_vertices,
            self.tables.resources,
            r,
            u,
            x,
            p,
        );
        // A kind 1 token and its order, or none.
        let more = usize::from(p.token);
        limits(rows_after(h, more, more, s), room, p)
    }

    pub fn judge_leave(&self, u: User, room: usize) -> Result<Plan, Refusal>
        ensures { result ≡ judged (leaves u.0) (book_in self.now.head (tables_of self.now.tables)) room }
    {
        let h = self.head;
        if u.0 >= h.users.0 {
            return Err(Refusal::NoSuch);
        }
        if h.leavers.has(u) {
            return Err(Refusal::HasLeft);
        }
        let p = leave_part(h, self.tables.outer_vertices, self.tables.resources, u);
        limits(rows_after(h, 0, 0, p), room, plain(false))
    }
}

// The refusals of a request from 1 on, else its plan.
// `Ready` is a clause: the `SoundBook` is made here, since callers have head and tables apart.
pub fn judge(h: Head, t: &Tables<'_>, q: Request, room: usize) -> Result<Plan, Refusal>
    requires { Ready h (tables_of t.now) }
    ensures { result ≡ judged (request_of q) (book_in h (tables_of t.now)) room }
{
    let book = SoundBook {
        head: h,
        tables: *t,
    };
    match q {
        Request::Join => book.judge_join(room),
        Request::Insert(l) => book.judge_insert(l, room),
        Request::Grant(r, u) => book.judge_grant(r, u, room),
        Request::Revoke(r, u) => book.judge_revoke(r, u, room),
        Request::Leave(u) => book.judge_leave(u, room),
    }
}
