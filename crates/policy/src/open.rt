// View and open: calls that leave the book as it is.
ghost use Rattle.std.specs.Prelude.{◌≡◌, ◌≤◌, ◌<◌, length, IfOk};
ghost use Rattle.sets.specs.Words.{people};
ghost use Rattle.rows.specs.Number.{stored};
ghost use Rattle.rules.specs.Bytes.{tables_of, book_in};
ghost use Rattle.rules.specs.Holders.{view_by, view};
ghost use Rattle.rules.specs.Open.{inner_chain};
ghost use Rattle.rules.specs.Refusals.{opened};
ghost use Rattle.rules.specs.Calls.{view_call, open_call, showing};
ghost use Rattle.layer.specs.Lent.{layer_in, Keeps};
ghost use Rattle.plan.specs.Judge.{Ready};
ghost use Rattle.policy.specs.Open.{lengths_of, openable, Opening, Passed, KeysOf, inner_rows, outer_rows, known_in, OuterThere, OuterNames, LetIn};

use layer::laid::Layer;
use layer::table::resource_in;
use layer::walk::outer_shape;
use plan::judge::{all_holders, exist, inner_layer};
use rules::{Chains, Head, InnerVertex, OuterVertex, Refusal, Resource, Tables, View};
use sets::User;
use sound::check;

// ---- a resource's keys

// The two keys of a resource are those of its vertices: each layer as it lies in the tables, and the vertex there.
#[derive(Clone, Copy)]
struct Keys<'a> {
    inner: Layer<'a>,
    outer: Layer<'a>,
    inner_vertex: InnerVertex,
    outer_vertex: OuterVertex,
}

// The outer layer as it lies in the tables.
// Twin of sound's `Book::outer`: `laid` is shown from `Ready` here, from `room` and `s1` there.
fn outer_layer<'a>(h: Head, t: &Tables<'a>) -> Layer<'a>
    requires { Ready h (tables_of t.now) }
    ensures { layer_in result ≡ (book_in h (tables_of t.now)).outer }
{
    Layer {
        vertices: t.outer_vertices,
        tokens: t.outer_tokens,
        shape: outer_shape(h),
    }
}

// `Ready` is a clause: `KeysOf`, which is promised, speaks of the head and the tables.
fn keys_of<'a>(h: Head, t: &Tables<'a>, r: Resource) -> Keys<'a>
    requires ready { Ready h (tables_of t.now) }
    requires r_lt_resources { r.0 < h.resources.0 }
    ensures { KeysOf h (tables_of t.now) r.0 result }
{
    let x = resource_in(t.resources, h.resources.0 as usize, r.0 as usize);
    Keys {
        inner: inner_layer(h, t),
        outer: outer_layer(h, t),
        inner_vertex: x.inner,
        outer_vertex: x.outer,
    }
}

// ---- the view

// Two flags: whether a key is known is a condition with no value beside it.
fn view_by(inner: bool, outer: bool) -> View
    ensures { result ≡ view_by inner outer }
{
    match (inner, outer) {
        (true, true) => View::Open,
        (true, false) => View::SelLocked,
        (false, true) => View::BelLocked,
        (false, false) => View::Locked,
    }
}

// Whether u derives the key of an outer vertex; where there is none, "the outer key counts as derived, by everybody" (RULES 3.8).
// `NONE` by its number, as the rows and the definition `known_in` have it.
fn outer_known(o: &Layer<'_>, v: OuterVertex, u: User) -> bool
    requires { (u.0 < people) × OuterThere o.now.shape.vertices v.0 }
    ensures { result ≡ known_in (layer_in o.now) u.0 v.0 }
{
    v.0 == OuterVertex::NONE || o.set_of(v.0 as usize).has(u)
}

// The view of u on r: whether they know the inner key, and whether the outer one.
// `Ready` is a clause: either caller has head and tables, and a struct for one call is no plainer.
fn view_of(h: Head, t: &Tables<'_>, u: User, r: Resource) -> View
    requires ready { Ready h (tables_of t.now) }
    requires u_lt_users { (u.0 < h.users.0) × (r.0 < h.resources.0) }
    ensures { result ≡ view (book_in h (tables_of t.now)) u.0 r.0 }
{
    let k = keys_of(h, t, r);
    let inner = all_holders(&k.inner, k.inner_vertex).has(u);
    let outer = outer_known(&k.outer, k.outer_vertex, u);
    view_by(inner, outer)
}

pub fn view(h: Head, t: &Tables<'_>, u: User, r: Resource) -> Result<View, Refusal>
    ensures { result ≡ view_call u.0 r.0 h (tables_of t.now) }
{
    check(h, t)?;
    exist(h, r, u)?;
    Ok(view_of(h, t, u, r))
}

// ---- how long the chains are

// A user who is not in the inner vertex's set has one row.
fn inner_length(i: &Layer<'_>, v: InnerVertex, u: User) -> usize
    requires keeps { Keeps i.now }
    requires v_lt_vertices { (v.0 < i.now.shape.vertices) × (u.0 < people) }
    ensures { result ≡ length (inner_rows (layer_in i.now) u.0 v.0) }
{
    if !i.set_of(v.0 as usize).has(u) {
        return 1;
    }
    i.chain_length(v.0, u)
}

// No outer key gives no rows.
fn outer_length(o: &Layer<'_>, v: OuterVertex, u: User) -> usize
    requires keeps { Keeps o.now }
    requires u_lt_people { (u.0 < people) × OuterNames o.now.shape (layer_in o.now) u.0 v.0 }
    ensures { result ≡ length (outer_rows (layer_in o.now) u.0 v.0) }
{
    if v.0 == OuterVertex::NONE {
        return 0;
    }
    o.chain_length(v.0, u)
}

// Each chain has fewer rows than there can be users.
#[tactic(auto, using(crate::proofs::OpenLaws::inner_short, crate::proofs::OpenLaws::outer_short, crate::proofs::OpenLaws::outer_names, crate::proofs::OpenLaws::lengths_are))]
fn chain_lengths(h: Head, t: &Tables<'_>, u: User, r: Resource) -> Chains
    requires { Opening h (tables_of t.now) u.0 r.0 }
    ensures value { result ≡ lengths_of (book_in h (tables_of t.now)) u.0 r.0 }
    ensures few { (result.inner < people) × (result.outer < people) }
{
    let k = keys_of(h, t, r);
    let inner = inner_length(&k.inner, k.inner_vertex, u);
    let outer = outer_length(&k.outer, k.outer_vertex, u);
    Chains {
        inner: inner as u16,
        outer: outer as u16,
    }
}

// 1, 11 and 10 of an open; else the chains' lengths. `room` numbers or rows are lent for them.
// `Ready` is a clause: `Passed`, which is promised, speaks of the head and the tables.
pub fn judge_open(
    h: Head,
    t: &Tables<'_>,
    u: User,
    r: Resource,
    room: usize,
) -> Result<Chains, Refusal>
    requires { Ready h (tables_of t.now) }
    ensures value { result ≡ openable (book_in h (tables_of t.now)) u.0 r.0 room }
    ensures passed { IfOk result (Passed h (tables_of t.now) u.0 r.0 room) }
{
    exist(h, r, u)?;
    let v = view_of(h, t, u, r);
    let View::Open = v else {
        return Err(Refusal::Closed(v));
    };
    let k = chain_lengths(h, t, u, r);
    if room < (k.inner + k.outer) as usize {
        return Err(Refusal::ShortList);
    }
    Ok(k)
}

// ---- the chains' rows

// The rows of the inner chain, or the one kind 1 row.
fn inner_rows(i: &Layer<'_>, v: InnerVertex, u: User, list: &mut [u16])
    requires keeps { Keeps i.now }
    requires v_lt_vertices { (v.0 < i.now.shape.vertices) × (u.0 < people) × LetIn i.now.shape (layer_in i.now) u.0 v.0 }
    requires v_in_bounds { length (inner_rows (layer_in i.now) u.0 v.0) ≤ length list.old }
    ensures { list.new ≡ stored 0 (inner_rows (layer_in i.now) u.0 v.0) list.old }
{
    if i.set_of(v.0 as usize).has(u) {
        i.chain_rows(v.0, u, list);
    } else if let Some(row) = i.find_direct(v.0, u) {
        list[0] = row as u16;
    }
}

// The rows of the outer chain, if any.
fn outer_rows(o: &Layer<'_>, v: OuterVertex, u: User, list: &mut [u16])
    requires keeps { Keeps o.now }
    requires u_lt_people { (u.0 < people) × OuterNames o.now.shape (layer_in o.now) u.0 v.0 }
    requires v_in_bounds { length (outer_rows (layer_in o.now) u.0 v.0) ≤ length list.old }
    ensures { list.new ≡ stored 0 (outer_rows (layer_in o.now) u.0 v.0) list.old }
{
    if v.0 != OuterVertex::NONE {
        o.chain_rows(v.0, u, list);
    }
}

// The rows of both chains, "those of the inner chain first" (RULES 5.10). The outer ones start at `at`.
#[tactic(auto, using(crate::proofs::OpenLaws::length_opened, crate::proofs::OpenLaws::let_in, crate::proofs::OpenLaws::outer_names))]
pub fn put_chains(h: Head, t: &Tables<'_>, u: User, r: Resource, at: usize, list: &mut [u16])
    requires opening { Opening h (tables_of t.now) u.0 r.0 }
    requires at_value { at ≡ length (inner_chain (book_in h (tables_of t.now)) u.0 r.0) }
    requires r_in_bounds { length (opened (book_in h (tables_of t.now)) u.0 r.0) ≤ length list.old }
    ensures { list.new ≡ stored 0 (opened (book_in h (tables_of t.now)) u.0 r.0) list.old }
{
    let k = keys_of(h, t, r);
    inner_rows(&k.inner, k.inner_vertex, u, list);
    outer_rows(&k.outer, k.outer_vertex, u, &mut list[at..]);
}

#[tactic(auto, using(crate::proofs::OpenLaws::length_opened))]
pub fn open(
    h: Head,
    t: &Tables<'_>,
    u: User,
    r: Resource,
    list: &mut [u16],
) -> Result<Chains, Refusal>
    ensures { showing result list.new ≡ open_call u.0 r.0 h (tables_of t.now) list.old }
{
    check(h, t)?;
    let k = judge_open(h, t, u, r, list.len())?;
    put_chains(h, t, u, r, k.inner as usize, list);
    Ok(k)
}
