// Applying a leave: the revokes one after the other, in one list of orders, then the set of leavers.
ghost use Rattle.std.specs.Prelude.{◌≡◌, length};
ghost use Rattle.rules.specs.Bytes.{tables};
ghost use Rattle.rules.specs.Refusals.{leaves};
ghost use Rattle.rules.specs.Calls.{change};
ghost use Rattle.apply.specs.Apply.{Accepted, applied};

use crate::step::Work;
use rules::{Applied, Head, Resource};
use sets::User;

pub fn apply_leave(
    h: Head,
    inner_vertices: &[u8],
    inner_tokens: &[u8],
    outer_vertices: &mut [u8],
    outer_tokens: &mut [u8],
    resources: &mut [u8],
    orders: &mut [u16],
    u: User,
) -> Applied
    requires { Accepted (leaves u.0) h (tables inner_vertices.now inner_tokens.now outer_vertices.old outer_tokens.old resources.old) orders.old }
    ensures outer_vertices_length { length outer_vertices.new ≡ length outer_vertices.old }
    ensures outer_tokens_length { length outer_tokens.new ≡ length outer_tokens.old }
    ensures resources_length { length resources.new ≡ length resources.old }
    ensures value { applied result (tables inner_vertices.now inner_tokens.now outer_vertices.new outer_tokens.new resources.new) orders.new ≡ change (leaves u.0) h (tables inner_vertices.now inner_tokens.now outer_vertices.old outer_tokens.old resources.old) orders.old }
{
    let mut w = Work {
        head: h,
        outer_vertices,
        outer_tokens,
        resources,
        orders,
        at: 0,
    };
    for r in 0..h.resources.0 {
        w.strike(Resource(r), u);
    }
    let head = w.head;
    let leavers = head.leavers.with(u);
    w.head = Head { leavers, ..head };
    w.answer(inner_vertices, inner_tokens)
}
