// The outer part of a leave (RULES 5.12), counted on the tables as they are. Nothing is written and nothing is copied: each list meets the outer layer as the lists before it will have left it.
ghost use Rattle.std.specs.Prelude.{◌≡◌, ◌+◌, ◌*◌, ◌≤◌, ◌<◌, length};
ghost use Rattle.sets.specs.Words.{people, bytes};
ghost use Rattle.rules.specs.Sound.{max_resources};
ghost use Rattle.rules.specs.Bytes.{resources_in};
ghost use Rattle.layer.specs.Laid.{max_vertices};
ghost use Rattle.layer.specs.Make.{sets_only};
ghost use Rattle.layer.specs.Lent.{layer_then};
ghost use Rattle.plan.specs.Waiting.{row};
ghost use Rattle.plan.specs.Judge.{Few};
ghost use Rattle.plan.specs.Leave.{list_part, left_in, leave_part};

use crate::judge::Part;
use layer::laid::Foreseen;
use layer::seen::Seen;
use layer::table::resource_in;
use rules::{Head, Resources};
use sets::User;

// What resource r adds: nothing where its list does not name the leaver.
fn leaver_rows(l: &Foreseen<'_>, r: usize) -> Part
    requires { r < l.now.seen.resources }
    ensures value { result ≡ list_part (layer_then l.now) (row (resources_in l.now.seen.resources l.now.resources.now) r).list l.now.seen.leaver.0 }
    ensures vertices_bound { (result.vertices ≤ 1) × (result.tokens ≤ people) × (result.orders ≤ people + 2) }
{
    let u = l.seen.leaver;
    let x = resource_in(l.resources, l.seen.resources, r);
    if !x.list.has(u) {
        return Part::NOTHING;
    }
    Part::locking(l.new_rows(x.list.without(u)), 1)
}

// New vertices at most: one for each resource. Their places are an array and not a Vec: nothing here is on a heap.
const PLACES: usize = Resources::LIMIT as usize;

// The outer part of a leave of u. Place i of `firsts` has the first resource that new vertex i is made for. The place behind the last is written each time, and counts where a vertex is new.
pub fn leave_part(h: Head, ov: &[u8], rs: &[u8], u: User) -> Part
    requires bytes_in_bounds { (h.outer_vertices.0 * bytes ≤ length ov.now) × (h.resources.0 * (bytes + 4) ≤ length rs.now) }
    requires resources_le_max_resources { (h.resources.0 ≤ max_resources) × (h.outer_vertices.0 ≤ max_vertices) × (u.0 < people) }
    ensures value { result ≡ leave_part (sets_only h.outer_vertices.0 ov.now) (left_in (resources_in h.resources.0 rs.now) u.0 h.resources.0) }
    ensures few { Few result }
{
    let n = h.resources.0 as usize;
    let vertices = h.outer_vertices.0 as usize;
    let mut firsts = [0u16; PLACES];
    let mut all = Part::NOTHING;
    for r in 0..n {
        let new = all.vertices;
        let l = Foreseen {
            vertices: ov,
            resources: rs,
            firsts: &firsts,
            seen: Seen {
                vertices,
                new,
                resources: n,
                leaver: u,
            },
        };
        let more = leaver_rows(&l, r);
        firsts[new] = r as u16;
        all = all + more;
    }
    all
}
