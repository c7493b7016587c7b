// The attempts of a move, from pass to pass: what a pass starts with and comes to, whether a step-up is tried, and which attempt is kept. The moves
// over a capped list, through a window and over lent boxes make their passes where their boxes lie, and call these between.
#![tactic(auto)]

ghost use Rattle.std.specs.Prelude.{◌≡◌};
ghost use Rattle.sweeps.specs.Move.{flat_square, longer, blocked_horizontally};
ghost use Rattle.sweeps.specs.Passes.{wanted_of, gone_of, tries, next_sweep, first_sweep};

use boxes::Vec3;
use sweeps::{AxisName, Request, Sweep, Swept, stopped_falling};

// Where a move stands before its first pass.
pub fn begun(q: Request) -> Sweep
    ensures { result ≡ first_sweep q }
{
    let start = Swept {
        aabb: q.aabb,
        moved: q.delta,
    };
    Sweep {
        now: start,
        first: start,
        over: false,
    }
}

// The way that a pass starts with.
#[tactic(auto, using(base::proofs::Cases::cases), unfolding(sweeps::specs::Passes::wanted_of, base::specs::Choose::choose))]
pub fn wanted<A: AxisName>(pass: u32, axis: A, q: Request, s: Swept) -> f64
    ensures { result ≡ wanted_of pass (A.named axis) q s }
{
    match axis.number() {
        0 => q.delta.x,
        2 => q.delta.z,
        _ if pass < 3 => q.delta.y,
        _ if pass < 6 => q.step,
        _ => -s.moved.y,
    }
}

// The attempt s after a pass that came to d.
#[tactic(auto, using(base::proofs::Cases::cases), unfolding(sweeps::specs::Passes::gone_of, base::specs::Choose::choose))]
pub fn gone<A: AxisName>(pass: u32, axis: A, s: Swept, d: f64) -> Swept
    ensures { result ≡ gone_of pass (A.named axis) s d }
{
    match axis.number() {
        0 => Swept {
            aabb: s.aabb.offset(Vec3::new(d, 0.0, 0.0)),
            moved: Vec3::new(d, s.moved.y, s.moved.z),
        },
        2 => Swept {
            aabb: s.aabb.offset(Vec3::new(0.0, 0.0, d)),
            moved: Vec3::new(s.moved.x, s.moved.y, d),
        },
        _ if pass < 6 => Swept {
            aabb: s.aabb.offset(Vec3::new(0.0, d, 0.0)),
            moved: Vec3::new(s.moved.x, d, s.moved.z),
        },
        _ => Swept {
            aabb: s.aabb.offset(Vec3::new(0.0, d, 0.0)),
            moved: Vec3::new(s.moved.x, s.moved.y + d, s.moved.z),
        },
    }
}

fn blocked_horizontally(delta: Vec3, moved: Vec3) -> bool
    ensures { result ≡ blocked_horizontally delta moved }
{
    moved.x != delta.x || moved.z != delta.z
}

// Whether a step-up is tried, after a first attempt that came to `moved`.
fn tries_step(q: Request, moved: Vec3) -> bool
    ensures { result ≡ tries q moved }
{
    q.step > 0.0
        && (q.on_ground || stopped_falling(q.delta.y, moved.y))
        && blocked_horizontally(q.delta, moved)
}

// The square of the way along the ground.
fn flat_square(v: Vec3) -> f64
    ensures { result ≡ flat_square v }
{
    v.x * v.x + v.z * v.z
}

// The step is kept only if it is strictly longer horizontally.
#[tactic(auto, using(base::proofs::Cases::cases), unfolding(base::specs::Choose::choose))]
fn longer_of(moved: Swept, stepped: Swept) -> Swept
    ensures { result ≡ longer moved stepped }
{
    if flat_square(stepped.moved) > flat_square(moved.moved) {
        return stepped;
    }
    moved
}

// Where the move stands after a pass whose attempt came to `got`.
#[tactic(auto, using(base::proofs::Cases::cases), unfolding(sweeps::specs::Passes::next_sweep, base::specs::Choose::choose))]
pub fn next_sweep(pass: u32, q: Request, first: Swept, got: Swept) -> Sweep
    ensures { result ≡ next_sweep pass q first got }
{
    if pass == 2 {
        if tries_step(q, got.moved) {
            return Sweep {
                now: Swept {
                    aabb: q.aabb,
                    moved: got.moved,
                },
                first: got,
                over: false,
            };
        }
        return Sweep {
            now: got,
            first: got,
            over: true,
        };
    }
    if pass == 6 {
        return Sweep {
            now: longer_of(first, got),
            first,
            over: true,
        };
    }
    Sweep {
        now: got,
        first,
        over: false,
    }
}
