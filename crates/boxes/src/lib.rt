// Vectors and boxes by value. This file has the records, overlap and clipping, from collision.rs: every function takes any numbers. vectors.rt has
// the sums and products of vectors, and limits.rt the limits on what is handed in.
#![tactic(auto)]

mod limits;
pub mod vectors;

ghost use Rattle.std.specs.Prelude.{◌≡◌};
ghost use Rattle.boxes.specs.Boxes.{vec, box, from_feet, offset_by, below0, above0, down_of, up_of, expand_towards, inflate_by, meet, overlap, feet_of, clip_x, clip_y, clip_z};
ghost use Rattle.boxes.specs.Sides.{on_x, on_y, on_z, apart_on, clip_on};
ghost use Rattle.base.specs.Choose.{choose};

pub use limits::{are_within, is_box, is_delta, is_step};

#[derive(Clone, Copy, Debug, PartialEq)]
pub struct Vec3 {
    pub x: f64,
    pub y: f64,
    pub z: f64,
}

#[derive(Clone, Copy, Debug, PartialEq)]
pub struct Aabb {
    pub min: Vec3,
    pub max: Vec3,
}

// A box and a mover on one axis: the box from lo to hi, the mover from `from` to `to`.
#[derive(Clone, Copy)]
struct Sides {
    lo: f64,
    hi: f64,
    from: f64,
    to: f64,
}

impl Vec3 {
    pub fn new(x: f64, y: f64, z: f64) -> Vec3
        ensures { result ≡ vec x y z }
    {
        Vec3 { x, y, z }
    }
}

// d where it goes down, and 0 otherwise; a zero stays as it is.
#[tactic(auto, using(base::proofs::Cases::cases), unfolding(base::specs::Choose::choose))]
fn low(d: f64) -> f64
    ensures { result ≡ below0 d }
{
    if d <= 0.0 { d } else { 0.0 }
}

#[tactic(auto, using(base::proofs::Cases::cases), unfolding(base::specs::Choose::choose))]
fn high(d: f64) -> f64
    ensures { result ≡ above0 d }
{
    if d >= 0.0 { d } else { 0.0 }
}

fn lows(d: Vec3) -> Vec3
    ensures { result ≡ down_of d }
{
    Vec3 {
        x: low(d.x),
        y: low(d.y),
        z: low(d.z),
    }
}

fn highs(d: Vec3) -> Vec3
    ensures { result ≡ up_of d }
{
    Vec3 {
        x: high(d.x),
        y: high(d.y),
        z: high(d.z),
    }
}

impl Aabb {
    pub fn new(min: Vec3, max: Vec3) -> Aabb
        ensures { result ≡ box min max }
    {
        Aabb { min, max }
    }

    // A box of width by height by width whose bottom face is centred on `feet`.
    pub fn from_feet(feet: Vec3, width: f64, height: f64) -> Aabb
        ensures { result ≡ from_feet feet width height }
    {
        let half = width / 2.0;
        Aabb {
            min: Vec3 {
                x: feet.x - half,
                y: feet.y,
                z: feet.z - half,
            },
            max: Vec3 {
                x: feet.x + half,
                y: feet.y + height,
                z: feet.z + half,
            },
        }
    }

    pub fn offset(self, by: Vec3) -> Aabb
        ensures { result ≡ offset_by self by }
    {
        Aabb {
            min: Vec3 {
                x: self.min.x + by.x,
                y: self.min.y + by.y,
                z: self.min.z + by.z,
            },
            max: Vec3 {
                x: self.max.x + by.x,
                y: self.max.y + by.y,
                z: self.max.z + by.z,
            },
        }
    }

    // Grows the box in the direction of `delta` only.
    pub fn expand_towards(self, delta: Vec3) -> Aabb
        ensures { result ≡ expand_towards self delta }
    {
        let down = lows(delta);
        let up = highs(delta);
        Aabb {
            min: Vec3 {
                x: self.min.x + down.x,
                y: self.min.y + down.y,
                z: self.min.z + down.z,
            },
            max: Vec3 {
                x: self.max.x + up.x,
                y: self.max.y + up.y,
                z: self.max.z + up.z,
            },
        }
    }

    pub fn inflate(self, by: Vec3) -> Aabb
        ensures { result ≡ inflate_by self by }
    {
        Aabb {
            min: Vec3 {
                x: self.min.x - by.x,
                y: self.min.y - by.y,
                z: self.min.z - by.z,
            },
            max: Vec3 {
                x: self.max.x + by.x,
                y: self.max.y + by.y,
                z: self.max.z + by.z,
            },
        }
    }

    // Strict on all three axes: touching is no overlap.
    pub fn intersects(self, other: Aabb) -> bool
        ensures { result ≡ overlap self other }
    {
        meets(self.min.x, self.max.x, other.min.x, other.max.x)
            && meets(self.min.y, self.max.y, other.min.y, other.max.y)
            && meets(self.min.z, self.max.z, other.min.z, other.max.z)
    }

    // The middle of the bottom face.
    pub fn feet(self) -> Vec3
        ensures { result ≡ feet_of self }
    {
        Vec3 {
            x: (self.min.x + self.max.x) / 2.0,
            y: self.min.y,
            z: (self.min.z + self.max.z) / 2.0,
        }
    }

    // How far `mover` goes along x, of dx, before it stops at this box.
    pub fn clip_x(self, mover: Aabb, dx: f64) -> f64
        ensures { result ≡ clip_x self mover dx }
    {
        clipped(self.on_y(mover), self.on_z(mover), self.on_x(mover), dx)
    }

    pub fn clip_y(self, mover: Aabb, dy: f64) -> f64
        ensures { result ≡ clip_y self mover dy }
    {
        clipped(self.on_x(mover), self.on_z(mover), self.on_y(mover), dy)
    }

    pub fn clip_z(self, mover: Aabb, dz: f64) -> f64
        ensures { result ≡ clip_z self mover dz }
    {
        clipped(self.on_x(mover), self.on_y(mover), self.on_z(mover), dz)
    }

    fn on_x(self, mover: Aabb) -> Sides
        ensures { result ≡ on_x self mover }
    {
        Sides {
            lo: self.min.x,
            hi: self.max.x,
            from: mover.min.x,
            to: mover.max.x,
        }
    }

    fn on_y(self, mover: Aabb) -> Sides
        ensures { result ≡ on_y self mover }
    {
        Sides {
            lo: self.min.y,
            hi: self.max.y,
            from: mover.min.y,
            to: mover.max.y,
        }
    }

    fn on_z(self, mover: Aabb) -> Sides
        ensures { result ≡ on_z self mover }
    {
        Sides {
            lo: self.min.z,
            hi: self.max.z,
            from: mover.min.z,
            to: mover.max.z,
        }
    }
}

// Strict overlap on one axis, of al to ah and bl to bh.
fn meets(al: f64, ah: f64, bl: f64, bh: f64) -> bool
    ensures { result ≡ meet al ah bl bh }
{
    al < bh && ah > bl
}

// One of two numbers that are both at hand.
#[tactic(auto, using(base::proofs::Cases::cases), unfolding(base::specs::Choose::choose))]
fn either(first: bool, a: f64, b: f64) -> f64
    ensures { result ≡ choose first a b }
{
    if first { a } else { b }
}

// Where the mover passes the box by on this axis the way is free; otherwise there is a gap.
#[tactic(auto, using(crate::proofs::Clips::either_way))]
fn past(s: Sides, free: f64, gap: f64) -> f64
    ensures { result ≡ choose (apart_on s) free gap }
{
    let before = s.to <= s.lo;
    let after = s.from >= s.hi;
    either(before, free, either(after, free, gap))
}

// The way d along an axis, stopped at the box where the mover doesn't pass it by on one of the two other axes. It serves x, y and z. The tests
// of a box stand side by side and not one behind the other, since a processor can't guess how they go from box to box (docs/SPEED.md); the gap
// is infinite where one says that the way is free.
fn clipped(first: Sides, second: Sides, along: Sides, d: f64) -> f64
    ensures { result ≡ clip_on first second along d }
{
    if d > 0.0 {
        let free = f64::INFINITY;
        let ahead = along.to <= along.lo;
        let gap = either(ahead, along.lo - along.to, free);
        return floats::lesser(d, past(first, free, past(second, free, gap)));
    }
    if d < 0.0 {
        let free = f64::NEG_INFINITY;
        let behind = along.from >= along.hi;
        let gap = either(behind, along.hi - along.from, free);
        return floats::greater(d, past(first, free, past(second, free, gap)));
    }
    d
}
