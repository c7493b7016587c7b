// The square root of a finite number above zero, over its bits: f64 arithmetic proposes, and whole numbers, which do not round, decide.
// What a call costs is bounded by this shape, however near the proposals are: it goes once at most through the one loop, the 32 turns of
// `root_by_bits`, and divides once at most, in `quotient`. There is no other loop and no other division.
ghost use Rattle.std.specs.Prelude.{◌+◌, ◌*◌, ◌^◌, ◌≤◌, ◌<◌};
ghost use Rattle.roots.specs.Steps.{Nearest, Halves, RootBits, units_of};

// What f64 arithmetic proposes, and whole numbers decide: no proof rests on how near these are.
#[derive(Clone, Copy)]
struct Near {
    root: u64,
    inverse: u64,
}

// From the bits of the f64 n: the whole part of 32 times its root, and 2^56 over the root. The bits, halved and turned round,
// are those of 0.87 to 0.92 times the inverse of the root; a first step with constants for that leaves a 1500th, and two steps of
// Newton's one part in 10^12. A sum with a number of the right size has the whole part in its last bits.
fn guess(b: u64) -> Near
    requires { b < 1100 * 2 ^ 52 }
{
    let n = f64::from_bits(b);
    let y = f64::from_bits(0x5fe3_ffff_0000_0000 - (b >> 1));
    let e = 2.38924456 - n * y * y;
    let r = n * 22.526472096 * y * e;
    let h = y * 0.010999253953125 * e;
    let e = 1.5 - r * h;
    let r = r * e;
    let h = h * e;
    let e = 1.5 - r * h;
    let root = floats::bits_of_float(r * e + 26388279066624.0);
    let inverse = floats::bits_of_float(h * e + 0.00146484375);
    Near {
        root: root >> 8,
        inverse,
    }
}

// The whole part of the root of m, bit by bit from the top: 32 turns, whatever m is. For a proposal that is not near.
fn root_by_bits(m: u64) -> u64
    ensures { (result * result ≤ m) × (m < (result + 1) * (result + 1)) }
{
    let mut r: u64 = 0;
    for turn in 0..32u64 {
        let t = r + (1 << (31 - turn));
        if t * t <= m {
            r = t;
        }
    }
    r
}

// The last bits of g as a number below 2^32. Just below a power of four the proposal rounds up to 2^32, which is no root: its end is taken.
fn proposed(g: u64) -> u64
    ensures { result < 2 ^ 32 }
{
    let s = g % 0x100_0000_0000;
    if s < 0x1_0000_0000 { s } else { 0xffff_ffff }
}

// The whole part of the root of m: what g proposes or a neighbour of it, where that is it; otherwise bit by bit.
fn whole_root(m: u64, g: u64) -> u64
    ensures { (result * result ≤ m) × (m < (result + 1) * (result + 1)) }
{
    let s = proposed(g);
    let p = s * s;
    if p <= m {
        let over = m - p;
        if over <= s + s {
            return s;
        }
        if over <= 4 * s + 3 {
            return s + 1;
        }
        return root_by_bits(m);
    }
    if p - m < s + s {
        return s - 1;
    }
    root_by_bits(m)
}

// The whole part of a / d: the last 23 bits of g or a neighbour of them, where that is it; otherwise by dividing.
fn quotient(a: u64, d: u64, g: u64) -> u64
    requires { (0 < d) × (d < 2 ^ 33) }
    ensures { (result * d ≤ a) × (a < result * d + d) }
{
    let q = g % 0x80_0000;
    let p = q * d;
    if p <= a {
        let over = a - p;
        if over < d {
            return q;
        }
        if over - d < d {
            return q + 1;
        }
        return a / d;
    }
    if p - a <= d {
        return q - 1;
    }
    a / d
}

// The whole number nearest to the root of n * 2^52. With m = n * 2^10 and s its whole root, that is t * t + u - q * q,
// and t * t - t is below it. b is the bits of n as an f64, or others: they only propose.
fn rounded_root(n: u64, b: u64) -> u64
    requires { (2 ^ 52 ≤ n) × (n < 2 ^ 54) × (b < 1100 * 2 ^ 52) }
    ensures { Nearest (n * 2 ^ 52) result }
{
    let g = guess(b);
    let m = n * 0x400;
    let s = whole_root(m, g.root);
    let d = s + s;
    let r = m - s * s;
    let a = r * 0x20_0000;
    let q = quotient(a, d, (r * (g.inverse % 0x8000_0000)) >> 41);
    let u = (a - q * d) * 0x20_0000;
    let t = s * 0x20_0000 + q;
    if t + q * q < u {
        return t + 1;
    }
    t
}

// A number of units as n * 2^52 * 4^half / 2^1074, with n's highest bit at 52 or 53. `near` is the bits of n as an f64, or others: they only propose.
#[derive(Clone, Copy)]
struct Halved {
    n: u64,
    near: u64,
    half: u64,
}

// From m * 2^k units, with m's highest bit z places below bit 52: it is moved there, and one further where the exponent w - 2148 is odd.
fn halved_at(m: u64, k: u64, z: u64) -> Halved
    requires { (z ≤ 52) × (2 ^ 52 ≤ m * 2 ^ z) × (m * 2 ^ z < 2 ^ 53) × (k < 2046) }
    ensures { Halves (m * 2 ^ k) result.n result.half × (result.near < 1100 * 2 ^ 52) }
{
    let w = k + 1074 - z;
    let n = m << (z + w % 2);
    let near = (w % 2 + 1074) * 0x10_0000_0000_0000 + (m << z) % 0x20_0000_0000_0000;
    let half = w / 2 - 26;
    Halved { n, near, half }
}

// From the bits of a number that is finite and above zero. Where these are no number below the normal ones, nothing is to be counted.
fn halved_of(b: u64) -> Halved
    requires { (0 < b) × (b < 2047 * 2 ^ 52) }
    ensures { Halves (units_of b) result.n result.half × (result.near < 1100 * 2 ^ 52) }
{
    let e = b / 0x10_0000_0000_0000;
    let t = b % 0x10_0000_0000_0000;
    if e == 0 {
        let z = u64::leading_zeros(t) as u64 - 11;
        return halved_at(t, 0, z);
    }
    halved_at(0x10_0000_0000_0000 + t, e - 1, 0)
}

// The bits of the root of the number whose bits are b, which is finite and above zero. The whole root is worked out in this one place, so that the
// compiler puts it where it is called.
pub(crate) fn root_bits(b: u64) -> u64
    requires { (0 < b) × (b < 2047 * 2 ^ 52) }
    ensures { RootBits (units_of b) result }
{
    let h = halved_of(b);
    h.half * 0x10_0000_0000_0000 + rounded_root(h.n, h.near)
}
