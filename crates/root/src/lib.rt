// The square root of an f64 and the size of a complex number, each correctly rounded.
// Both are half of the root of a whole number. A guess at it is made in f64 arithmetic and tested in whole numbers; where the
// test refuses, the root is found a binary digit at a time, highest first, in 64-bit words.
#![tactic(auto)]

ghost use Rattle.std.specs.Prelude.{◌≡◌, ◌+◌, ◌-◌, ◌*◌, ◌%◌, ◌^◌, ◌<◌, ◌≤◌, false, ◌&&◌, ◌||◌, T, from_bits, nat_lt, to_bits};
ghost use Rattle.std.specs.Float.{binary64};
ghost use Rattle.std.specs.Float.Ieee.{fits, units};
ghost use Rattle.root.specs.Root.{root_of};
ghost use Rattle.root.specs.NearestRoot.{nearest_root};
ghost use Rattle.root.specs.Norm.{sum_of_squares, norm_of};
ghost use Rattle.root.specs.Whole.{RootRest};
ghost use Rattle.root.specs.NearestHalf.{nearest_half};
ghost use Rattle.root.specs.Wide.{whole, Holds};
ghost use Rattle.root.specs.FromUnits.{Decodes};
ghost use Rattle.root.specs.HalfRoot.{half_root, Halvable};
ghost use Rattle.root.specs.NormMethod.{scaled_sum, cut_off};

mod wide;

use complex::Complex;
use std::num::{f64_to_bits_with_nan, wrapping_sub_u64};
use wide::Wide;

// The sign's bit of a bit pattern.
const SIGN: u64 = 0x8000_0000_0000_0000;

// The infinity's bit pattern. Without the sign's bit, finite values are below it and NaNs above.
const INFINITY: u64 = 0x7ff0_0000_0000_0000;

// The bit pattern of 1.
const ONE: u64 = 0x3ff0_0000_0000_0000;

// ---- half of a root

// The digits found of a root, and what the number's digits so far are above their square.
#[derive(Clone, Copy)]
struct Found {
    root: u64,
    rest: u64,
}

// 27 digits more of a root, one a turn and highest first: q holds those found, r what the number's digits so far are above
// q * q, and d the number's next 54. A digit is a number and not a branch, since nothing foretells it.
fn digits(d: u64, mut q: u64, mut r: u64) -> Found
    requires d_bound { d < 2 ^ 54 }
    requires q_bound { q < 2 ^ 27 }
    requires r_bound { r ≤ 2 * q }
    ensures root_rest { RootRest ((q * q + r) * 2 ^ 54 + d) result.root result.rest }
    ensures root_bound { result.root < 2 ^ 54 }
{
    let mut s = d << 10;
    for _ in 0..27u64 {
        let t = 4 * r + (s >> 62);
        let c = 4 * q + 1;
        let b = (t >= c) as u64;
        s <<= 2;
        q = 2 * q + b;
        r = t - b * c;
    }
    Found { root: q, rest: r }
}

// Half of the digits found, rounded to the nearest, ties to even. A half is no tie where anything is left below it: a
// rest, or what was cut off the number's end.
#[tactic(auto, using(crate::proofs::Laws::NearestHalf::half_more, crate::proofs::Laws::NearestHalf::half_exact))]
fn nearest_half(found: Found, cut: bool) -> u64
    requires { found.root < 2 ^ 54 }
    ensures { result ≡ nearest_half found.root (cut || nat_lt 0 found.rest) }
{
    let w = found.root;
    if cut || found.rest > 0 {
        (w + 1) / 2
    } else {
        (w + w / 2 % 2) / 2
    }
}

// h * 2^g units, where h may be 2^53. Past the largest f64 the pattern is the infinity's, and not one that follows it.
#[tactic(auto, using(crate::proofs::Laws::Units::pattern_real, crate::proofs::Laws::FromUnits::pattern_below, crate::proofs::Laws::FromUnits::pattern_above))]
fn from_units(h: u64, g: u64) -> f64
    requires h_bound { h ≤ 2 ^ 53 }
    requires bound { 0 < g → 2 ^ 52 ≤ h }
    requires g_bound { g ≤ 2046 }
    ensures { result ≡ units binary64 false h g }
{
    let b = g * 0x10_0000_0000_0000 + h;
    if b > INFINITY {
        f64::INFINITY
    } else {
        f64::from_bits(b)
    }
}

// A number n whose root has 54 digits, unless the exponent is 0: half of it times 2^exponent units is a value or past the
// largest.
#[derive(Clone, Copy)]
struct Radicand {
    n: Wide,
    exponent: u64,
    ghost halvable: { Halvable n exponent },
}

impl Radicand {
    // Whether n lies between the squares of 2 * h - 1 and 2 * h + 1 and is neither. Then half of its root is rounded to h.
    fn is_half(self, h: u64) -> bool
        requires h_nonzero { 0 < h }
        requires h_bound { h < 2 ^ 53 }
        ensures { result ≡ (nat_lt ((2 * h - 1) * (2 * h - 1)) (whole self.n) && nat_lt (whole self.n) ((2 * h + 1) * (2 * h + 1))) }
    {
        Wide::square(2 * h - 1).is_less(self.n) & self.n.is_less(Wide::square(2 * h + 1))
    }

    // Half of the root of n, rounded to the nearest, times 2^exponent units, by its digits.
    #[tactic(auto, using(crate::proofs::Laws::NearestHalf::half_few, crate::proofs::Laws::HalfRoot::half_long, crate::proofs::Laws::HalfRoot::half_found))]
    fn half_root_by_digits(self) -> f64
        ensures { result ≡ half_root (whole self.n) self.n.cut self.exponent }
    {
        let first = digits(self.n.hi, 0, 0);
        let found = digits(self.n.lo, first.root, first.rest);
        from_units(nearest_half(found, self.n.cut), self.exponent)
    }

    // The same, where h + 1 or h - 1 is likely to be the half. They are tested, so h may be any number.
    #[tactic(auto, using(crate::proofs::Laws::HalfRoot::tested, std::proofs::lemmas::Bool::Decides::nat_tests))]
    fn half_root_beside(self, h: u64) -> f64
        ensures { result ≡ half_root (whole self.n) self.n.cut self.exponent }
    {
        if (1 < h) & (h < 0x1f_ffff_ffff_ffff) {
            if self.is_half(h + 1) {
                return from_units(h + 1, self.exponent);
            }
            if self.is_half(h - 1) {
                return from_units(h - 1, self.exponent);
            }
        }
        self.half_root_by_digits()
    }

    // The same, where the answer is likely to be `guess`, which may be anything: its half is tested.
    #[tactic(auto, using(crate::proofs::Laws::HalfRoot::tested))]
    fn half_root(self, guess: f64) -> f64
        ensures { result ≡ half_root (whole self.n) self.n.cut self.exponent }
    {
        if guess.is_nan() {
            return self.half_root_beside(0);
        }
        let h = wrapping_sub_u64(f64::to_bits(guess), self.exponent * 0x10_0000_0000_0000);
        if (0 < h) & (h < 0x20_0000_0000_0000) {
            let passes = self.is_half(h);
            if passes {
                return from_units(h, self.exponent);
            }
        }
        self.half_root_beside(h)
    }
}

// ---- bit patterns

// A finite value, its sign aside: significand * 2^exponent units of 2^-1074.
#[derive(Clone, Copy)]
struct Decoded {
    significand: u64,
    exponent: u64,
}

// The value with the bit pattern b. A subnormal one has no leading digit, and the exponent of the smallest normal ones.
fn integer_decode(b: u64) -> Decoded
    requires { b < 0x7ff0_0000_0000_0000 }
    ensures { Decodes b result.significand result.exponent }
{
    let e = b >> 52;
    let t = b % 0x10_0000_0000_0000;
    if e == 0 {
        Decoded {
            significand: t,
            exponent: 0,
        }
    } else {
        Decoded {
            significand: 0x10_0000_0000_0000 + t,
            exponent: e - 1,
        }
    }
}

// The bit pattern of x without its sign; that of a NaN is above the infinity's. And x is a value of its format.
fn magnitude(x: f64) -> u64
    ensures value { result ≡ to_bits binary64 x % 2 ^ 63 }
    ensures t { T (fits binary64 x) }
{
    f64_to_bits_with_nan(x) % SIGN
}

// ---- a guess at a root: nothing is proved of it, and no answer depends on it

// The root of a number from 2 to 8, less 1, in 4096ths: at 2, 2 1/4, .. 4, and from there on half of it, at 4, 4 1/2, .. 8. So
// it goes on from one exponent to the next, as bit patterns do.
const ROOTS: [u64; 17] = [
    1697, 2048, 2380, 2696, 2998, 3288, 3567, 3836, 4096, 4344, 4579, 4803, 5017, 5221, 5418, 5609,
    5793,
];

// 4096 times the number that is t / 4096 of the way from a to b.
fn between(a: u64, b: u64, t: u64) -> u64
    requires a_bound { a < 2 ^ 13 }
    requires b_bound { b < 2 ^ 13 }
    requires t_bound { t < 4096 }
    ensures { result ≤ 2 ^ 25 }
{
    a * (4096 - t) + b * t
}

// A number near the root of the value with the bit pattern b: the pattern halved, and a line between two roots. It has 25
// digits, so that its square is exact.
#[tactic(auto, using(crate::proofs::Laws::Units::pattern_real))]
fn first_guess(b: u64) -> f64
    requires { b < 2 ^ 63 }
{
    let c = b + 0x10_0000_0000;
    let i = ((c >> 49) % 16) as usize;
    let t = (c >> 37) % 4096;
    let first = between(ROOTS[i], ROOTS[i + 1], t);
    f64::from_bits((c >> 53 << 52) + (first << 28) + 0x1ff0_0000_0000_0000)
}

// The root of g * g + d, where r is 1 / (g * g + d): g times the series of 1 / root(1 - v) in v = d * r, to the fifth power.
// Near a power of 4 the root is often just below the middle of two numbers, so a little is taken off.
fn refined(g: f64, d: f64, r: f64) -> f64 {
    let v = d * r;
    let w = g * v;
    let vv = v * v;
    let first = w * (0.5 + 0.375 * v) - g * 1.0842021724855044e-19;
    let rest = w * vv * (0.3125 + 0.2734375 * v + vv * 0.24609375);
    g + (first + rest)
}

fn root_guess(x: f64) -> f64 {
    if x.is_nan() {
        return x;
    }
    let g = first_guess(f64::to_bits(x) % SIGN);
    refined(g, x - g * g, 1.0 / x)
}

// The first half of x's digits.
fn upper_half(x: f64) -> f64 {
    let y = 134217729.0 * x;
    y - (y - x)
}

// The sum of the squares of a's parts, less the square of g. The squares of their upper halves are exact.
fn excess(a: Complex, g: f64) -> f64 {
    let x = upper_half(a.re);
    let y = upper_half(a.im);
    let s = x * x;
    let t = y * y;
    s.max(t) - g * g + s.min(t) + ((a.re - x) * (a.re + x) + (a.im - y) * (a.im + y))
}

fn norm_guess(a: Complex) -> f64 {
    let z = a.norm_sqr();
    if z.is_nan() {
        return z;
    }
    let g = first_guess(f64::to_bits(z) % SIGN);
    refined(g, excess(a, g), 1.0 / z)
}

// ---- the square root

// The root of a finite value above zero, by its bit pattern. Four times the value is c * 2^e squares of a unit, where c is
// the significand moved up to 53 binary digits. Where e is odd it is moved up once more, so that the exponent can be halved.
#[tactic(auto, using(crate::proofs::Laws::RootMethod::zeros_least, crate::proofs::Laws::RootMethod::hi_range, crate::proofs::Laws::RootMethod::root_found))]
fn positive(b: u64, guess: f64) -> f64
    requires b_nonzero { 0 < b }
    requires b_bound { b < 0x7ff0_0000_0000_0000 }
    ensures { result ≡ root_of (from_bits binary64 b) }
{
    let d = integer_decode(b);
    let z = u64::leading_zeros(d.significand) as u64 - 11;
    let e = d.exponent + 1076 - z;
    let n = Wide {
        hi: d.significand << (z + e % 2),
        lo: 0,
        cut: false,
    };
    let radicand = Radicand {
        n,
        exponent: e / 2 - 27,
    };
    radicand.half_root(guess)
}

// The root of x, whatever the guess at it. A zero is its own root, with its sign; of anything else below zero, and of a NaN,
// it is a NaN.
#[tactic(auto, using(crate::proofs::Laws::Patterns::nan_root, crate::proofs::Laws::Patterns::nan_value, crate::proofs::Laws::Patterns::zero_root, crate::proofs::Laws::Patterns::minus_zero_root, crate::proofs::Laws::Patterns::below_root, crate::proofs::Laws::Patterns::top_root, crate::proofs::Laws::Patterns::by_pattern))]
pub fn root_with(x: f64, guess: f64) -> f64
    ensures { result ≡ root_of x }
{
    if x.is_nan() {
        return x;
    }
    let b = f64::to_bits(x);
    if b == 0 {
        return x;
    }
    if b == SIGN {
        return x;
    }
    if b > SIGN {
        return f64::NAN;
    }
    if b >= INFINITY {
        return x;
    }
    positive(b, guess)
}

// The root of x. 1 is its own root, and is told apart since most roots on product states are of 1.
#[tactic(auto, using(crate::proofs::Laws::Patterns::one_root))]
pub fn root(x: f64) -> f64
    ensures { result ≡ root_of x }
{
    if f64_to_bits_with_nan(x) == ONE {
        return x;
    }
    root_with(x, root_guess(x))
}

// ---- the size of a complex number

// Four times the sum of the squares of a and b / 2^k, cut to a whole number.
fn scaled_sum(a: u64, b: u64, k: u64) -> Wide
    requires a_bound { a < 2 ^ 53 }
    requires b_bound { b < 2 ^ 53 }
    requires k_bound { k ≤ 26 }
    ensures { Holds result (scaled_sum a b k) (cut_off b k) }
{
    Wide::square(2 * a).sum(Wide::square(2 * b).quotient(k))
}

// From so many exponents apart on, the smaller part does not show in the size.
const FAR: u64 = 27;

// The size of two finite parts, by their bit patterns without signs, the larger first. Their squares are added in units of
// the larger one's last digit squared, or of the next where the sum has a digit more. From 27 exponents apart on the
// smaller square does not count.
#[tactic(auto, using(crate::proofs::Laws::Units::pattern_real, crate::proofs::Laws::NormMethod::sum_low, crate::proofs::Laws::NormMethod::longer, crate::proofs::Laws::NormMethod::near))]
fn finite_norm(x: u64, y: u64, guess: f64) -> f64
    requires y_le_x { y ≤ x }
    requires x_bound { x < 0x7ff0_0000_0000_0000 }
    ensures { result ≡ nearest_root (sum_of_squares (from_bits binary64 x) (from_bits binary64 y)) }
{
    let a = integer_decode(x);
    let b = integer_decode(y);
    let k = a.exponent - b.exponent;
    if k >= FAR {
        return f64::from_bits(x);
    }
    let n = scaled_sum(a.significand, b.significand, k);
    let longer = n.hi >> 54;
    let radicand = Radicand {
        n: n.quotient(longer),
        exponent: a.exponent + longer,
    };
    radicand.half_root(guess)
}

// The size of a complex number, whatever the guess at it: the f64 nearest to the exact root of the sum of its parts'
// squares, ties to even.
#[tactic(auto, using(crate::proofs::Laws::Patterns::nan_value, crate::proofs::Laws::FromUnits::top_value, crate::proofs::Laws::Magnitude::size_infinite, crate::proofs::Laws::Magnitude::size_nan, crate::proofs::Laws::Magnitude::size_finite, crate::proofs::Laws::Magnitude::either_order))]
pub fn norm_with(a: Complex, guess: f64) -> f64
    ensures { result ≡ norm_of a }
{
    let x = magnitude(a.re);
    let y = magnitude(a.im);
    if (x == INFINITY) | (y == INFINITY) {
        f64::INFINITY
    } else if (x > INFINITY) | (y > INFINITY) {
        f64::NAN
    } else {
        finite_norm(x.max(y), x.min(y), guess)
    }
}

// The size of a complex number.
pub fn norm(a: Complex) -> f64
    ensures { result ≡ norm_of a }
{
    norm_with(a, norm_guess(a))
}
