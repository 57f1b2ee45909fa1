// One step of each environment walk. An environment of dimension d is d * d complex numbers by rows, at the front of the work slice.
// A step writes the inner sums behind it, then the new environment behind these, and copies that to the front.
#![tactic(auto, using(complex::specs::Loops::each_none, complex::specs::Loops::each_more), unfolding(crate::specs::Products::plus_unless_zero, crate::specs::Products::few_left, crate::specs::Products::inner_left, crate::specs::Products::many_left, crate::specs::Products::entry_left, crate::specs::Products::few_right, crate::specs::Products::inner_right, crate::specs::Products::many_right, crate::specs::Products::entry_right))]

ghost use Rattle.std.specs.Prelude.{ℕ, ◌≡◌, ◌+◌, ◌*◌, ◌/◌, ◌%◌, ◌<◌, ◌≤◌, cond, eqb, length, take};
ghost use Rattle.complex.specs.Complex.{real, zero_c, one_f};
ghost use Rattle.complex.specs.Numbers.{count, at, stores, numbers};
ghost use Rattle.model.specs.Slots.{amplitude};
ghost use Rattle.model.specs.Environment.{identity_env, left_across, right_across};
ghost use Rattle.walks.specs.Products.{plus_unless_zero, cell_left, few_left, inner_left, many_left, entry_left, cell_right, few_right, inner_right, many_right, entry_right};

use complex::{Complex, complex_at, set_complex};
use fills::fill_rows;

// A site's numbers with its bonds: by left index, bit and right index.
#[derive(Clone, Copy)]
pub struct Site<'a> {
    pub numbers: &'a [f64],
    pub left: usize,
    pub right: usize,
    pub ghost few: { (1 ≤ left) × (left ≤ 128) × (1 ≤ right) × (right ≤ 128) },
    pub ghost within: { left * (2 * right) ≤ count numbers.now },
}

impl<'a> Site<'a> {
    // The amplitude at left index a, bit i and right index b.
    fn amplitude(self, a: usize, i: usize, b: usize) -> Complex
        requires { (a < self.left) × (i < 2) × (b < self.right) }
        ensures { result ≡ amplitude self.entry.numbers.now self.entry.right a i b }
    {
        complex_at(self.numbers, a * (2 * self.right) + i * self.right + b)
    }
}

// ---- the identity, and the way to the front

fn diagonal(r: usize, c: usize) -> Complex
    ensures { result ≡ cond (eqb r c) (real one_f) zero_c }
{
    if r == c {
        Complex::from(1.0)
    } else {
        Complex::ZERO
    }
}

// The identity of a dimension.
pub fn identity(out: &mut [f64], dim: usize)
    requires { (1 ≤ dim) × (dim ≤ 128) × (length out.old ≡ 2 * (dim * dim)) }
    ensures { out.new ≡ (identity_env dim).entries }
{
    fill_rows(out, dim, dim, |r, c| diagonal(r, c));
}

// The n numbers from `from` on become the first n. They may overlap.
fn copy_down(work: &mut [f64], from: usize, n: usize)
    requires { from + n ≤ count work.old }
    ensures { take (2 * n) work.new ≡ numbers n (λ k. at work.old (from + k)) }
{
    work.copy_within(2 * from..2 * (from + n), 0);
}

// A matrix from number `to` on, row by row: each number is made of its place and of what lies before the matrix.
fn fill_area<F: Fn(&[f64], usize, usize) -> Complex>(
    work: &mut [f64],
    to: usize,
    high: usize,
    wide: usize,
    number: F,
)
    requires room { (1 ≤ wide) × (high ≤ 256) × (wide ≤ 256) × (to ≤ 65536) × (to + high * wide ≤ count work.old) }
    requires may { (front : _) (r c : ℕ) → length front.now ≡ 2 * to → r < high → c < wide → F.pre number front r c }
    ensures { (f : ℕ → ℕ → _) → ((front : _) (r c : ℕ) (z : _) → front.now ≡ take (2 * to) work.old → r < high → c < wide → F.post number front r c z → z ≡ f r c) → work.new ≡ stores (high * wide) (λ k. to + k) (λ k. f (k / wide) (k % wide)) work.old }
{
    let e = 2 * to;
    let n = high * wide;
    for k in 0..n {
        let z = number(&work[..e], k / wide, k % wide);
        set_complex(work, to + k, z);
    }
}

// ---- a left environment across a site

// acc plus e x, unless e is zero.
fn plus_unless_zero(e: Complex, x: Complex, acc: Complex) -> Complex
    ensures { result ≡ plus_unless_zero e x acc }
{
    if e.is_zero() { acc } else { acc + e * x }
}

// The terms of both bits of the entry e of a left environment at (a, a1), added to acc, unless e is zero.
#[tactic(auto, unfolding(complex::specs::Loops::each, crate::specs::Products::cell_left, crate::specs::Products::term_left))]
fn left_cell(
    site: Site,
    a: usize,
    a1: usize,
    g: usize,
    g1: usize,
    e: Complex,
    acc: Complex,
) -> Complex
    requires { (a < site.left) × (a1 < site.left) × (g < site.right) × (g1 < site.right) }
    ensures { result ≡ cell_left site.entry.right site.entry.numbers.now a a1 g g1 e acc }
{
    if e.is_zero() {
        acc
    } else {
        let z = acc + e * site.amplitude(a, 0, g) * site.amplitude(a1, 0, g1).conj();
        z + e * site.amplitude(a, 1, g) * site.amplitude(a1, 1, g1).conj()
    }
}

// The sum over four indices, for few bonds.
fn left_few(env: &[f64], site: Site, g: usize, g1: usize) -> Complex
    requires { (g < site.right) × (g1 < site.right) × (site.left * site.left ≤ count env.now) }
    ensures { result ≡ few_left site.entry.left site.entry.right site.entry.numbers.now env.now g g1 }
{
    let bl = site.left;
    let n = bl * bl;
    let mut acc = Complex::ZERO;
    for k in 0..n {
        acc = left_cell(site, k / bl, k % bl, g, g1, complex_at(env, k), acc);
    }
    acc
}

// Σ over a of env(a, a1) times the site's number (a, c), c = i * site.right + g.
fn left_inner(env: &[f64], site: Site, a1: usize, c: usize) -> Complex
    requires { (a1 < site.left) × (c < 2 * site.right) × (site.left * site.left ≤ count env.now) }
    ensures { result ≡ inner_left site.entry.left site.entry.right site.entry.numbers.now env.now a1 c }
{
    let bl = site.left;
    let wide = 2 * site.right;
    let mut acc = Complex::ZERO;
    for a in 0..bl {
        let e = complex_at(env, a * bl + a1);
        acc = plus_unless_zero(e, complex_at(site.numbers, a * wide + c), acc);
    }
    acc
}

// Σ over rows r = (a1, i) of the inner sum (r, g) times the conjugate of the site's number (r, g1).
fn left_many(front: &[f64], site: Site, mid: usize, g: usize, g1: usize) -> Complex
    requires { (g < site.right) × (g1 < site.right) × (mid + site.left * (2 * site.right) ≤ count front.now) }
    ensures { result ≡ many_left site.entry.left site.entry.right mid site.entry.numbers.now front.now g g1 }
{
    let br = site.right;
    let high = site.left * 2;
    let mut acc = Complex::ZERO;
    for r in 0..high {
        let x = complex_at(front, mid + (r * br + g));
        acc = plus_unless_zero(x, complex_at(site.numbers, r * br + g1).conj(), acc);
    }
    acc
}

// The entry (g, g1) of the new environment: the sum over four indices for few bonds, else from the inner sums.
fn left_entry(front: &[f64], site: Site, mid: usize, g: usize, g1: usize) -> Complex
    requires { (g < site.right) × (g1 < site.right) × (site.left * site.left ≤ mid) × (mid + site.left * (2 * site.right) ≤ count front.now) }
    ensures { result ≡ entry_left site.entry.left site.entry.right mid site.entry.numbers.now front.now g g1 }
{
    if site.left * site.right <= 4 {
        left_few(front, site, g, g1)
    } else {
        left_many(front, site, mid, g, g1)
    }
}

// The environment of dimension site.left at the front of the work slice becomes the one across the site, of dimension site.right.
// It takes (site.left + site.right)² complex numbers.
pub fn left_across(site: Site, work: &mut [f64])
    requires { site.left * site.left + site.left * (2 * site.right) + site.right * site.right ≤ count work.old }
    ensures { take (2 * (site.entry.right * site.entry.right)) work.new ≡ (left_across site.entry.left site.entry.right site.entry.numbers.now (record { dim = site.entry.left; entries = take (2 * (site.entry.left * site.entry.left)) work.old })).entries }
{
    let bl = site.left;
    let br = site.right;
    let mid = bl * bl;
    let to = mid + bl * (2 * br);
    if bl * br > 4 {
        fill_area(
            work,
            mid,
            bl,
            2 * br,
            |env, a1, c| left_inner(env, site, a1, c),
        );
    }
    fill_area(
        work,
        to,
        br,
        br,
        |front, g, g1| left_entry(front, site, mid, g, g1),
    );
    copy_down(work, to, br * br);
}

// ---- a right environment across a site: mirror images of the functions above, and no twins, since the left sums
// multiply the entry first and skip zeros where these do not

// The terms of both bits of the entry e of a right environment at (b, b1), added to acc, unless e is zero.
#[tactic(auto, unfolding(complex::specs::Loops::each, crate::specs::Products::cell_right, crate::specs::Products::term_right))]
fn right_cell(
    site: Site,
    a: usize,
    a1: usize,
    b: usize,
    b1: usize,
    e: Complex,
    acc: Complex,
) -> Complex
    requires { (a < site.left) × (a1 < site.left) × (b < site.right) × (b1 < site.right) }
    ensures { result ≡ cell_right site.entry.right site.entry.numbers.now a a1 b b1 e acc }
{
    if e.is_zero() {
        acc
    } else {
        let z = acc + site.amplitude(a, 0, b) * site.amplitude(a1, 0, b1).conj() * e;
        z + site.amplitude(a, 1, b) * site.amplitude(a1, 1, b1).conj() * e
    }
}

// The sum over four indices, for few bonds.
fn right_few(env: &[f64], site: Site, a: usize, a1: usize) -> Complex
    requires { (a < site.left) × (a1 < site.left) × (site.right * site.right ≤ count env.now) }
    ensures { result ≡ few_right site.entry.right site.entry.numbers.now env.now a a1 }
{
    let br = site.right;
    let n = br * br;
    let mut acc = Complex::ZERO;
    for k in 0..n {
        acc = right_cell(site, a, a1, k / br, k % br, complex_at(env, k), acc);
    }
    acc
}

// Σ over b of the site's number (r, b) times env(b, b1), r = (a, i).
fn right_inner(env: &[f64], site: Site, r: usize, b1: usize) -> Complex
    requires { (r < 2 * site.left) × (b1 < site.right) × (site.right * site.right ≤ count env.now) }
    ensures { result ≡ inner_right site.entry.right site.entry.numbers.now env.now r b1 }
{
    let br = site.right;
    let mut acc = Complex::ZERO;
    for b in 0..br {
        let x = complex_at(site.numbers, r * br + b);
        acc += x * complex_at(env, b * br + b1);
    }
    acc
}

// Σ over c = (i, b1) of the inner sum (a, c) times the conjugate of the site's number (a1, c).
fn right_many(front: &[f64], site: Site, mid: usize, a: usize, a1: usize) -> Complex
    requires { (a < site.left) × (a1 < site.left) × (mid + 2 * site.left * site.right ≤ count front.now) }
    ensures { result ≡ many_right site.entry.right mid site.entry.numbers.now front.now a a1 }
{
    let wide = 2 * site.right;
    let mut acc = Complex::ZERO;
    for c in 0..wide {
        let x = complex_at(front, mid + (a * wide + c));
        acc += x * complex_at(site.numbers, a1 * wide + c).conj();
    }
    acc
}

// The entry (a, a1) of the new environment: the sum over four indices for few bonds, else from the inner sums.
fn right_entry(front: &[f64], site: Site, mid: usize, a: usize, a1: usize) -> Complex
    requires { (a < site.left) × (a1 < site.left) × (site.right * site.right ≤ mid) × (mid + 2 * site.left * site.right ≤ count front.now) }
    ensures { result ≡ entry_right site.entry.left site.entry.right mid site.entry.numbers.now front.now a a1 }
{
    if site.left * site.right <= 4 {
        right_few(front, site, a, a1)
    } else {
        right_many(front, site, mid, a, a1)
    }
}

// The environment of dimension site.right at the front of the work slice becomes the one across the site, of dimension site.left.
// It takes (site.left + site.right)² complex numbers.
pub fn right_across(site: Site, work: &mut [f64])
    requires { site.right * site.right + 2 * site.left * site.right + site.left * site.left ≤ count work.old }
    ensures { take (2 * (site.entry.left * site.entry.left)) work.new ≡ (right_across site.entry.left site.entry.right site.entry.numbers.now (record { dim = site.entry.right; entries = take (2 * (site.entry.right * site.entry.right)) work.old })).entries }
{
    let bl = site.left;
    let br = site.right;
    let mid = br * br;
    let to = mid + 2 * bl * br;
    if bl * br > 4 {
        fill_area(
            work,
            mid,
            2 * bl,
            br,
            |env, r, b1| right_inner(env, site, r, b1),
        );
    }
    fill_area(
        work,
        to,
        bl,
        bl,
        |front, a, a1| right_entry(front, site, mid, a, a1),
    );
    copy_down(work, to, bl * bl);
}
