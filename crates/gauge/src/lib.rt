// One step of the centre beside the factoring: a site as the matrix that is factored, and r multiplied into the neighbour.
// The factored list w holds q by columns and, from number bond * (2 * bl) on (2 * br to the left), r by rows of `bond` numbers.
// Right and left are two functions each: mirror images, whose sums and orders differ in more than a constant.
#![tactic(auto)]

ghost use Rattle.std.specs.Prelude.{◌≡◌, ◌+◌, ◌*◌, ◌<◌, ◌≤◌, length, take};
ghost use Rattle.complex.specs.Complex.{mul_c, conj_c, zero_c};
ghost use Rattle.complex.specs.Loops.{sum_c};
ghost use Rattle.complex.specs.Numbers.{count, at};
ghost use Rattle.model.specs.Slots.{filled};
ghost use Rattle.model.specs.Qr.{kept};
ghost use Rattle.model.specs.Moves.{right_matrix, left_matrix, absorbed_right, absorbed_left};

use complex::{Complex, complex_at};
use fills::fill_rows;
use model::Bonds;

// ---- a site as the matrix that is factored

// The site as a matrix of 2 * bl rows and `bond` columns, by columns.
#[tactic(auto, using(crate::proofs::Rows::rows_served))]
pub fn right_matrix(site: &[f64], out: &mut [f64], bl: usize, bond: usize)
    requires { (bl ≤ 128) × (bond ≤ 128) × (2 * bl * bond ≤ count site.now) × (length out.old ≡ 2 * (bond * (2 * bl))) }
    ensures { out.new ≡ right_matrix bl bond site.now }
{
    fill_rows(out, bond, 2 * bl, |g, r| complex_at(site, r * bond + g));
}

// The conjugate transpose of the site of `bond` rows and 2 * br columns, by columns.
pub fn left_matrix(site: &[f64], out: &mut [f64], bond: usize, br: usize)
    requires { (bond ≤ 128) × (br ≤ 128) × (2 * bond * br ≤ count site.now) × (length out.old ≡ 2 * (bond * (2 * br))) }
    ensures { out.new ≡ left_matrix bond br site.now }
{
    let wide = 2 * br;
    fill_rows(
        out,
        bond,
        wide,
        |g, c| complex_at(site, g * wide + c).conj(),
    );
}

// As many numbers of `from` as `to` holds, from the front. Each by itself: the library's copy of a slice would have the archives
// for C need `memmove` from outside.
#[tactic(auto, using(complex::specs::Loops::take_set))]
pub fn copy_numbers(from: &[f64], to: &mut [f64])
    requires { length to.old ≤ length from.now }
    ensures { to.new ≡ take (length to.old) from.now }
{
    for (i, x) in to.iter_mut().enumerate() {
        *x = from[i];
    }
}

// ---- to the right

// Σ over d < n of w's number from + (row + d) times next's number d * step + c.
#[tactic(auto, using(complex::specs::Loops::each_none, complex::specs::Loops::each_more))]
fn right_sum(
    w: &[f64],
    from: usize,
    row: usize,
    next: &[f64],
    step: usize,
    c: usize,
    n: usize,
) -> Complex
    requires { (from + (row + n) ≤ count w.now) × (c < step) × (n * step ≤ count next.now) }
    ensures { result ≡ sum_c n (λ d. mul_c (at w.now (from + (row + d))) (at next.now (d * step + c))) zero_c }
{
    let mut acc = Complex::ZERO;
    for d in 0..n {
        acc += complex_at(w, from + (row + d)) * complex_at(next, d * step + c);
    }
    acc
}

// The first chi rows of r times the right neighbour, as the numbers of its slot; the rest of the slot is +0.
pub fn absorb_right(slot: &mut [f64], w: &[f64], next: &[f64], bonds: Bonds, chi: usize)
    requires bl_bound { (bonds.left ≤ 128) × (bonds.mid ≤ 128) × (bonds.right ≤ 128) × (chi ≤ 128) }
    requires bond_bound { (bonds.mid * (2 * bonds.left) + chi * bonds.mid ≤ count w.now) × (bonds.mid * (2 * bonds.right) ≤ count next.now) × (2 * (chi * (2 * bonds.right)) ≤ length slot.old) }
    ensures { slot.new ≡ filled (length slot.old) (absorbed_right bonds.left bonds.mid bonds.right (kept chi w.now) next.now) }
{
    let from = bonds.mid * (2 * bonds.left);
    let wide = 2 * bonds.right;
    fill_rows(
        slot,
        chi,
        wide,
        |g, c| right_sum(w, from, g * bonds.mid, next, wide, c, bonds.mid),
    );
}

// ---- to the left

// Σ over d < n of prev's number line + d times the conjugate of w's number from + (row + d).
#[tactic(auto, using(complex::specs::Loops::each_none, complex::specs::Loops::each_more))]
fn left_sum(prev: &[f64], line: usize, w: &[f64], from: usize, row: usize, n: usize) -> Complex
    requires { (line + n ≤ count prev.now) × (from + (row + n) ≤ count w.now) }
    ensures { result ≡ sum_c n (λ d. mul_c (at prev.now (line + d)) (conj_c (at w.now (from + (row + d))))) zero_c }
{
    let mut acc = Complex::ZERO;
    for d in 0..n {
        acc += complex_at(prev, line + d) * complex_at(w, from + (row + d)).conj();
    }
    acc
}

// The left neighbour times the conjugate transpose of the first chi rows of r, as the numbers of its slot; the rest of the slot is +0.
pub fn absorb_left(slot: &mut [f64], w: &[f64], prev: &[f64], bonds: Bonds, chi: usize)
    requires bl_bound { (bonds.left ≤ 128) × (bonds.mid ≤ 128) × (bonds.right ≤ 128) × (chi ≤ 128) }
    requires bond_bound { (bonds.mid * (2 * bonds.right) + chi * bonds.mid ≤ count w.now) × (2 * bonds.left * bonds.mid ≤ count prev.now) × (2 * (2 * bonds.left * chi) ≤ length slot.old) }
    ensures { slot.new ≡ filled (length slot.old) (absorbed_left bonds.left bonds.mid bonds.right (kept chi w.now) prev.now) }
{
    let from = bonds.mid * (2 * bonds.right);
    fill_rows(
        slot,
        2 * bonds.left,
        chi,
        |r, g| left_sum(prev, r * bonds.mid, w, from, g * bonds.mid, bonds.mid),
    );
}
