// The singular value decomposition of a matrix of `high` rows and `wide` columns, in place. The slice holds, in numbers,
// the matrix and the rotations as in jacobi, and behind them the values, each with the imaginary part +0.
#![tactic(auto, using(complex::specs::Loops::each_none, complex::specs::Loops::each_more, complex::specs::Loops::between_none, complex::specs::Loops::between_more), unfolding(model::specs::Svd::identity_at, model::specs::Svd::normalised, model::specs::Svd::factored, model::specs::Svd::any_nan, model::specs::Svd::order_of))]

ghost use Rattle.std.specs.Prelude.{◌≡◌, ◌+◌, ◌*◌, ◌<◌, ◌≤◌, length, get_or, take, is_err, MatchResult};
ghost use Rattle.complex.specs.Loops.{each, between, tabulate};
ghost use Rattle.complex.specs.Numbers.{count, at};
ghost use Rattle.model.specs.Svd.{identity_at, values_at, normalised, factored, any_nan, tallied, place, order_of};
ghost use Rattle.svd.specs.Order.{Below};

use columns::{clear_from, l2_norm, scale_to, zero_run};
use complex::{Complex, complex_at, set_complex};
use jacobi::Sizes;

// 1 on the diagonal of the n by n matrix from base on.
fn set_diagonal(w: &mut [f64], base: usize, n: usize)
    requires { base + n * n ≤ count w.old }
    ensures { w.new ≡ identity_at base n w.old }
{
    for i in 0..n {
        set_complex(w, base + (i * n + i), Complex::from(1.0));
    }
}

// Column j's norm becomes its value; the column is scaled to length 1, or made zero where the norm is not above the clamp.
fn normalise(w: &mut [f64], s: Sizes, clamp: f64, j: usize)
    requires { (j < s.wide) × (s.len + s.wide ≤ count w.old) }
    ensures { w.new ≡ normalised s.high s.wide clamp j w.old }
{
    let norm = l2_norm(w, j * s.high, s.high);
    set_complex(w, s.len + j, Complex::from(norm));
    if norm > clamp {
        scale_to(w, j * s.high, j * s.high, s.high, 1.0 / norm);
    } else {
        zero_run(w, j * s.high, s.high);
    }
}

fn normalise_columns(w: &mut [f64], s: Sizes, clamp: f64)
    requires { s.len + s.wide ≤ count w.old }
    ensures { w.new ≡ each s.wide (normalised s.high s.wide clamp) w.old }
{
    for j in 0..s.wide {
        normalise(w, s, clamp, j);
    }
}

// The n values from number `base` on, each a real part.
#[derive(Clone, Copy)]
struct Values<'a> {
    numbers: &'a [f64],
    base: usize,
    n: usize,
    ghost few: { n ≤ 256 },
    ghost within: { base + n ≤ count numbers.now },
}

impl<'a> Values<'a> {
    ghost use Rattle.svd.specs.Values.{value_of, goes_before};

    // The value of column k.
    fn value(&self, k: usize) -> f64
        requires { k < self.now.n }
        ensures { result ≡ value_of self.now k }
    {
        complex_at(self.numbers, self.base + k).re
    }

    // Whether one of them is a NaN.
    fn any_nan(&self) -> bool
        ensures { result ≡ any_nan self.now.n (value_of self.now) }
    {
        let mut bad = false;
        for k in 0..self.n {
            bad |= self.value(k).is_nan();
        }
        bad
    }

    // How many of the columns from `lo` up to `hi` come before j: those whose value is greater, and with EQUAL those whose
    // value is equal too.
    fn count_before<const EQUAL: bool>(&self, lo: usize, hi: usize, j: usize) -> usize
        requires { (lo ≤ hi) × (hi ≤ self.now.n) × (j < self.now.n) }
        ensures value { result ≡ between lo hi (λ k. tallied (goes_before EQUAL (value_of self.now j) (value_of self.now k))) 0 }
        ensures upper_bound { result + lo ≤ hi }
    {
        let own = self.value(j);
        let mut c = 0usize;
        for k in lo..hi {
            let other = self.value(k);
            let before = if EQUAL { own <= other } else { own < other };
            if before {
                c += 1;
            }
        }
        c
    }

    // The place of column j in the order of the values: the columns before it are those of lower column whose value is no
    // less, and those of higher column whose value is greater.
    #[tactic(auto, using(crate::proofs::Counted::earlier_counted), unfolding(model::specs::Svd::later))]
    fn place_of(&self, j: usize) -> usize
        requires { j < self.now.n }
        ensures value { result ≡ place self.now.n (value_of self.now) j }
        ensures upper_bound { result < self.now.n }
    {
        self.count_before::<true>(0, j, j) + self.count_before::<false>(j + 1, self.n, j)
    }

    // The columns in the order of the values: downward, equal ones by lower column first. Each is put where the count of
    // those before it says, as the order is defined: the library's stable sorts allocate, which is against a rule of the
    // project.
    fn sort_columns(&self) -> [u8; 256]
        ensures { result ≡ order_of self.now.n (value_of self.now) }
    {
        let mut order = [0u8; 256];
        for j in 0..self.n {
            order[self.place_of(j)] = j as u8;
        }
        order
    }
}

// The decomposition of the matrix that w begins with; the rest of w is room for the rotations and the values. Answers the
// order of the values: as `Ok`, or as `Err` where one of them is a NaN.
pub fn svd_jacobi(
    w: &mut [f64],
    high: usize,
    wide: usize,
    clamp: f64,
) -> Result<[u8; 256], [u8; 256]>
    requires { (wide ≤ 256) × (length w.old ≡ 2 * (wide * high + wide * wide + wide)) }
    ensures w_after { w.new ≡ factored high wide clamp (take (2 * (wide * high)) w.old) }
    ensures nan_value { is_err result ≡ any_nan wide (λ k. (at w.new (values_at high wide + k)).re) }
    ensures order_value { let o = order_of wide (λ k. (at w.new (values_at high wide + k)).re) in MatchResult result (λ order. order ≡ o) (λ order. order ≡ o) }
{
    let matrix = wide * high;
    let s = Sizes {
        high,
        wide,
        len: matrix + wide * wide,
    };
    clear_from(w, 2 * matrix);
    set_diagonal(w, matrix, wide);
    s.sweeps(w);
    normalise_columns(w, s, clamp);
    let values = Values {
        numbers: w,
        base: s.len,
        n: wide,
    };
    let order = values.sort_columns();
    if values.any_nan() {
        return Err(order);
    }
    Ok(order)
}

// The values from base on, as many as s has room for, into s in an order of their columns.
#[tactic(auto, using(complex::specs::Loops::tabulate_none, complex::specs::Loops::tabulate_more, complex::specs::Loops::take_set))]
pub fn sorted_values(w: &[f64], base: usize, order: &[u8; 256], s: &mut [f64])
    requires { (length s.old ≤ 256) × (base + length s.old ≤ count w.now) × Below (length s.old) order.now }
    ensures { s.new ≡ tabulate (length s.old) (λ g. (at w.now (base + get_or order.now g 0)).re) }
{
    for (g, x) in s.iter_mut().enumerate() {
        *x = complex_at(w, base + usize::from(order[g])).re;
    }
}
