// What the kernels share. Runs of complex numbers in a slice of f64: a run's norm, runs that are scaled or made zero in
// place, and the rest of a slot cleared. A loop counts numbers, since number k stands at two
// places of the slice, and since two runs of one slice may overlap.
#![tactic(auto, using(complex::specs::Loops::each_none, complex::specs::Loops::each_more), unfolding(model::specs::Columns::l2_norm, model::specs::Columns::scaled_to, model::specs::Columns::zeroed))]

ghost use Rattle.std.specs.Prelude.{◌≡◌, ◌++◌, ◌+◌, ◌-◌, ◌*◌, ◌<◌, ◌≤◌, length, replicate, take};
ghost use Rattle.complex.specs.Complex.{zero_f};
ghost use Rattle.complex.specs.Numbers.{count};
ghost use Rattle.model.specs.Columns.{squares, l2_norm, scaled_to, zeroed};

use complex::{Complex, complex_at, set_complex};
use root::root;

// ---- runs

// The squared moduli of the n numbers from base on, summed.
pub fn sum_squares(w: &[f64], base: usize, n: usize) -> f64
    requires { base + n ≤ count w.now }
    ensures { result ≡ squares w.now base n }
{
    let mut sum = 0.0;
    for k in 0..n {
        sum += complex_at(w, base + k).norm_sqr();
    }
    sum
}

// The 2-norm of the n numbers from base on.
pub fn l2_norm(w: &[f64], base: usize, n: usize) -> f64
    requires { base + n ≤ count w.now }
    ensures { result ≡ l2_norm w.now base n }
{
    root(sum_squares(w, base, n))
}

// The n numbers from `to` on become those from `from` on, scaled.
pub fn scale_to(w: &mut [f64], from: usize, to: usize, n: usize, by: f64)
    requires { (from + n ≤ count w.old) × (to + n ≤ count w.old) }
    ensures { w.new ≡ scaled_to from to n by w.old }
{
    for k in 0..n {
        set_complex(w, to + k, complex_at(w, from + k).scale(by));
    }
}

// The n numbers from base on become +0.
pub fn zero_run(w: &mut [f64], base: usize, n: usize)
    requires { base + n ≤ count w.old }
    ensures { w.new ≡ zeroed base n w.old }
{
    for k in 0..n {
        set_complex(w, base + k, Complex::ZERO);
    }
}

// ---- slots

// Every f64 from `from` on becomes +0.
pub fn clear_from(w: &mut [f64], from: usize)
    requires { from ≤ length w.old }
    ensures { w.new ≡ take from w.old ++ replicate (length w.old - from) zero_f }
{
    w[from..].fill(0.0);
}
