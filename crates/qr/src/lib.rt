// The thin QR factoring of a gauge move, by modified Gram-Schmidt with reorthogonalisation, in place. The slice holds, in
// numbers, a matrix of `high` rows and `wide` columns, by columns, from 0 on, whose first columns become q; and r, by rows,
// from wide * high on.
#![tactic(auto, using(complex::specs::Loops::each_none, complex::specs::Loops::each_more, complex::specs::Loops::between_none, complex::specs::Loops::between_more), unfolding(model::specs::Qr::term, model::specs::Qr::taken_away, model::specs::Qr::projected_on, model::specs::Qr::pass_of, model::specs::Qr::kept_of, model::specs::Qr::raised))]

ghost use Rattle.std.specs.Prelude.{◌≡◌, ◌+◌, ◌*◌, ◌^◌, ◌<◌, ◌≤◌, [], ◌∷◌, min, max, length, take};
ghost use Rattle.complex.specs.Loops.{between};
ghost use Rattle.complex.specs.Numbers.{count};
ghost use Rattle.model.specs.Qr as qr;

use columns::{clear_from, l2_norm, scale_to, zero_run};
use complex::{Complex, complex_at, set_complex};

const QR_MAX_PASSES: usize = 3;

const QR_PASS_RETAIN: f64 = 0.5;

const QR_RANK_REL_TOL: f64 = 1e-14;

// Two runs of n numbers in a slice, from number a and from number b on.
#[derive(Clone, Copy)]
struct Runs<'a> {
    w: &'a [f64],
    a: usize,
    b: usize,
    n: usize,
    ghost within: { (a + n ≤ count w.now) × (b + n ≤ count w.now) },
}

impl<'a> Runs<'a> {
    // The first run's number k, conjugate, times the second's, added to acc.
    fn add_term(&self, k: usize, acc: Complex) -> Complex
        requires { k < self.now.n }
        ensures { result ≡ qr.term self.now.w.now (self.now.a + k) (self.now.b + k) acc }
    {
        acc + complex_at(self.w, self.a + k).conj() * complex_at(self.w, self.b + k)
    }

    // The terms of m whole fours, in four running sums by place.
    fn sum_fours(&self, m: usize) -> [Complex; 4]
        requires { 4 * m ≤ self.now.n }
        ensures { let sum = qr.run_of self.now.w.now self.now.a self.now.b in result ≡ sum (λ t. 4 * t) m ∷ sum (λ t. 4 * t + 1) m ∷ sum (λ t. 4 * t + 2) m ∷ sum (λ t. 4 * t + 3) m ∷ [] }
    {
        let mut s0 = Complex::ZERO;
        let mut s1 = Complex::ZERO;
        let mut s2 = Complex::ZERO;
        let mut s3 = Complex::ZERO;
        for t in 0..m {
            s0 = self.add_term(4 * t, s0);
            s1 = self.add_term(4 * t + 1, s1);
            s2 = self.add_term(4 * t + 2, s2);
            s3 = self.add_term(4 * t + 3, s3);
        }
        [s0, s1, s2, s3]
    }

    // The terms from place `from` on, added to start.
    fn sum_rest(&self, from: usize, start: Complex) -> Complex
        requires { from ≤ self.now.n }
        ensures { result ≡ between from self.now.n (λ k. qr.term self.now.w.now (self.now.a + k) (self.now.b + k)) start }
    {
        let mut acc = start;
        for k in from..self.n {
            acc = self.add_term(k, acc);
        }
        acc
    }

    // The sum of all terms.
    fn dot(&self) -> Complex
        ensures { result ≡ qr.dot self.now.w.now self.now.a self.now.b self.now.n }
    {
        let m = self.n / 4;
        let [s0, s1, s2, s3] = self.sum_fours(m);
        let first = self.sum_rest(4 * m, s0);
        first + s1 + (s2 + s3)
    }
}

// d times the n numbers from `from` on, taken from those from `to` on.
fn take_away(w: &mut [f64], from: usize, to: usize, n: usize, d: Complex)
    requires { (from + n ≤ count w.old) × (to + n ≤ count w.old) }
    ensures { w.new ≡ qr.taken_away from to n d w.old }
{
    for k in 0..n {
        set_complex(
            w,
            to + k,
            complex_at(w, to + k) - d * complex_at(w, from + k),
        );
    }
}

// The sizes of a matrix of `high` rows and `wide` columns and of r behind it, which has `cap` rows, as q has columns at most.
// The slice is lent to each method: held in the struct, it would ask each contract to say that slice and sizes are the same
// after the call.
#[derive(Clone, Copy)]
struct ThinQr {
    high: usize,
    wide: usize,
    cap: usize,
    ghost some: { (0 < high) × (0 < wide) },
    ghost few: { cap ≡ min high wide },
    ghost fits: { wide * high + cap * wide < 2 ^ 64 },
}

impl ThinQr {
    ghost use Rattle.qr.specs.Thin.{numbers};

    // Where r's entry (i, j) stands.
    fn entry(self, i: usize, j: usize) -> usize
        requires { (i < self.cap) × (j < self.wide) }
        ensures value { result ≡ qr.entry_at self.high self.wide i j }
        ensures upper_bound { result < numbers self }
    {
        self.wide * self.high + (i * self.wide + j)
    }

    // Column j's part along column i of q is taken from it, and added to r's entry (i, j).
    fn project_on(self, w: &mut [f64], j: usize, i: usize)
        requires { (i < self.cap) × (j < self.wide) × (numbers self ≤ count w.old) }
        ensures { w.new ≡ qr.projected_on self.high self.wide j i w.old }
    {
        let columns = Runs {
            w,
            a: i * self.high,
            b: j * self.high,
            n: self.high,
        };
        let d = columns.dot();
        take_away(w, i * self.high, j * self.high, self.high, d);
        let entry = self.entry(i, j);
        set_complex(w, entry, complex_at(w, entry) + d);
    }

    // One pass along each of the columns kept; the residual is the norm of what is left.
    fn one_pass(self, w: &mut [f64], rank: usize, j: usize) -> f64
        requires { (rank ≤ self.cap) × (j < self.wide) × (numbers self ≤ count w.old) }
        ensures { qr.passed result w.new ≡ qr.pass_of self.high self.wide rank j w.old }
    {
        for i in 0..rank {
            self.project_on(w, j, i);
        }
        l2_norm(w, j * self.high, self.high)
    }

    // Column j is kept as column `rank` of q if there is room and enough of it is left. Answers how many are kept.
    fn keep(self, w: &mut [f64], j: usize, norm: f64, rank: usize, residual: f64) -> usize
        requires { (rank ≤ self.cap) × (j < self.wide) × (numbers self ≤ count w.old) }
        ensures w_after { qr.kept result w.new ≡ qr.kept_of self.high self.wide self.cap j norm rank (qr.passed residual w.old) }
        ensures upper_bound { result ≤ self.cap }
    {
        if rank >= self.cap {
            return rank;
        }
        if residual > QR_RANK_REL_TOL * norm {
            let high = self.high;
            scale_to(w, j * high, rank * high, high, 1.0 / residual);
            set_complex(w, self.entry(rank, j), Complex::from(residual));
            return rank + 1;
        }
        rank
    }

    // Where no column is kept, q becomes (1, 0, ..), and r stays 0.
    fn raise(self, w: &mut [f64], rank: usize) -> usize
        requires { numbers self ≤ count w.old }
        ensures w_after { qr.kept result w.new ≡ qr.raised self.high (qr.kept rank w.old) }
        ensures value { result ≡ max rank 1 }
    {
        if rank == 0 {
            zero_run(w, 0, self.high);
            set_complex(w, 0, Complex::from(1.0));
            return 1;
        }
        rank
    }
}

// The factoring of the matrix that w begins with; the rest of w is room for r. Answers how many columns q has. A column's
// passes are a loop that breaks with the residual, which is a rule of the project (tests/checks.py).
#[tactic(auto, using(complex::specs::Loops::each_none, complex::specs::Loops::each_more, crate::proofs::Passes::passes_done, crate::proofs::Passes::passes_turn), unfolding(model::specs::Qr::column_of, model::specs::Qr::qr))]
pub fn factorize_gram_schmidt(w: &mut [f64], high: usize, wide: usize) -> usize
    requires { (0 < high) × (0 < wide) × (length w.old ≡ 2 * (wide * high + min high wide * wide)) }
    ensures w_after { qr.kept result w.new ≡ qr.qr high wide (take (2 * (wide * high)) w.old) }
    ensures result_nonzero { (0 < result) × (result ≤ min high wide) }
{
    let cap = high.min(wide);
    let thin = ThinQr { high, wide, cap };
    clear_from(w, 2 * (wide * high));
    let mut rank = 0usize;
    for j in 0..wide {
        let norm = l2_norm(w, j * high, high);
        let mut previous = norm;
        let mut pass = 0usize;
        let residual = loop {
            let r = thin.one_pass(w, rank, j);
            pass += 1;
            if r > QR_PASS_RETAIN * previous || pass == QR_MAX_PASSES {
                break r;
            }
            previous = r;
        };
        rank = thin.keep(w, j, norm, rank, residual);
    }
    thin.raise(w, rank)
}
