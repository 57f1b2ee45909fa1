// One-sided Jacobi rotations, in place. The slice holds, in numbers, a matrix of `high` rows and `wide` columns, by columns,
// from 0 on, and the product of the rotations, `wide` by `wide`, by columns, from wide * high on.
#![tactic(auto, using(complex::specs::Loops::each_none, complex::specs::Loops::each_more, complex::specs::Loops::between_none, complex::specs::Loops::between_more), unfolding(model::specs::Jacobi::skipped, model::specs::Jacobi::tangent, model::specs::Jacobi::rotation, model::specs::Jacobi::pair_step, model::specs::Jacobi::row_of_pairs, model::specs::Jacobi::sweep))]

ghost use Rattle.std.specs.Prelude.{◌≡◌, ◌+◌, ◌*◌, ◌<◌, ◌≤◌, Bool, ◌||◌};
ghost use Rattle.complex.specs.Numbers.{count};
ghost use Rattle.model.specs.Jacobi as jacobi;
ghost use Rattle.jacobi.specs.Factors.{applied, Acts, turned_p, turned_q, Turns, turned_pair};

use complex::{Complex, complex_at, set_complex};
use model::{Gram, Rotation};
use root::{norm, root};

const JACOBI_REL_TOL: f64 = 1e-15;

const MAX_SVD_SWEEPS: usize = 100;

// Columns p and q: the sums of their squared moduli, and of p.conj() times q.
fn gram(w: &[f64], high: usize, p: usize, q: usize) -> Gram
    requires { (p * high + high ≤ count w.now) × (q * high + high ≤ count w.now) }
    ensures { result ≡ jacobi.gram w.now high p q }
{
    let mut pp = 0.0;
    let mut qq = 0.0;
    let mut pq = Complex::ZERO;
    for r in 0..high {
        let x = complex_at(w, p * high + r);
        let y = complex_at(w, q * high + r);
        pp += x.norm_sqr();
        qq += y.norm_sqr();
        pq += x.conj() * y;
    }
    Gram { pp, qq, pq }
}

// Whether the pair is orthogonal enough to be left as it is.
fn skipped(g: Gram) -> bool
    ensures { result ≡ jacobi.skipped g }
{
    g.pq.norm_sqr() <= JACOBI_REL_TOL * JACOBI_REL_TOL * g.pp * g.qq
}

// The tangent of the rotation's angle, of smaller magnitude. No branch goes around the division, since nothing foretells
// the sign of tau.
fn tangent(tau: f64) -> f64
    ensures { result ≡ jacobi.tangent tau }
{
    let far = root(1.0 + tau * tau);
    let sign = if tau >= 0.0 { -1.0 } else { 1.0 };
    let size = if tau >= 0.0 { tau } else { -tau };
    sign / (size + far)
}

// The rotation that makes the pair orthogonal.
fn rotation(g: Gram) -> Rotation
    ensures { result ≡ jacobi.rotation g }
{
    let size = norm(g.pq);
    let t = tangent((g.qq - g.pp) / (2.0 * size));
    let c = 1.0 / root(1.0 + t * t);
    let phase_conj = g.pq.unscale(size).conj();
    Rotation {
        c,
        s: t * c,
        phase_conj,
    }
}

// A complex factor, with its negated imaginary part beside it, so that both parts of a product are sums.
#[derive(Clone, Copy)]
struct Factor {
    re: f64,
    im: f64,
    minus_im: f64,
}

impl Factor {
    // The factor a. Where its real part is the NaN, so is every part of every product, and each part may be it. But for this
    // case the compiler would see the negation and undo it.
    #[tactic(auto, using(crate::proofs::Signs::negated_acts, crate::proofs::Signs::nan_acts))]
    fn of(a: Complex) -> Factor
        ensures { Acts result a }
    {
        if a.re.is_nan() {
            return Factor {
                re: a.re,
                im: a.re,
                minus_im: a.re,
            };
        }
        Factor {
            re: a.re,
            im: a.im,
            minus_im: -a.im,
        }
    }

    // The factor times z.
    fn times(self, z: Complex) -> Complex
        ensures { result ≡ applied self z }
    {
        Complex {
            re: self.re * z.re + self.minus_im * z.im,
            im: self.re * z.im + self.im * z.re,
        }
    }
}

// A rotation's factors: of x and of y in what x becomes, and in what y becomes.
#[derive(Clone, Copy)]
struct Turn {
    px: Factor,
    py: Factor,
    qx: Factor,
    qy: Factor,
}

impl Turn {
    #[tactic(auto, unfolding(model::specs::Jacobi::rotated_p, model::specs::Jacobi::rotated_q))]
    fn of(t: Rotation) -> Turn
        ensures { Turns result t }
    {
        let c_cx = Complex::from(t.c);
        let s_cx = Complex::from(t.s);
        Turn {
            px: Factor::of(c_cx),
            py: Factor::of(s_cx * t.phase_conj),
            qx: Factor::of(-s_cx),
            qy: Factor::of(c_cx * t.phase_conj),
        }
    }

    // What a number x of column p becomes, with y in its row of column q.
    fn p(self, x: Complex, y: Complex) -> Complex
        ensures { result ≡ turned_p self x y }
    {
        self.px.times(x) + self.py.times(y)
    }

    // What a number y of column q becomes, with x in its row of column p.
    fn q(self, x: Complex, y: Complex) -> Complex
        ensures { result ≡ turned_q self x y }
    {
        self.qx.times(x) + self.qy.times(y)
    }
}

// Numbers i and j, rotated.
#[tactic(auto, unfolding(crate::specs::Factors::turned_pair))]
fn rotate_pair(w: &mut [f64], i: usize, j: usize, t: Turn)
    requires { (i < count w.old) × (j < count w.old) }
    ensures { w.new ≡ turned_pair t i j w.old }
{
    let x = complex_at(w, i);
    let y = complex_at(w, j);
    set_complex(w, i, t.p(x, y));
    set_complex(w, j, t.q(x, y));
}

// Columns p and q, rotated, of the matrix of m rows that stands from base on.
#[tactic(auto, using(complex::specs::Loops::each_none, complex::specs::Loops::each_more, crate::proofs::Turns::turned_rotated), unfolding(model::specs::Jacobi::rotated))]
fn rotate(w: &mut [f64], base: usize, m: usize, p: usize, q: usize, t: Rotation)
    requires { (p < q) × (base + (q * m + m) ≤ count w.old) }
    ensures { w.new ≡ jacobi.rotated t base m p q w.old }
{
    let turn = Turn::of(t);
    for r in 0..m {
        rotate_pair(w, base + (p * m + r), base + (q * m + r), turn);
    }
}

// The sizes of a matrix of `high` rows and `wide` columns with its rotations, and how many numbers the two have. The slice is
// lent to each method: held in the struct, it would ask each contract to say that slice and sizes are the same after the call.
#[derive(Clone, Copy)]
pub struct Sizes {
    pub high: usize,
    pub wide: usize,
    pub len: usize,
    pub ghost whole: { len ≡ wide * high + wide * wide },
}

impl Sizes {
    // Columns p and q of both matrices, rotated unless they are skipped. Answers whether they were rotated.
    fn pair_step(self, w: &mut [f64], p: usize, q: usize) -> bool
        requires { (p < q) × (q < self.wide) × (self.len ≤ count w.old) }
        ensures { (before : Bool) → jacobi.swept (before || result) w.new ≡ jacobi.pair_step self.high self.wide p q (jacobi.swept before w.old) }
    {
        let g = gram(w, self.high, p, q);
        if skipped(g) {
            return false;
        }
        let t = rotation(g);
        rotate(w, 0, self.high, p, q, t);
        rotate(w, self.wide * self.high, self.wide, p, q, t);
        true
    }

    // Column p with each column after it. Answers whether a pair was rotated.
    fn row_of_pairs(self, w: &mut [f64], p: usize) -> bool
        requires { (p < self.wide) × (self.len ≤ count w.old) }
        ensures { (before : Bool) → jacobi.swept (before || result) w.new ≡ jacobi.row_of_pairs self.high self.wide p (jacobi.swept before w.old) }
    {
        let mut rotated = false;
        for q in p + 1..self.wide {
            rotated |= self.pair_step(w, p, q);
        }
        rotated
    }

    // Every pair of columns once. Answers whether one was rotated.
    fn sweep(self, w: &mut [f64]) -> bool
        requires { self.len ≤ count w.old }
        ensures { jacobi.swept result w.new ≡ jacobi.sweep self.high self.wide w.old }
    {
        let mut rotated = false;
        for p in 0..self.wide {
            rotated |= self.row_of_pairs(w, p);
        }
        rotated
    }

    // At most 100 sweeps; one without a rotation is the last.
    #[tactic(auto, using(crate::proofs::Turns::sweeps_done, crate::proofs::Turns::sweeps_turn))]
    pub fn sweeps(self, w: &mut [f64])
        requires { self.len ≤ count w.old }
        ensures { w.new ≡ jacobi.sweeps self.high self.wide 100 w.old }
    {
        for k in 0..MAX_SVD_SWEEPS {
            if !self.sweep(w) {
                return;
            }
        }
    }
}
