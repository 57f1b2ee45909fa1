// A complex number is a pair of f64, real part first, by value; each operation rounds once.
// Its operations, and complex number k of a slice of f64.
#![tactic(auto)]

ghost use Rattle.std.specs.Prelude.{◌≡◌, ◌<◌};
ghost use Rattle.complex.specs.Complex.{add_c, sub_c, neg_c, conj_c, mul_c, norm_sqr, scale_c, unscale_c, is_zero, real};
ghost use Rattle.complex.specs.Numbers.{count, at, store};

use std::ops::{Add, AddAssign, Mul, Neg, Sub};

#[derive(Clone, Copy)]
pub struct Complex {
    pub re: f64,
    pub im: f64,
}

impl From<f64> for Complex {
    ghost from_gives = { λ x z. z ≡ real x };

    fn from(x: f64) -> Complex
        ensures { result ≡ real x }
    {
        Complex { re: x, im: 0.0 }
    }
}

impl Add for Complex {
    type Output = Complex;

    ghost add_gives = { λ a b z. z ≡ add_c a b };

    #[tactic(auto, unfolding(crate::specs::Complex::add_c))]
    fn add(self, b: Complex) -> Complex {
        Complex {
            re: self.re + b.re,
            im: self.im + b.im,
        }
    }
}

impl AddAssign for Complex {
    ghost add_assign_gives = { λ a b z. z ≡ add_c a b };

    #[tactic(auto, unfolding(crate::specs::Complex::add_c))]
    fn add_assign(&mut self, b: Complex) {
        self.re += b.re;
        self.im += b.im;
    }
}

impl Sub for Complex {
    type Output = Complex;

    ghost sub_gives = { λ a b z. z ≡ sub_c a b };

    #[tactic(auto, unfolding(crate::specs::Complex::sub_c))]
    fn sub(self, b: Complex) -> Complex {
        Complex {
            re: self.re - b.re,
            im: self.im - b.im,
        }
    }
}

impl Neg for Complex {
    type Output = Complex;

    ghost neg_gives = { λ a z. z ≡ neg_c a };

    #[tactic(auto, unfolding(crate::specs::Complex::neg_c))]
    fn neg(self) -> Complex {
        Complex {
            re: -self.re,
            im: -self.im,
        }
    }
}

impl Mul for Complex {
    type Output = Complex;

    ghost mul_gives = { λ a b z. z ≡ mul_c a b };

    #[tactic(auto, unfolding(crate::specs::Complex::mul_c))]
    fn mul(self, b: Complex) -> Complex {
        Complex {
            re: self.re * b.re - self.im * b.im,
            im: self.re * b.im + self.im * b.re,
        }
    }
}

impl Complex {
    pub const ZERO: Complex = Complex { re: 0.0, im: 0.0 };

    #[tactic(auto, unfolding(crate::specs::Complex::conj_c))]
    pub fn conj(self) -> Complex
        ensures { result ≡ conj_c self }
    {
        let Complex { re, im } = self;
        Complex { re, im: -im }
    }

    #[tactic(auto, unfolding(crate::specs::Complex::norm_sqr))]
    pub fn norm_sqr(self) -> f64
        ensures { result ≡ norm_sqr self }
    {
        self.re * self.re + self.im * self.im
    }

    // Times the real number t.
    #[tactic(auto, unfolding(crate::specs::Complex::scale_c))]
    pub fn scale(self, t: f64) -> Complex
        ensures { result ≡ scale_c self t }
    {
        Complex {
            re: self.re * t,
            im: self.im * t,
        }
    }

    // Divided by the real number t.
    #[tactic(auto, unfolding(crate::specs::Complex::unscale_c))]
    pub fn unscale(self, t: f64) -> Complex
        ensures { result ≡ unscale_c self t }
    {
        Complex {
            re: self.re / t,
            im: self.im / t,
        }
    }

    // Whether both parts are zeros, of either sign.
    #[tactic(auto, unfolding(crate::specs::Complex::is_zero))]
    pub fn is_zero(self) -> bool
        ensures { result ≡ is_zero self }
    {
        (self.re == 0.0) & (self.im == 0.0)
    }
}

// Complex number k of a slice.
#[tactic(auto, unfolding(crate::specs::Numbers::at))]
pub fn complex_at(s: &[f64], k: usize) -> Complex
    requires { k < count s.now }
    ensures { result ≡ at s.now k }
{
    Complex {
        re: s[2 * k],
        im: s[2 * k + 1],
    }
}

// z in the place of complex number k of a slice.
#[tactic(auto, unfolding(crate::specs::Numbers::store))]
pub fn set_complex(s: &mut [f64], k: usize, z: Complex)
    requires { k < count s.old }
    ensures { s.new ≡ store s.old k z }
{
    s[2 * k] = z.re;
    s[2 * k + 1] = z.im;
}
