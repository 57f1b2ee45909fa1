// Whole numbers of two words, and what the roots do with them.

ghost use Rattle.std.specs.Prelude.{◌≡◌, ◌+◌, ◌*◌, ◌/◌, ◌%◌, ◌^◌, ◌<◌, ◌≤◌, false, ◌||◌, nat_lt};

// A whole number, hi * 2^54 + lo, and whether anything was cut off below it.
#[derive(Clone, Copy)]
pub(crate) struct Wide {
    pub(crate) hi: u64,
    pub(crate) lo: u64,
    pub(crate) cut: bool,
    pub(crate) ghost low: { lo < 2 ^ 54 },
}

impl Wide {
    ghost use Rattle.root.specs.Wide.{whole, Holds};

    // Whether it is less than n.
    pub(crate) fn is_less(self, n: Wide) -> bool
        ensures { result ≡ nat_lt (whole self) (whole n) }
    {
        (self.hi, self.lo) < (n.hi, n.lo)
    }

    // The square of m, by halves of 27 binary digits.
    #[tactic(auto, using(crate::proofs::Laws::Wide::square_whole))]
    pub(crate) fn square(m: u64) -> Wide
        requires { m < 2 ^ 54 }
        ensures { Holds result (m * m) false }
    {
        let a = m >> 27;
        let b = m % 0x800_0000;
        let c = a * b;
        let lo = b * b + c % 0x400_0000 * 0x1000_0000;
        let hi = a * a + (c >> 26) + (lo >> 54);
        Wide {
            hi,
            lo: lo % 0x40_0000_0000_0000,
            cut: false,
        }
    }

    // The whole part of it / 4^k.
    #[tactic(auto, using(crate::proofs::Laws::Wide::quotient_low, crate::proofs::Laws::Wide::quotient_whole, crate::proofs::Laws::Wide::quotient_left))]
    pub(crate) fn quotient(self, k: u64) -> Wide
        requires { k ≤ 26 }
        ensures { Holds result (whole self / 4 ^ k) (self.cut || nat_lt 0 (whole self % 4 ^ k)) }
    {
        let t: u64 = 1 << (2 * k);
        let u: u64 = 1 << (54 - 2 * k);
        let hi = self.hi / t;
        let lo = self.hi % t * u + self.lo / t;
        let cut = self.cut || self.lo % t > 0;
        Wide { hi, lo, cut }
    }

    // It + n, where nothing was cut off below it.
    pub(crate) fn sum(self, n: Wide) -> Wide
        requires hi_bound { self.hi < 2 ^ 54 }
        requires hi_bound_2 { n.hi < 2 ^ 54 }
        ensures { Holds result (whole self + whole n) n.cut }
    {
        let lo = self.lo + n.lo;
        Wide {
            hi: self.hi + n.hi + (lo >> 54),
            lo: lo % 0x40_0000_0000_0000,
            cut: n.cut,
        }
    }
}
