// Whether a chain record is sound, and its parts that are asked by themselves: the settings that
// start takes, and a share, as a draw is. A test takes one list of the record and the chain's length, and not the record:
// the lists of a kind are tested by one function, the maps each way round.
#![tactic(auto)]

ghost use Rattle.std.specs.Prelude.{◌≡◌, ◌&&◌, ◌||◌, ◌+◌, ◌-◌, ◌≤◌, leb, ltb, eqb, get_or};
ghost use Rattle.complex.specs.Loops.{every};
ghost use Rattle.model.specs.Sound.{within, share01, settings_fit, entry_fits, undoes, center_fits, discarded_fits, sound};

use bytes_le::to_bits;
use model::Chain;

// Whether x is from low to high.
fn is_within(low: usize, high: usize, x: usize) -> bool
    ensures { result ≡ within low high x }
{
    (low <= x) & (x <= high)
}

// Whether x is at least 0 and below 1. No NaN is.
pub fn is_share(x: f64) -> bool
    ensures { result ≡ share01 x }
{
    (0.0 <= x) & (x < 1.0)
}

// Whether start takes the settings of a record. The exponent is read since it is then known to be a byte, and every byte
// is one that it takes.
#[tactic(auto, unfolding(model::specs::Sound::settings_fit))]
pub fn settings_fit(chain: &Chain) -> bool
    ensures { let c = chain.now in result ≡ settings_fit c.num_qubits c.max_bond_dim c.svd_epsilon c.norm_clamp_min c.workspace_exponent }
{
    let _exponent = chain.workspace_exponent;
    is_within(1, 64, chain.num_qubits)
        & is_within(1, 128, chain.max_bond_dim)
        & is_share(chain.svd_epsilon)
        & is_share(chain.norm_clamp_min)
}

// Whether the entries from n on are 0. This loop and those below leave no entry out, so that many are compared at once.
#[tactic(auto, using(complex::specs::Loops::every_none, complex::specs::Loops::every_more))]
fn zeros_from(xs: &[u8; 64], n: usize) -> bool
    requires { n ≤ 64 }
    ensures { result ≡ every 64 (λ i. ltb i n || eqb (get_or xs.now i 0) 0) }
{
    let mut ok = true;
    for x in &xs[n..] {
        ok &= *x == 0;
    }
    ok
}

// Whether every bond of the chain is from 1 to high, and the entries past the chain are 0. High is a
// byte as a bond is, so that many bonds are compared at once.
#[tactic(auto, using(complex::specs::Loops::every_none, complex::specs::Loops::every_more))]
fn bonds_within(bonds: &[u8; 64], n: usize, high: u8) -> bool
    requires { n ≤ 64 }
    ensures { result ≡ every 64 (entry_fits n bonds.now (within 1 high)) }
{
    let mut ok = true;
    for x in &bonds[..n] {
        ok &= (1 <= *x) & (*x <= high);
    }
    ok & zeros_from(bonds, n)
}

// Whether each site's right bond is the left bond of its neighbour.
#[tactic(auto, using(complex::specs::Loops::every_none, complex::specs::Loops::every_more))]
fn neighbours_agree<'a>(right: &'a [u8; 64], left: &'a [u8; 64], n: usize) -> bool
    requires { (1 ≤ n) × (n ≤ 64) }
    ensures { result ≡ every 63 (λ i. leb n (i + 1) || eqb (get_or right.now i 0) (get_or left.now (i + 1) 0)) }
{
    let mut ok = true;
    for (a, b) in right[..n - 1].iter().zip(&left[1..]) {
        ok &= *a == *b;
    }
    ok
}

// Whether the bonds fit: the outer ones are 1, neighbours agree, none is above the widest so far.
fn bonds_fit<'a>(left: &'a [u8; 64], right: &'a [u8; 64], n: usize, high: u8) -> bool
    requires { (1 ≤ n) × (n ≤ 64) }
    ensures { result ≡ (eqb (get_or left.now 0 0) 1 && eqb (get_or right.now (n - 1) 0) 1 && every 63 (λ i. leb n (i + 1) || eqb (get_or right.now i 0) (get_or left.now (i + 1) 0)) && every 64 (entry_fits n left.now (within 1 high)) && every 64 (entry_fits n right.now (within 1 high))) }
{
    (left[0] == 1)
        & (right[n - 1] == 1)
        & neighbours_agree(right, left, n)
        & bonds_within(left, n, high)
        & bonds_within(right, n, high)
}

// Whether s is below n, and `back` at s is i. The index is taken modulo 64, so that `back` can be
// read at any s.
fn comes_back(back: &[u8; 64], n: usize, s: usize, i: usize) -> bool
    requires { n ≤ 64 }
    ensures { result ≡ (ltb s n && eqb (get_or back.now s 0) i) }
{
    (s < n) & (usize::from(back[s % 64]) == i)
}

// Whether `there` goes from below n to below n, and `back` comes back from it.
#[tactic(auto, using(complex::specs::Loops::every_none, complex::specs::Loops::every_more))]
fn is_undone<'a>(there: &'a [u8; 64], back: &'a [u8; 64], n: usize) -> bool
    requires { n ≤ 64 }
    ensures { result ≡ undoes n there.now back.now }
{
    let mut ok = true;
    for (i, s) in there[..n].iter().enumerate() {
        ok &= comes_back(back, n, usize::from(*s), i);
    }
    ok & zeros_from(there, n)
}

// Whether the centre is unknown or a site of the chain.
fn center_fits(center: Option<usize>, n: usize) -> bool
    ensures { result ≡ center_fits center n }
{
    center.is_none_or(|k| k < n)
}

// Whether the weights discarded past the last bond are +0, by their bits.
#[tactic(auto, using(complex::specs::Loops::every_none, complex::specs::Loops::every_more))]
fn discarded_fits(bond_discarded: &[f64; 63], n: usize) -> bool
    requires { (1 ≤ n) × (n ≤ 64) }
    ensures { result ≡ discarded_fits n bond_discarded.now }
{
    let mut ok = true;
    for x in &bond_discarded[n - 1..] {
        ok &= to_bits(*x) == 0;
    }
    ok
}

// Whether a chain record is sound. The parts are looked at where the settings and the widest bond so
// far fit, so that the chain's length is within the arrays and the widest bond is a byte.
#[tactic(auto, using(crate::specs::Tested::tested), unfolding(model::specs::Sound::sound, model::specs::Sound::bonds_fit, model::specs::Sound::sized))]
pub fn is_sound(chain: &Chain) -> bool
    ensures { result ≡ sound chain.now }
{
    let n = chain.num_qubits;
    let high = chain.bond_high_water;
    if settings_fit(chain) & is_within(1, chain.max_bond_dim, high) {
        bonds_fit(&chain.bond_left, &chain.bond_right, n, high as u8)
            & is_undone(&chain.logical_to_site, &chain.site_to_logical, n)
            & is_undone(&chain.site_to_logical, &chain.logical_to_site, n)
            & center_fits(chain.center, n)
            & discarded_fits(&chain.bond_discarded, n)
    } else {
        false
    }
}
