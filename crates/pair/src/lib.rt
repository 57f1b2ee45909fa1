// Two neighbouring sites as one matrix: their contraction with a gate on it, written by columns, straight or as the conjugate transpose.
// The four elements of one left index a and one right index b meet in no other four of the result, so they are made and stored together.
#![tactic(auto)]

ghost use Rattle.std.specs.Prelude.{◌≡◌, ◌+◌, ◌*◌, ◌<◌, ◌≤◌, cond, length};
ghost use Rattle.complex.specs.Numbers.{count};
ghost use Rattle.model.specs.Pair.{gated_theta, matrix_of, adjoint_of};
ghost use Rattle.pair.specs.Blocks.{grown, dots_of, mix_of, mixed_of, conjugated, gated_block, stored, line, place_of, element_of};

use complex::{Complex, complex_at, set_complex};
use model::Bonds;

// The elements (i, j) = (0, 0), (0, 1), (1, 0) and (1, 1) of one a and one b.
#[derive(Clone, Copy)]
pub struct Block {
    pub e00: Complex,
    pub e01: Complex,
    pub e10: Complex,
    pub e11: Complex,
}

// A row of the gate times the four elements, added in their order.
#[tactic(auto, unfolding(crate::specs::Blocks::mix_of))]
fn mix(row: [Complex; 4], t: Block) -> Complex
    ensures { result ≡ mix_of row t }
{
    Complex::ZERO + row[0] * t.e00 + row[1] * t.e01 + row[2] * t.e10 + row[3] * t.e11
}

impl Block {
    pub const ZERO: Block = Block {
        e00: Complex::ZERO,
        e01: Complex::ZERO,
        e10: Complex::ZERO,
        e11: Complex::ZERO,
    };

    // One more term of the four sums.
    #[tactic(auto, unfolding(crate::specs::Blocks::grown))]
    fn grown(self, x0: Complex, x1: Complex, y0: Complex, y1: Complex) -> Block
        ensures { result ≡ grown self x0 x1 y0 y1 }
    {
        Block {
            e00: self.e00 + x0 * y0,
            e01: self.e01 + x0 * y1,
            e10: self.e10 + x1 * y0,
            e11: self.e11 + x1 * y1,
        }
    }

    // The gate on the four elements.
    #[tactic(auto, unfolding(crate::specs::Blocks::mixed_of))]
    fn gated(self, gate: &[[Complex; 4]; 4]) -> Block
        ensures { result ≡ mixed_of gate.now self }
    {
        Block {
            e00: mix(gate[0], self),
            e01: mix(gate[1], self),
            e10: mix(gate[2], self),
            e11: mix(gate[3], self),
        }
    }

    #[tactic(auto, unfolding(crate::specs::Blocks::conjugated))]
    fn conj(self) -> Block
        ensures { result ≡ conjugated self }
    {
        Block {
            e00: self.e00.conj(),
            e01: self.e01.conj(),
            e10: self.e10.conj(),
            e11: self.e11.conj(),
        }
    }

    // The four elements at their places: i steps by si from base on, and j by sj.
    #[tactic(auto, unfolding(crate::specs::Blocks::stored))]
    fn store(self, out: &mut [f64], base: usize, si: usize, sj: usize)
        requires { base + si + sj < count out.old }
        ensures { out.new ≡ stored base si sj self out.old }
    {
        set_complex(out, base, self.e00);
        set_complex(out, base + sj, self.e01);
        set_complex(out, base + si, self.e10);
        set_complex(out, base + si + sj, self.e11);
    }
}

// Four sums over g < n: of left's number l0 + g or l0 + n + g times right's number g * step + r0 or g * step + r1.
#[tactic(auto, using(crate::proofs::Sums::dots_none, crate::proofs::Sums::dots_more))]
fn dots(
    left: &[f64],
    l0: usize,
    right: &[f64],
    step: usize,
    r0: usize,
    r1: usize,
    n: usize,
) -> Block
    requires { (l0 + n + n ≤ count left.now) × (r0 < step) × (r1 < step) × (n * step ≤ count right.now) }
    ensures { result ≡ dots_of left.now l0 (l0 + n) right.now step r0 r1 n }
{
    let l1 = l0 + n;
    let mut t = Block::ZERO;
    for g in 0..n {
        let x0 = complex_at(left, l0 + g);
        let x1 = complex_at(left, l1 + g);
        let y0 = complex_at(right, g * step + r0);
        let y1 = complex_at(right, g * step + r1);
        t = t.grown(x0, x1, y0, y1);
    }
    t
}

// Two neighbouring sites with their bonds, and the gate on them.
#[derive(Clone, Copy)]
pub struct Neighbours<'a> {
    pub left: &'a [f64],
    pub right: &'a [f64],
    pub gate: &'a [[Complex; 4]; 4],
    pub bonds: Bonds,
    pub ghost few: { (bonds.left ≤ 128) × (bonds.mid ≤ 128) × (bonds.right ≤ 128) },
    pub ghost within: { (bonds.left * (2 * bonds.mid) ≤ count left.now) × (bonds.mid * (2 * bonds.right) ≤ count right.now) },
}

impl<'a> Neighbours<'a> {
    // The four elements of a and b, with the gate on them.
    #[tactic(auto, using(crate::proofs::Sums::mixed_dots))]
    fn block(&self, a: usize, b: usize) -> Block
        requires { (a < self.now.bonds.left) × (b < self.now.bonds.right) }
        ensures { result ≡ gated_block self.now.gate.now self.now.bonds.mid self.now.bonds.right self.now.left.now self.now.right.now a b }
    {
        let mid = self.bonds.mid;
        let br = self.bonds.right;
        let l0 = a * (2 * mid);
        dots(self.left, l0, self.right, 2 * br, b, br + b, mid).gated(self.gate)
    }

    // The elements of one b, by columns: row a * 2 + i and column j * br + b, or the conjugates with row and column exchanged.
    #[tactic(auto, using(complex::specs::Loops::each_none, complex::specs::Loops::each_more, crate::proofs::Places::block_straight, crate::proofs::Places::block_adjoint), unfolding(crate::specs::Blocks::line))]
    fn contract_line<const ADJOINT: bool>(&self, out: &mut [f64], b: usize)
        requires { (b < self.now.bonds.right) × (length out.old ≡ 2 * (2 * self.now.bonds.right * (2 * self.now.bonds.left))) }
        ensures { out.new ≡ line self.now.bonds.left (place_of ADJOINT self.now.bonds.left self.now.bonds.right) (element_of ADJOINT (gated_theta self.now.gate.now self.now.bonds.mid self.now.bonds.right self.now.left.now self.now.right.now)) b out.old }
    {
        let bl = self.bonds.left;
        let br = self.bonds.right;
        for a in 0..bl {
            let t = self.block(a, b);
            if ADJOINT {
                let u = t.conj();
                u.store(out, a * 2 * (2 * br) + b, 2 * br, br);
            } else {
                t.store(out, b * (2 * bl) + a * 2, 1, br * (2 * bl));
            }
        }
    }

    // The gate on the two sites' contraction, as a matrix of 2 * bonds.left rows and 2 * bonds.right columns, by columns.
    // ADJOINT: its conjugate transpose, by columns. The conjugate is taken after the gate.
    #[tactic(auto, using(complex::specs::Loops::each_none, complex::specs::Loops::each_more, crate::proofs::Places::lines_either))]
    pub fn contract<const ADJOINT: bool>(&self, out: &mut [f64])
        requires { length out.old ≡ 2 * (2 * self.now.bonds.right * (2 * self.now.bonds.left)) }
        ensures { let th = gated_theta self.now.gate.now self.now.bonds.mid self.now.bonds.right self.now.left.now self.now.right.now in out.new ≡ cond ADJOINT (adjoint_of self.now.bonds.left self.now.bonds.right th) (matrix_of self.now.bonds.left self.now.bonds.right th) }
    {
        for b in 0..self.bonds.right {
            self.contract_line::<ADJOINT>(out, b);
        }
    }
}
