// The types of the chain record and of every answer. What the calls do to them is defined in specs/.
#![tactic(auto)]

ghost use Rattle.std.specs.Prelude.{Some};
ghost use Rattle.model.specs.Truncation.{reason_name};

use complex::Complex;
use std::fmt;

// The chain record: settings, bonds of each site, label maps, classical flags, centre, and what the cuts left.
// The fields are named as in the Rust, which has no bond_discarded. Bonds and labels are bytes: a bond is at most 128, a
// label below 64. The centre is the site the chain is canonical about, if one is recorded. Entry k of bond_discarded is
// the weight that the cuts at the bond between sites k and k + 1 discarded. Fixed lists with a length beside them: nothing
// is allocated, and every entry, those past the last site too, is compared with the Rust's.
#[derive(Clone, Copy)]
pub struct Chain {
    pub num_qubits: usize,
    pub max_bond_dim: usize,
    pub workspace_exponent: u8,
    pub svd_epsilon: f64,
    pub norm_clamp_min: f64,
    pub bond_left: [u8; 64],
    pub bond_right: [u8; 64],
    pub logical_to_site: [u8; 64],
    pub site_to_logical: [u8; 64],
    pub classical_bits: [bool; 64],
    pub center: Option<usize>,
    pub bond_high_water: usize,
    pub truncation_discarded: f64,
    pub bond_discarded: [f64; 63],
}

// The bonds of a pair of neighbours: left of it, between its sites, right of it. The bounds that a contraction needs are
// facts of pair::Neighbours, since bonds are also read and tested before they are known to be within them.
#[derive(Clone, Copy)]
pub struct Bonds {
    pub left: usize,
    pub mid: usize,
    pub right: usize,
}

// Which site of a pair carries the singular values after a cut.
#[derive(Clone, Copy)]
pub enum WeightSide {
    Left,
    Right,
}

// Why a cut keeps as many singular values as it does: raised to 1; lowered to the cap; those above the tolerance, and
// not all; all.
#[derive(Clone, Copy)]
pub enum Reason {
    Floor,
    Cap,
    Tolerance,
    Full,
}

impl fmt::Display for Reason {
    ghost output = { λ r. Some (reason_name r) };

    fn fmt<W: fmt::Write>(&self, f: &mut fmt::Formatter<W>) -> fmt::Result {
        f.write_str(match self {
            Reason::Floor => "Floor",
            Reason::Cap => "Cap",
            Reason::Tolerance => "Tolerance",
            Reason::Full => "Full",
        })
    }
}

// ---- answers. A refusal is a number: the papers number the refusals, and the number is what is promised and printed.

// What start and reset answer.
pub type Answer = Result<(), u8>;

// What a gate answers: the reason of its last cut.
pub type Applied = Result<Reason, u8>;

// What a measurement answers: its bit.
pub type Measured = Result<bool, u8>;

// What an environment walk answers: the dimension of the environment that it wrote.
pub type Contracted = Result<usize, u8>;

// What a layer of pairs answers: all done; refused before anything is written; or stopped by a number at a pair, counted
// from 0. An enum of its own, as the next one is: a refusal of the whole and a stop on the way leave different things.
#[derive(Clone, Copy)]
pub enum Layered {
    Done,
    Refused(u8),
    Stopped(u8, usize),
}

// What a projection answers: the weight of the kept branch, or nothing where the branch has none. An enum of its own and
// not a Result of an Option: the three cases are the form that the buyer names.
#[derive(Clone, Copy)]
pub enum Projected {
    Kept(f64),
    Nothing,
    Refused(u8),
}

// A call's answer, with the chain as the call leaves it.
#[derive(Clone, Copy)]
pub struct After<A> {
    pub answer: A,
    pub chain: Chain,
}

pub type Start = After<Answer>;

pub type Gated = After<Applied>;

pub type LayerRun = After<Layered>;

pub type Projection = After<Projected>;

pub type Measurement = After<Measured>;

pub type Reset = After<Answer>;

// Two columns of a matrix: the sums of their squared moduli, and of conj(p) times q.
#[derive(Clone, Copy)]
pub struct Gram {
    pub pp: f64,
    pub qq: f64,
    pub pq: Complex,
}

// A Jacobi rotation: its cosine, its sine, and the conjugate of the phase of g_pq.
#[derive(Clone, Copy)]
pub struct Rotation {
    pub c: f64,
    pub s: f64,
    pub phase_conj: Complex,
}
