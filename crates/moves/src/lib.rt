// Moves of the orthogonality centre by QR steps.
// A step to the right and one to the left are two functions each. shift_center_right and shift_center_left are the Rust's own, by name;
// the parts below them differ in the matrix, in which neighbour is copied, in which slot is filled and which absorbs, and in the
// bonds, so that one function over a const parameter would hold a branch at each.
#![tactic(auto)]

ghost use Rattle.std.specs.Prelude.{◌≡◌, ◌+◌, ◌-◌, ◌*◌, ◌<◌, ◌≤◌, min, length, take};
ghost use Rattle.complex.specs.Numbers.{count};
ghost use Rattle.complex.specs.Parts.{part};
ghost use Rattle.model.specs.Chain.{with_bond};
ghost use Rattle.model.specs.Slots.{State, slot_of};
ghost use Rattle.model.specs.Qr.{kept, qr};
ghost use Rattle.model.specs.Moves.{right_matrix, left_matrix, step_right, step_left, walk_right, walk_left, moved, established, centered_on, prepared, prepared_on};
ghost use Rattle.moves.specs.Bonds.{pair_bonds, Bytes};
ghost use Rattle.moves.specs.Ready.{Ready};
ghost use Rattle.moves.specs.Steps.{SlotsOf, factored_room, Pair, factors_right, factors_left, stored_right, stored_left};

use fills::{fill_columns, fill_rows_conj};
use gauge::{absorb_left, absorb_right, copy_numbers, left_matrix, right_matrix};
use model::{Bonds, Chain, WeightSide};
use qr::factorize_gram_schmidt;

// ---- where two neighbours stand

// Where the slots of the sites k and k + 1 begin and end in the store.
#[derive(Clone, Copy)]
pub struct Slots {
    pub left: usize,
    pub left_end: usize,
    pub right: usize,
    pub right_end: usize,
}

pub fn pair_slots(d: usize, k: usize) -> Slots
    requires { (d ≤ 128) × (k < 64) }
    ensures { SlotsOf d k result }
{
    let slot = 4 * d * d;
    let left = k * slot;
    let right = (k + 1) * slot;
    Slots {
        left,
        left_end: left + slot,
        right,
        right_end: right + slot,
    }
}

// The bonds of the sites k and k + 1.
pub fn pair_bonds(chain: &Chain, k: usize) -> Bonds
    requires { k < 63 }
    ensures value { result ≡ pair_bonds chain.now k }
    ensures bytes { Bytes result }
{
    Bonds {
        left: usize::from(chain.bond_left[k]),
        mid: usize::from(chain.bond_right[k]),
        right: usize::from(chain.bond_right[k + 1]),
    }
}

// ---- what a step reads: the site as a matrix, factored at the front of the work slice, and behind it a copy of the neighbour

// How many floats the factored list of a matrix of so many rows and columns takes.
fn factored_room(high: usize, cols: usize) -> usize
    requires { (high ≤ 256) × (cols ≤ 128) }
    ensures { result ≡ factored_room high cols }
{
    2 * (cols * high + high.min(cols) * cols)
}

// The site as a matrix, factored: how many columns q has.
fn factor_right(site: &[f64], work: &mut [f64], bl: usize, bond: usize) -> usize
    requires { (0 < bl) × (bl ≤ 128) × (0 < bond) × (bond ≤ 128) × (2 * bl * bond ≤ count site.now) × (factored_room (2 * bl) bond ≤ length work.old) }
    ensures work_after { kept result (take (factored_room (2 * bl) bond) work.new) ≡ qr (2 * bl) bond (right_matrix bl bond site.now) }
    ensures result_nonzero { (0 < result) × (result ≤ min (2 * bl) bond) }
{
    let high = 2 * bl;
    let m = 2 * (bond * high);
    let q = factored_room(high, bond);
    right_matrix(site, &mut work[..m], bl, bond);
    factorize_gram_schmidt(&mut work[..q], high, bond)
}

fn factor_left(site: &[f64], work: &mut [f64], bond: usize, br: usize) -> usize
    requires { (0 < bond) × (bond ≤ 128) × (0 < br) × (br ≤ 128) × (2 * bond * br ≤ count site.now) × (factored_room (2 * br) bond ≤ length work.old) }
    ensures work_after { kept result (take (factored_room (2 * br) bond) work.new) ≡ qr (2 * br) bond (left_matrix bond br site.now) }
    ensures result_nonzero { (0 < result) × (result ≤ min (2 * br) bond) }
{
    let high = 2 * br;
    let m = 2 * (bond * high);
    let q = factored_room(high, bond);
    left_matrix(site, &mut work[..m], bond, br);
    factorize_gram_schmidt(&mut work[..q], high, bond)
}

// The neighbour's first n numbers, behind the first q floats of the work slice.
fn keep_copy(site: &[f64], work: &mut [f64], q: usize, n: usize)
    requires { (n ≤ length site.now) × (q + n ≤ length work.old) }
    ensures work_unchanged { take q work.new ≡ take q work.old }
    ensures work_after { part q (q + n) work.new ≡ take n site.now }
{
    let e = q + n;
    copy_numbers(site, &mut work[q..e]);
}

// ---- what a step writes: the two sites of the pair, from the first q floats of the work slice and the neighbour's copy behind them
// Here and in a step `Pair` is required: the slices are lent, and what stands in them changes between the calls, so that no value carries the fact.

fn write_right(
    store: &mut [f64],
    work: &[f64],
    d: usize,
    k: usize,
    bonds: Bonds,
    chi: usize,
    q: usize,
)
    requires pair { Pair d k bonds.left bonds.mid bonds.right store.old work.now }
    requires chi_bound { (chi ≤ min (2 * bonds.left) bonds.mid) × (q ≡ factored_room (2 * bonds.left) bonds.mid) }
    ensures { store.new ≡ stored_right d k bonds.left bonds.mid bonds.right (kept chi (take q work.now)) (part q (q + 2 * (bonds.mid * (2 * bonds.right))) work.now) store.old }
{
    let at = pair_slots(d, k);
    let e = q + 2 * (bonds.mid * (2 * bonds.right));
    fill_columns(
        &mut store[at.left..at.left_end],
        &work[..q],
        2 * bonds.left,
        bonds.left,
        chi,
    );
    absorb_right(
        &mut store[at.right..at.right_end],
        &work[..q],
        &work[q..e],
        bonds,
        chi,
    );
}

fn write_left(
    store: &mut [f64],
    work: &[f64],
    d: usize,
    k: usize,
    bonds: Bonds,
    chi: usize,
    q: usize,
)
    requires pair { Pair d k bonds.left bonds.mid bonds.right store.old work.now }
    requires chi_bound { (chi ≤ min (2 * bonds.right) bonds.mid) × (q ≡ factored_room (2 * bonds.right) bonds.mid) }
    ensures { store.new ≡ stored_left d k bonds.left bonds.mid bonds.right (kept chi (take q work.now)) (part q (q + 2 * (2 * bonds.left * bonds.mid)) work.now) store.old }
{
    let at = pair_slots(d, k);
    let e = q + 2 * (2 * bonds.left * bonds.mid);
    absorb_left(
        &mut store[at.left..at.left_end],
        &work[..q],
        &work[q..e],
        bonds,
        chi,
    );
    fill_rows_conj(
        &mut store[at.right..at.right_end],
        &work[..q],
        2 * bonds.right,
        chi,
        bonds.right,
    );
}

// ---- one step: the new bond

// Site k keeps q across its right bond, and r is multiplied into site k + 1.
fn step_right(store: &mut [f64], work: &mut [f64], d: usize, k: usize, bonds: Bonds) -> usize
    requires { Pair d k bonds.left bonds.mid bonds.right store.old work.old }
    ensures value { result ≡ (factors_right d k bonds.left bonds.mid store.old).rank }
    ensures store_after { store.new ≡ stored_right d k bonds.left bonds.mid bonds.right (factors_right d k bonds.left bonds.mid store.old) (slot_of d (k + 1) store.old) store.old }
    ensures upper_bound { result ≤ bonds.mid }
{
    let at = pair_slots(d, k);
    let q = factored_room(2 * bonds.left, bonds.mid);
    let chi = factor_right(&store[at.left..at.left_end], work, bonds.left, bonds.mid);
    keep_copy(
        &store[at.right..at.right_end],
        work,
        q,
        2 * (bonds.mid * (2 * bonds.right)),
    );
    write_right(store, work, d, k, bonds, chi, q);
    chi
}

// The same to the left, from site k + 1 to site k, by the conjugate transpose.
fn step_left(store: &mut [f64], work: &mut [f64], d: usize, k: usize, bonds: Bonds) -> usize
    requires { Pair d k bonds.left bonds.mid bonds.right store.old work.old }
    ensures value { result ≡ (factors_left d k bonds.mid bonds.right store.old).rank }
    ensures store_after { store.new ≡ stored_left d k bonds.left bonds.mid bonds.right (factors_left d k bonds.mid bonds.right store.old) (slot_of d k store.old) store.old }
    ensures upper_bound { result ≤ bonds.mid }
{
    let at = pair_slots(d, k);
    let q = factored_room(2 * bonds.right, bonds.mid);
    let chi = factor_left(&store[at.right..at.right_end], work, bonds.mid, bonds.right);
    keep_copy(
        &store[at.left..at.left_end],
        work,
        q,
        2 * (2 * bonds.left * bonds.mid),
    );
    write_left(store, work, d, k, bonds, chi, q);
    chi
}

// The bond between the sites k and k + 1, in the entries of both.
pub fn set_bond(chain: &mut Chain, k: usize, bond: usize)
    requires { (k < 63) × (bond ≤ 128) }
    ensures { chain.new ≡ with_bond chain.old k bond }
{
    chain.bond_left[k + 1] = bond as u8;
    chain.bond_right[k] = bond as u8;
}

// Where the centre goes before a cut, and the side that the cut shall leave it on.
#[derive(Clone, Copy)]
struct Aim {
    side: WeightSide,
    site: usize,
}

// The site of the pair k, k + 1 that is nearer to the centre.
fn aim_at(center: Option<usize>, k: usize) -> Aim
    requires { k < 64 }
    ensures { (result.site ≤ k + 1) × ((s : State) → prepared result.side (centered_on result.site center s) ≡ prepared_on k center s) }
{
    match center {
        Some(from) if k < from => Aim {
            side: WeightSide::Left,
            site: k + 1,
        },
        _ => Aim {
            side: WeightSide::Right,
            site: k,
        },
    }
}

// ---- the chain

// The chain with its store and a work slice, as the Rust's backend holds them; `ready`: the record is sound, and the slices have room.
// A function that lends a field on reborrows it into a variable first, which the borrow checker follows.
#[derive(Drop)]
pub struct Mps<'a> {
    pub chain: &'a mut Chain,
    pub store: &'a mut [f64],
    pub work: &'a mut [f64],
    pub ghost ready: { Ready chain.now store.now work.now },
}

impl<'a> Mps<'a> {
    ghost use Rattle.moves.specs.Mps.{state, Same, Becomes};

    // The centre goes from site k to site k + 1.
    #[tactic(auto, using(crate::specs::Ready::pair_ready))]
    fn shift_center_right(&mut self, k: usize)
        requires { k + 1 < self.old.chain.now.num_qubits }
        ensures { Becomes (step_right k (state self.old)) self.old self.new }
    {
        let d = self.chain.max_bond_dim;
        let bonds = pair_bonds(self.chain, k);
        let store = &mut *self.store;
        let work = &mut *self.work;
        let chi = step_right(store, work, d, k, bonds);
        set_bond(self.chain, k, chi);
    }

    // The centre goes from site k + 1 to site k.
    #[tactic(auto, using(crate::specs::Ready::pair_ready))]
    fn shift_center_left(&mut self, k: usize)
        requires { k + 1 < self.old.chain.now.num_qubits }
        ensures { Becomes (step_left k (state self.old)) self.old self.new }
    {
        let d = self.chain.max_bond_dim;
        let bonds = pair_bonds(self.chain, k);
        let store = &mut *self.store;
        let work = &mut *self.work;
        let chi = step_left(store, work, d, k, bonds);
        set_bond(self.chain, k, chi);
    }

    // Steps to the right, from one site to another; none where that is not to the right.
    #[tactic(auto, using(crate::specs::Mps::itself, crate::specs::Mps::and_then, crate::specs::Walks::right_turn, crate::specs::Walks::right_done))]
    fn walk_right(&mut self, from: usize, to: usize)
        requires { to < self.old.chain.now.num_qubits }
        ensures { Becomes (walk_right (to - from) from (state self.old)) self.old self.new }
    {
        for at in from..to {
            self.shift_center_right(at);
        }
    }

    #[tactic(auto, using(crate::specs::Mps::itself, crate::specs::Mps::and_then, crate::specs::Walks::left_turn, crate::specs::Walks::left_done))]
    fn walk_left(&mut self, from: usize, to: usize)
        requires { from < self.old.chain.now.num_qubits }
        ensures { Becomes (walk_left (from - to) from (state self.old)) self.old self.new }
    {
        for at in (to..from).rev() {
            self.shift_center_left(at);
        }
    }

    // The centre goes from one site to another.
    #[tactic(auto, using(crate::specs::Mps::and_then, crate::specs::Walks::moved_walks, crate::specs::Ready::moved_stays))]
    pub fn move_center(&mut self, from: usize, to: usize)
        requires { (from < self.old.chain.now.num_qubits) × (to < self.old.chain.now.num_qubits) }
        ensures { Becomes (moved from to (state self.old)) self.old self.new }
    {
        self.walk_right(from, to);
        self.walk_left(from, to);
        self.chain.center = Some(to);
    }

    // A centre at `to` where none is recorded: first to the end away from it, across every site.
    #[tactic(auto, using(crate::specs::Mps::and_then, crate::specs::Walks::established_down, crate::specs::Walks::established_up))]
    pub fn establish_center(&mut self, to: usize)
        requires { to < self.old.chain.now.num_qubits }
        ensures { Becomes (established to (state self.old)) self.old self.new }
    {
        let last = self.chain.num_qubits - 1;
        let far = if 2 * to <= last { last } else { 0 };
        self.move_center(far, last - far);
        self.move_center(last - far, to);
    }

    // The centre onto a site, from where it is.
    #[tactic(auto, using(crate::specs::Mps::itself, crate::specs::Walks::on_own))]
    pub fn center_on(&mut self, k: usize)
        requires { k < self.old.chain.now.num_qubits }
        ensures { Becomes (centered_on k self.old.chain.now.center (state self.old)) self.old self.new }
    {
        match self.chain.center {
            None => self.establish_center(k),
            // a routed gate's next swap finds the centre on its pair
            Some(from) => if from != k {
                self.move_center(from, k);
            },
        }
    }

    // The centre onto the pair k, k + 1: the side that the cut shall leave it on.
    pub fn prepare_center(&mut self, k: usize) -> WeightSide
        requires { k + 1 < self.old.chain.now.num_qubits }
        ensures value { prepared result (state self.new) ≡ prepared_on k self.old.chain.now.center (state self.old) }
        ensures place { Same self.old self.new }
    {
        let aim = aim_at(self.chain.center, k);
        self.center_on(aim.site);
        aim.side
    }
}
