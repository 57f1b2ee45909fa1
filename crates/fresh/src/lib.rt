// A fresh chain: its record and its store, every qubit 0, every bond 1, no centre; and the all-zero record of a refused start.
#![tactic(auto)]

ghost use Rattle.std.specs.Prelude.{◌≡◌, [], ◌∷◌, ◌<◌, ◌≤◌, cond, length, ltb};
ghost use Rattle.complex.specs.Complex.{zero_f, one_f};
ghost use Rattle.model.specs.Slots.{store_room, filled};
ghost use Rattle.model.specs.Start.{up_to, fresh_chain, fresh_store, zero_chain};

use model::Chain;
use std::array;

// ---- the record

// A bond of 1 at each of n sites.
fn unit_bonds(n: usize) -> [u8; 64]
    ensures { result ≡ up_to n (λ i. 1) }
{
    array::from_fn(move |i| u8::from(i < n))
}

// Each of n qubits at the site of its number.
fn identity_labels(n: usize) -> [u8; 64]
    ensures { result ≡ up_to n (λ i. i) }
{
    array::from_fn(
        move |i|
            requires { i < 64 }
            ensures { result ≡ cond (ltb i n) i 0 }
        { if i < n { i as u8 } else { 0 } },
    )
}

#[tactic(auto, unfolding(model::specs::Start::fresh_chain))]
pub fn fresh_chain(n: usize, d: usize, epsilon: f64, clamp: f64, exponent: u8) -> Chain
    ensures { result ≡ fresh_chain n d epsilon clamp exponent }
{
    let bonds = unit_bonds(n);
    let labels = identity_labels(n);
    let bits = [false; 64];
    let discarded = [0.0; 63];
    Chain {
        num_qubits: n,
        max_bond_dim: d,
        workspace_exponent: exponent,
        svd_epsilon: epsilon,
        norm_clamp_min: clamp,
        bond_left: bonds,
        bond_right: bonds,
        logical_to_site: labels,
        site_to_logical: labels,
        classical_bits: bits,
        center: None,
        bond_high_water: 1,
        truncation_discarded: 0.0,
        bond_discarded: discarded,
    }
}

#[tactic(auto, unfolding(model::specs::Start::fresh_chain, model::specs::Start::zero_chain, complex::specs::Loops::tabulate))]
pub fn zero_chain() -> Chain
    ensures { result ≡ zero_chain }
{
    Chain {
        bond_high_water: 0,
        ..fresh_chain(0, 0, 0.0, 0.0, 0)
    }
}

// ---- the store

// A site's slot: the amplitudes 1 and 0, then +0.
#[tactic(auto, using(crate::specs::Sites::site_filled))]
fn fresh_site(slot: &mut [f64])
    requires { 4 ≤ length slot.old }
    ensures { slot.new ≡ filled (length slot.old) (one_f ∷ zero_f ∷ zero_f ∷ zero_f ∷ []) }
{
    slot.fill(0.0);
    slot[0] = 1.0;
}

// The slots of n sites under the cap d. Each is a part of the store that is lent, as document 01 asks.
#[tactic(auto, using(crate::specs::Sites::none_fresh, crate::specs::Sites::more_fresh))]
pub fn fresh_store(store: &mut [f64], n: usize, d: usize)
    requires { (n ≤ 64) × (1 ≤ d) × (d ≤ 128) × (store_room n d ≤ length store.old) }
    ensures { store.new ≡ fresh_store n d store.old }
{
    let slot = 4 * d * d;
    for k in 0..n {
        let a = k * slot;
        let b = a + slot;
        fresh_site(&mut store[a..b]);
    }
}
