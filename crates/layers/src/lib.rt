// A layer of pairs, whose two slices hold two bytes a pair for its qubits and 32 numbers for its gate: what stands there,
// and the tests that a layer has to pass before any pair runs.
#![tactic(auto)]

ghost use Rattle.std.specs.Prelude.{◌≡◌, true, ◌+◌, ◌*◌, ◌≤◌, ◌<◌, length};
ghost use Rattle.complex.specs.Numbers.{at};
ghost use Rattle.gates.specs.Gate.{four};
ghost use Rattle.model.specs.Layers.{pair_count, first, second, gate_at};
ghost use Rattle.model.specs.Calls.{lengths_agree, pairs_fit, pairs_apart, gates_finite};

use complex::{Complex, complex_at};
use gates::is_finite;

// ---- what stands there

// The qubits of pair p.
pub fn qubits_at(pairs: &[u8], p: usize) -> (usize, usize)
    requires { p < pair_count pairs.now }
    ensures { result ≡ (first pairs.now p, second pairs.now p) }
{
    (usize::from(pairs[2 * p]), usize::from(pairs[2 * p + 1]))
}

// Row r of the gate of pair p.
fn row_at(gates: &[f64], p: usize, r: usize) -> [Complex; 4]
    requires { (32 * p + 32 ≤ length gates.now) × (r < 4) }
    ensures { result ≡ four (λ c. at gates.now (16 * p + 4 * r + c)) }
{
    let k = 16 * p + 4 * r;
    [
        complex_at(gates, k),
        complex_at(gates, k + 1),
        complex_at(gates, k + 2),
        complex_at(gates, k + 3),
    ]
}

// The gate of pair p, rows in order.
#[tactic(auto, unfolding(model::specs::Layers::gate_at, gates::specs::Gate::gate_of))]
pub fn gate_at(gates: &[f64], p: usize) -> [[Complex; 4]; 4]
    requires { 32 * p + 32 ≤ length gates.now }
    ensures { result ≡ gate_at gates.now p }
{
    [
        row_at(gates, p, 0),
        row_at(gates, p, 1),
        row_at(gates, p, 2),
        row_at(gates, p, 3),
    ]
}

// ---- the tests

// Whether so many bytes are two a pair, and so many numbers 32 a pair. By quotients, since 16 times a length need not be
// a machine word.
#[tactic(auto, unfolding(model::specs::Calls::lengths_agree))]
pub fn lengths_agree(bytes: usize, numbers: usize) -> bool
    ensures { result ≡ lengths_agree bytes numbers }
{
    (bytes % 2 == 0) & (numbers % 32 == 0) & (numbers / 32 == bytes / 2)
}

// Whether each pair is two of n qubits.
#[tactic(auto, using(std::proofs::lemmas::Bool::Decides::nat_tests, complex::specs::Loops::every_none, complex::specs::Loops::every_more), unfolding(model::specs::Calls::pairs_fit))]
pub fn pairs_fit(pairs: &[u8], n: usize) -> bool
    ensures { result ≡ pairs_fit n pairs.now }
{
    let mut ok = true;
    for p in 0..pairs.len() / 2 {
        let (q0, q1) = qubits_at(pairs, p);
        ok &= (q0 < n) & (q1 < n) & (q0 != q1);
    }
    ok
}

// Whether no pair of a layer on at most 64 qubits names a qubit that one before it names.
#[tactic(auto, using(complex::specs::Loops::every_none, complex::specs::Loops::each_none, complex::specs::Loops::each_more, model::proofs::Laws::LayerRuns::fits_at_lem, crate::specs::Named::free_more), unfolding(model::specs::Calls::pairs_apart))]
pub fn pairs_apart(pairs: &[u8], n: usize) -> bool
    requires { (n ≤ 64) × (pairs_fit n pairs.now ≡ true) }
    ensures { result ≡ pairs_apart pairs.now }
{
    let mut named = [false; 64];
    let mut apart = true;
    for p in 0..pairs.len() / 2 {
        let (q0, q1) = qubits_at(pairs, p);
        apart &= !(named[q0] | named[q1]);
        named[q0] = true;
        named[q1] = true;
    }
    apart
}

// Whether the first n gates are of finite numbers.
#[tactic(auto, using(complex::specs::Loops::every_none, complex::specs::Loops::every_more), unfolding(model::specs::Calls::gates_finite))]
pub fn gates_finite(gates: &[f64], n: usize) -> bool
    requires { 32 * n ≤ length gates.now }
    ensures { result ≡ gates_finite n gates.now }
{
    let mut ok = true;
    for p in 0..n {
        ok &= is_finite(gate_at(gates, p));
    }
    ok
}
