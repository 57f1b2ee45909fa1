// Whether a call is refused before it runs, by which number, and the room that a chain needs.
#![tactic(auto)]

ghost use Rattle.std.specs.Prelude.{◌≡◌, ◌||◌, not, cond, false, ◌≤◌, ltb};
ghost use Rattle.model.specs.Slots.{store_room, work_room};
ghost use Rattle.model.specs.Sound.{settings_fit, sound};
ghost use Rattle.model.specs.Answers.{refusal_of};
ghost use Rattle.model.specs.Calls.{first_of, layer_number, env_room};

use layers::{gates_finite, lengths_agree, pairs_apart, pairs_fit};
use model::{Answer, Chain};
use sound::{is_sound, settings_fit};

// ---- room, in numbers

// Of a store for n sites under the cap d.
pub fn store_room(n: usize, d: usize) -> usize
    requires { (n ≤ 64) × (d ≤ 128) }
    ensures { result ≡ store_room n d }
{
    n * (4 * d * d)
}

// Of a work slice.
pub fn work_room(d: usize) -> usize
    requires { d ≤ 128 }
    ensures { result ≡ work_room d }
{
    80 * d * d + 16 * d
}

// ---- refusals

// Whether a store and a work slice of these lengths are too short.
fn is_short(n: usize, d: usize, store: usize, work: usize) -> bool
    requires { (n ≤ 64) × (d ≤ 128) }
    ensures { result ≡ (ltb store (store_room n d) || ltb work (work_room d)) }
{
    (store < store_room(n, d)) | (work < work_room(d))
}

// The first that holds of a slice too short, an index out of range and a number that is not proper.
fn first_of(short: bool, outside: bool, improper: bool) -> Answer
    ensures { result ≡ refusal_of (cond short 2 (cond outside 4 (cond improper 5 0))) }
{
    if short {
        Err(2)
    } else if outside {
        Err(4)
    } else if improper {
        Err(5)
    } else {
        Ok(())
    }
}

// Of start, by the record that it is to leave, with a store of this length.
#[tactic(auto, using(crate::specs::Ranges::settings_passed))]
pub fn start_refusal(fresh: &Chain, store: usize) -> Answer
    ensures { let c = fresh.now in result ≡ refusal_of (cond (not (settings_fit c.num_qubits c.max_bond_dim c.svd_epsilon c.norm_clamp_min c.workspace_exponent)) 1 (cond (ltb store (store_room c.num_qubits c.max_bond_dim)) 2 0)) }
{
    if !settings_fit(fresh) {
        return Err(1);
    }
    if store < store_room(fresh.num_qubits, fresh.max_bond_dim) {
        Err(2)
    } else {
        Ok(())
    }
}

// Of a call that may write the chain, with a store and a work slice of these lengths.
#[tactic(auto, using(crate::specs::Ranges::sound_passed))]
pub fn call_refusal(
    chain: &Chain,
    store: usize,
    work: usize,
    outside: bool,
    improper: bool,
) -> Answer
    ensures { result ≡ refusal_of (first_of (not (sound chain.now)) (ltb store (store_room chain.now.num_qubits chain.now.max_bond_dim) || ltb work (work_room chain.now.max_bond_dim)) outside improper) }
{
    if !is_sound(chain) {
        return Err(3);
    }
    let short = is_short(chain.num_qubits, chain.max_bond_dim, store, work);
    first_of(short, outside, improper)
}

// Of a layer of pairs. Each test is of the whole layer, and is made where those before it passed.
#[tactic(auto, using(crate::specs::Ranges::sound_passed, layers::specs::Room::gates_room))]
pub fn layer_refusal(
    chain: &Chain,
    store: usize,
    work: usize,
    pairs: &[u8],
    gates: &[f64],
) -> Answer
    ensures { result ≡ refusal_of (layer_number chain.now (ltb store (store_room chain.now.num_qubits chain.now.max_bond_dim) || ltb work (work_room chain.now.max_bond_dim)) pairs.now gates.now) }
{
    if !is_sound(chain) {
        return Err(3);
    }
    let n = chain.num_qubits;
    if is_short(n, chain.max_bond_dim, store, work) | !lengths_agree(pairs.len(), gates.len()) {
        return Err(2);
    }
    if !pairs_fit(pairs, n) {
        return Err(4);
    }
    if !pairs_apart(pairs, n) {
        return Err(9);
    }
    if gates_finite(gates, pairs.len() / 2) {
        Ok(())
    } else {
        Err(5)
    }
}

// Of an environment walk, with a result slice of length `out` too.
#[tactic(auto, using(crate::specs::Ranges::sound_passed, crate::specs::Ranges::entries_most))]
pub fn walk_refusal(chain: &Chain, store: usize, work: usize, out: usize, outside: bool) -> Answer
    ensures { result ≡ refusal_of (first_of (not (sound chain.now)) (ltb store (store_room chain.now.num_qubits chain.now.max_bond_dim) || ltb work (work_room chain.now.max_bond_dim) || ltb out (env_room chain.now.max_bond_dim)) outside false) }
{
    if !is_sound(chain) {
        return Err(3);
    }
    let d = chain.max_bond_dim;
    let short = is_short(chain.num_qubits, d, store, work) | (out < 2 * d * d);
    first_of(short, outside, false)
}
