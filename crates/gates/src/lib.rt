// Gates on two qubits: four rows of four complex numbers, by value. Rows are outputs.
// A row's or a column's index is 2 * first bit + second bit.
#![tactic(auto)]

ghost use Rattle.std.specs.Prelude.{◌≡◌};
ghost use Rattle.gates.specs.Gate.{number, four, swap_bits, swap_gate_qubits};
ghost use Rattle.complex.specs.Loops.{every};
ghost use Rattle.gates.specs.Finite.{finite_c, all_finite};
ghost use Rattle.gates.specs.Named.{matrix_of};

use complex::Complex;

// The gates that have names. The first qubit of Cx controls.
#[derive(Clone, Copy)]
pub enum NamedGate {
    Swap,
    Cx,
    Cz,
}

impl NamedGate {
    // A named gate's matrix. Every zero is +0, the imaginary part of -1 too.
    #[tactic(auto, unfolding(crate::specs::Named::matrix_of, crate::specs::Named::named_entry, crate::specs::Gate::gate_of))]
    pub fn matrix_4x4(self) -> [[Complex; 4]; 4]
        ensures { result ≡ matrix_of self }
    {
        let z = Complex::ZERO;
        let o = Complex::from(1.0);
        let m = Complex::from(-1.0);
        match self {
            NamedGate::Swap => [[o, z, z, z], [z, z, o, z], [z, o, z, z], [z, z, z, o]],
            NamedGate::Cx => [[o, z, z, z], [z, o, z, z], [z, z, z, o], [z, z, o, z]],
            NamedGate::Cz => [[o, z, z, z], [z, o, z, z], [z, z, o, z], [z, z, z, m]],
        }
    }
}

// A row with its two middle columns exchanged.
fn swapped(row: [Complex; 4]) -> [Complex; 4]
    ensures { result ≡ four (λ c. number row (swap_bits c)) }
{
    [row[0], row[2], row[1], row[3]]
}

// The gate with its two qubits exchanged, in the rows and in the columns.
#[tactic(auto, unfolding(crate::specs::Gate::swap_gate_qubits, crate::specs::Gate::gate_of))]
pub fn swap_gate_qubits(gate: [[Complex; 4]; 4]) -> [[Complex; 4]; 4]
    ensures { result ≡ swap_gate_qubits gate }
{
    [
        swapped(gate[0]),
        swapped(gate[2]),
        swapped(gate[1]),
        swapped(gate[3]),
    ]
}

// Whether both parts are finite.
#[tactic(auto, using(crate::specs::Finite::std_finite), unfolding(crate::specs::Finite::finite_c))]
fn finite_parts(z: Complex) -> bool
    ensures { result ≡ finite_c z }
{
    z.re.is_finite() & z.im.is_finite()
}

#[tactic(auto, unfolding(complex::specs::Loops::every))]
fn finite_row(row: [Complex; 4]) -> bool
    ensures { result ≡ every 4 (λ c. finite_c (number row c)) }
{
    finite_parts(row[0]) & finite_parts(row[1]) & finite_parts(row[2]) & finite_parts(row[3])
}

// Whether all 32 parts are finite.
#[tactic(auto, unfolding(complex::specs::Loops::every, crate::specs::Finite::all_finite))]
pub fn is_finite(gate: [[Complex; 4]; 4]) -> bool
    ensures { result ≡ all_finite gate }
{
    finite_row(gate[0]) & finite_row(gate[1]) & finite_row(gate[2]) & finite_row(gate[3])
}
