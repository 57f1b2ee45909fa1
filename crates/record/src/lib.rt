// Run records: bytes read as a record, or turned away under 8. A record is its length, 2 bytes that count
// kind and body, its kind, 2 bytes, and its body. Where each field stands is said in specs/Layout.antt.
#![tactic(auto)]

ghost use Rattle.std.specs.Prelude.{◌≡◌, ◌+◌, ◌*◌, ◌≤◌, [], ◌∷◌, length};
ghost use Rattle.bytes_le.specs.Value.{value};
ghost use Rattle.gates.specs.Gate.{four};
ghost use Rattle.record.specs.Layout.{body_size, has_length, more_bytes};
ghost use Rattle.record.specs.Fields.{named_gate, bit_in, record_in};
ghost use Rattle.record.specs.Reading.{read_of};
ghost use Rattle.record.specs.GateBytes.{complex_at, gate_in, gate_read};

use bytes_le::{f64_at, u8_at, u16_at};
use complex::Complex;
use gates::NamedGate;

// A run record, by its kind. Qubits, settings and draws are as they stand in the bytes; a call tests them.
#[derive(Clone, Copy)]
pub enum Record {
    Start {
        n: u8,
        d: u8,
        exponent: u8,
        epsilon: f64,
        clamp: f64,
    },
    Gate {
        q0: u8,
        q1: u8,
        gate: [[Complex; 4]; 4],
    },
    NamedGate {
        q0: u8,
        q1: u8,
        name: NamedGate,
    },
    Projection {
        qubit: u8,
        bit: bool,
    },
    Measure {
        qubit: u8,
        flag: u8,
        draw: f64,
    },
    Reset {
        qubit: u8,
        draw: f64,
    },
}

// ---- lengths

// How many bytes a record's body has, by its kind; 0 for what is no kind. A number and no Option, as specs/Layout.antt defines
// it: a caller only adds to it or compares it. The kind is the number that the bytes hold.
#[tactic(auto, using(crate::specs::Layout::no_layout), unfolding(crate::specs::Layout::body_size))]
pub fn body_size(kind: u16) -> usize
    ensures { result ≡ body_size kind }
{
    match kind {
        1 => 19,
        2 => 258,
        3 => 3,
        4 => 2,
        5 => 10,
        6 => 9,
        _ => 0,
    }
}

// Whether some kind has records of this length, kind and body counted.
#[tactic(auto, unfolding(crate::specs::Layout::body_size, crate::specs::Layout::has_length))]
fn has_length(size: usize) -> bool
    ensures { result ≡ has_length size }
{
    matches!(size, 21 | 260 | 5 | 4 | 12 | 11)
}

// How many bytes follow the two of the length; 0 if no record has that length. A number and no Option: a record of no length
// is whole at once, and its two bytes are then turned away.
#[tactic(auto, using(bytes_le::proofs::Value::value_two), unfolding(crate::specs::Layout::more_bytes))]
pub fn more_bytes(low: u8, high: u8) -> usize
    ensures { result ≡ more_bytes (value (low ∷ high ∷ [])) }
{
    let size = usize::from(low) + 256 * usize::from(high);
    if has_length(size) { size } else { 0 }
}

// ---- the gate of a gate record

// Complex number k of the bytes, real part first.
fn complex_from(bytes: &[u8], k: usize) -> Complex
    requires { 16 * k + 16 ≤ length bytes.now }
    ensures { result ≡ complex_at bytes.now k }
{
    Complex {
        re: f64_at(bytes, 16 * k),
        im: f64_at(bytes, 16 * k + 8),
    }
}

fn row_from(bytes: &[u8], r: usize) -> [Complex; 4]
    requires { 64 * r + 64 ≤ length bytes.now }
    ensures { result ≡ four (λ c. complex_at bytes.now (4 * r + c)) }
{
    let k = 4 * r;
    [
        complex_from(bytes, k),
        complex_from(bytes, k + 1),
        complex_from(bytes, k + 2),
        complex_from(bytes, k + 3),
    ]
}

// The gate in 256 bytes, rows in order.
fn gate_from(bytes: &[u8]) -> [[Complex; 4]; 4]
    requires { 256 ≤ length bytes.now }
    ensures { result ≡ gate_in bytes.now }
{
    [
        row_from(bytes, 0),
        row_from(bytes, 1),
        row_from(bytes, 2),
        row_from(bytes, 3),
    ]
}

// The gate of the gate record that begins the bytes; all +0 where they are too few for one. No Option: its callers hand it
// whole records, and what is promised is the definition's value on all bytes.
#[tactic(auto, using(crate::specs::GateBytes::gate_short, crate::specs::GateBytes::gate_there), unfolding(gates::specs::Gate::gate_of))]
pub fn read_gate(bytes: &[u8]) -> [[Complex; 4]; 4]
    ensures { result ≡ gate_read bytes.now }
{
    if bytes.len() < 262 {
        return [[Complex::ZERO; 4]; 4];
    }
    gate_from(&bytes[6..262])
}

// ---- reading

// The gate of a code, if it is one. The bytes hold a number, and here it becomes an enum.
#[tactic(auto, unfolding(crate::specs::Fields::named_gate))]
fn named_gate(code: u8) -> Option<NamedGate>
    ensures { result ≡ named_gate code }
{
    match code {
        0 => Some(NamedGate::Swap),
        1 => Some(NamedGate::Cx),
        2 => Some(NamedGate::Cz),
        _ => None,
    }
}

// The bit that a byte is, if it is one.
#[tactic(auto, unfolding(crate::specs::Fields::bit_in))]
fn bit_in(byte: u8) -> Option<bool>
    ensures { result ≡ bit_in byte }
{
    if byte <= 1 { Some(byte == 1) } else { None }
}

// The record of this kind that begins the bytes, if its code or bit is one. The bytes hold the kind as a number, and here it
// becomes an enum.
#[tactic(auto, unfolding(bytes_le::specs::Value::value, crate::specs::Layout::body_size, crate::specs::Layout::field_bytes, crate::specs::Fields::record_in), using(crate::specs::Fields::no_fields, crate::specs::GateBytes::gate_there))]
fn record_in(bytes: &[u8], kind: u16) -> Option<Record>
    requires { 4 + body_size kind ≤ length bytes.now }
    ensures { result ≡ record_in kind bytes.now }
{
    match kind {
        1 => Some(Record::Start {
            n: u8_at(bytes, 4),
            d: u8_at(bytes, 5),
            exponent: u8_at(bytes, 6),
            epsilon: f64_at(bytes, 7),
            clamp: f64_at(bytes, 15),
        }),
        2 => Some(Record::Gate {
            q0: u8_at(bytes, 4),
            q1: u8_at(bytes, 5),
            gate: read_gate(bytes),
        }),
        3 => Some(Record::NamedGate {
            q0: u8_at(bytes, 4),
            q1: u8_at(bytes, 5),
            name: named_gate(u8_at(bytes, 6))?,
        }),
        4 => Some(Record::Projection {
            qubit: u8_at(bytes, 4),
            bit: bit_in(u8_at(bytes, 5))?,
        }),
        5 => Some(Record::Measure {
            qubit: u8_at(bytes, 4),
            flag: u8_at(bytes, 5),
            draw: f64_at(bytes, 6),
        }),
        6 => Some(Record::Reset {
            qubit: u8_at(bytes, 4),
            draw: f64_at(bytes, 5),
        }),
        _ => None,
    }
}

// The record that begins the bytes; they may go on past it. What does not read is refused by 8.
#[tactic(auto, using(crate::specs::Layout::body_size_small, crate::specs::Reading::short, crate::specs::Reading::wrong_length, crate::specs::Reading::cut_off, crate::specs::Reading::taken))]
pub fn read_record(bytes: &[u8]) -> Result<Record, u8>
    ensures { result ≡ read_of bytes.now }
{
    let len = bytes.len();
    if len < 4 {
        return Err(8);
    }
    let size = usize::from(u16_at(bytes, 0));
    let kind = u16_at(bytes, 2);
    if size != 2 + body_size(kind) {
        return Err(8);
    }
    if len - 2 < size {
        return Err(8);
    }
    record_in(bytes, kind).ok_or(8)
}
