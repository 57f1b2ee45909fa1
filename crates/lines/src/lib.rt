// The line that is printed for a run record: its kind, the refusal number or 0, and what an accepted call answered.
#![tactic(auto)]

ghost use Rattle.std.specs.Prelude.{◌≡◌, ◌+◌, ◌≤◌, ◌<◌, eqb, length, OnOk};
ghost use Rattle.std.specs.Io.KnownBytes.{Appends};
ghost use Rattle.std.proofs.lemmas.List.Edits.{sets};
ghost use Rattle.lines.specs.Text.{decimal, bit_digit, hex_digit, hex_text, detail_text, line_text, written, written_length};

use bytes_le::to_bits;
use std::io;
use std::io::Write;

// What follows the two numbers. A projection's weight is printed by its bits, and that it found nothing as zeros.
#[derive(Clone, Copy)]
pub enum Detail {
    Empty,
    Kept(f64),
    Nothing,
    Bit(bool),
}

// The kind and the refusal's number stay numbers, 0 where there is none, since they are what is printed.
#[derive(Clone, Copy)]
pub struct Line {
    pub kind: u8,
    pub number: u8,
    pub detail: Detail,
}

impl Line {
    // Reading stops here.
    pub const STOP: Line = Line {
        kind: 0,
        number: 8,
        detail: Detail::Empty,
    };

    // Whether reading stops at this line: STOP is the one of kind 0.
    pub fn stops(self) -> bool
        ensures { result ≡ eqb self.kind 0 }
    {
        self.kind == 0
    }
}

// x in decimal from the index `at` on. The index behind it is returned, here and below. By hand, here and below: `write!`
// promises its text only where it answers Ok, and nothing promises that it does.
#[tactic(auto, using(crate::specs::Writing::decimal_one, crate::specs::Writing::decimal_two, crate::specs::Writing::decimal_three))]
fn put_decimal(out: &mut [u8], at: usize, x: u8) -> usize
    requires { at + 3 ≤ length out.old }
    ensures out_after { out.new ≡ sets out.old at (decimal x) }
    ensures value { result ≡ at + length (decimal x) }
{
    if x < 10 {
        out[at] = b'0' + x;
        return at + 1;
    }
    if x < 100 {
        out[at] = b'0' + x / 10;
        out[at + 1] = b'0' + x % 10;
        return at + 2;
    }
    out[at] = b'0' + x / 100;
    out[at + 1] = b'0' + x / 10 % 10;
    out[at + 2] = b'0' + x % 10;
    at + 3
}

#[tactic(auto, using(crate::specs::Writing::hex_low, crate::specs::Writing::hex_high))]
fn hex_digit(x: u64) -> u8
    requires { x < 16 }
    ensures { result ≡ hex_digit x }
{
    if x < 10 {
        b'0' + x as u8
    } else {
        b'A' + (x as u8 - 10)
    }
}

// The 16 hex digits of x, highest first.
#[tactic(auto, using(complex::specs::Loops::tabulate_none, complex::specs::Loops::tabulate_more, complex::specs::Loops::take_set, crate::specs::Writing::hex_put, crate::specs::Writing::length_hex), unfolding(crate::specs::Text::hex_text))]
fn put_hex(out: &mut [u8], at: usize, x: u64) -> usize
    requires { at + 16 ≤ length out.old }
    ensures out_after { out.new ≡ sets out.old at (hex_text x) }
    ensures value { result ≡ at + length (hex_text x) }
{
    for (k, digit) in out[at..at + 16].iter_mut().enumerate() {
        *digit = hex_digit((x >> (60 - 4 * k)) % 16);
    }
    at + 16
}

#[tactic(auto, unfolding(crate::specs::Text::bit_digit))]
fn bit_digit(bit: bool) -> u8
    ensures { result ≡ bit_digit bit }
{
    b'0' + u8::from(bit)
}

#[tactic(auto, unfolding(crate::specs::Text::detail_text))]
fn put_detail(out: &mut [u8], at: usize, detail: Detail) -> usize
    requires { at + 17 ≤ length out.old }
    ensures out_after { out.new ≡ sets out.old at (detail_text detail) }
    ensures value { result ≡ at + length (detail_text detail) }
{
    match detail {
        Detail::Empty => at,
        Detail::Kept(weight) => {
            let bits = to_bits(weight);
            out[at] = b' ';
            put_hex(out, at + 1, bits)
        }
        Detail::Nothing => {
            out[at] = b' ';
            put_hex(out, at + 1, 0)
        }
        Detail::Bit(bit) => {
            out[at] = b' ';
            out[at + 1] = bit_digit(bit);
            at + 2
        }
    }
}

// The line from the slice's start, ended by a newline, and how many bytes were written: a count, and so no Option. A slice
// that is shorter than the longest line is left as it was, and 0 bytes were written.
#[tactic(auto, using(crate::specs::Writing::length_decimal, crate::specs::Writing::length_detail, crate::specs::Writing::no_room, crate::specs::Writing::wrote_line, crate::specs::Writing::length_room, crate::specs::Writing::length_no_room, std::proofs::lemmas::Grind::common_steps))]
pub fn write_line(out: &mut [u8], line: Line) -> usize
    ensures out_after { out.new ≡ written line out.old }
    ensures value { result ≡ written_length line out.old }
{
    if out.len() < 25 {
        return 0;
    }
    let gap = put_decimal(out, 0, line.kind);
    out[gap] = b' ';
    let rest = put_decimal(out, gap + 1, line.number);
    let detail = line.detail;
    let end = put_detail(out, rest, detail);
    out[end] = b'\n';
    end + 1
}

// The line to a writer.
#[tactic(auto, using(crate::specs::Writing::written_front))]
pub fn print_line<W: Write>(writer: &mut W, line: Line) -> io::Result<()>
    ensures { OnOk result (Appends (W.contents writer.old) (W.contents writer.new) (line_text line)) }
{
    let mut text = [0u8; 25];
    let n = write_line(&mut text, line);
    writer.write_all(&text[..n])
}
