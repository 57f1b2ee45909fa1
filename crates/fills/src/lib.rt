// The ways to write a site's slot: from any matrix, from the factors of a cut, and from those of a QR step. What is left of the slot becomes +0.
#![tactic(auto)]

ghost use Rattle.std.specs.Prelude.{ℕ, ◌≡◌, ◌+◌, ◌*◌, ◌<◌, ◌≤◌, length};
ghost use Rattle.complex.specs.Complex.{conj_c};
ghost use Rattle.complex.specs.Numbers.{count, at, numbers};
ghost use Rattle.complex.specs.Matrix.{rows};
ghost use Rattle.model.specs.Slots.{filled};
ghost use Rattle.model.specs.Pair.{isometry_site, scaled_site, vt_site, scaled_vt_site};
ghost use Rattle.fills.specs.Factors.{ColumnsIn, ValuesIn, column_of, row_of, value_of};

use columns::clear_from;
use complex::{Complex, complex_at, set_complex};

// Where a factor of a decomposition stands among its numbers: its first number, and how many a column has.
#[derive(Clone, Copy)]
pub struct Factor {
    pub base: usize,
    pub stride: usize,
}

// The columns of a factor that are kept, in the order of the values: column g is the factor's column order[g].
#[derive(Clone, Copy)]
pub struct Columns<'a, 'b> {
    pub numbers: &'a [f64],
    pub order: &'b [u8],
    pub factor: Factor,
    pub kept: usize,
    pub ghost few: { (kept ≤ 256) × (kept ≤ length order.now) },
    pub ghost within: { ColumnsIn numbers.now order.now factor kept },
}

impl<'a, 'b> Columns<'a, 'b> {
    // Number r of column g.
    fn number(self, r: usize, g: usize) -> Complex
        requires { (g < self.kept) × (r < self.factor.stride) }
        ensures { result ≡ column_of self.entry.numbers.now self.entry.order.now self.entry.factor r g }
    {
        let column = usize::from(self.order[g]);
        complex_at(
            self.numbers,
            self.factor.base + (column * self.factor.stride + r),
        )
    }

    // The value of column g, where the values begin at number `values`.
    fn value(self, values: usize, g: usize) -> f64
        requires { (g < self.kept) × ValuesIn self.numbers.now self.order.now values self.kept }
        ensures { result ≡ value_of self.entry.numbers.now self.entry.order.now values g }
    {
        complex_at(self.numbers, values + usize::from(self.order[g])).re
    }
}

// ---- any matrix

// One row: its numbers in order.
#[tactic(auto, using(complex::specs::Loops::each_none, complex::specs::Loops::each_more))]
fn fill_row<F: Fn(usize, usize) -> Complex>(out: &mut [f64], number: &F, r: usize, wide: usize)
    requires { (length out.old ≡ 2 * wide) × ((c : ℕ) → c < wide → F.pre number.now r c) }
    ensures { (f : ℕ → _) → ((c : ℕ) (z : _) → c < wide → F.post number.now r c z → z ≡ f c) → out.new ≡ numbers wide f }
{
    for c in 0..wide {
        set_complex(out, c, number(r, c));
    }
}

// The rows of a matrix, one after the other: number c of row r is number(r, c). They are lent by index, since
// `chunks_exact_mut` takes no empty rows, and no column may be kept. A row's size is taken
// where there is a row, so that it fits.
#[tactic(auto, using(complex::specs::Matrix::block_none))]
pub fn fill_rows<F: Fn(usize, usize) -> Complex>(
    slot: &mut [f64],
    high: usize,
    wide: usize,
    number: F,
)
    requires { (2 * (high * wide) ≤ length slot.old) × ((r c : ℕ) → r < high → c < wide → F.pre number r c) }
    ensures { (f : ℕ → ℕ → _) → ((r c : ℕ) (z : _) → r < high → c < wide → F.post number r c z → z ≡ f r c) → slot.new ≡ filled (length slot.old) (rows high (λ r. numbers wide (f r))) }
{
    for r in 0..high {
        let size = 2 * wide;
        let a = r * size;
        let e = a + size;
        fill_row(&mut slot[a..e], &number, r, wide);
    }
    clear_from(slot, 2 * (high * wide));
}

// ---- the left site: row r has an element of each column

// The columns as they are.
pub fn fill_isometry_site_data(slot: &mut [f64], u: Columns, bl: usize)
    requires { (bl ≤ 128) × (2 * (2 * bl * u.kept) ≤ length slot.old) × (2 * bl ≤ u.factor.stride) }
    ensures { slot.new ≡ filled (length slot.old) (isometry_site bl u.entry.kept (column_of u.entry.numbers.now u.entry.order.now u.entry.factor)) }
{
    fill_rows(slot, 2 * bl, u.kept, |r, g| u.number(r, g));
}

// The columns, each times its value.
pub fn fill_scaled_u_site_data(slot: &mut [f64], u: Columns, values: usize, bl: usize)
    requires { (bl ≤ 128) × (2 * (2 * bl * u.kept) ≤ length slot.old) × (2 * bl ≤ u.factor.stride) × ValuesIn u.numbers.now u.order.now values u.kept }
    ensures { slot.new ≡ filled (length slot.old) (scaled_site bl u.entry.kept (column_of u.entry.numbers.now u.entry.order.now u.entry.factor) (value_of u.entry.numbers.now u.entry.order.now values)) }
{
    fill_rows(
        slot,
        2 * bl,
        u.kept,
        |r, g| u.number(r, g).scale(u.value(values, g)),
    );
}

// The first chi columns of w, a matrix of `stride` rows, in their own order.
pub fn fill_columns(slot: &mut [f64], w: &[f64], stride: usize, bl: usize, chi: usize)
    requires { (bl ≤ 128) × (chi ≤ 256) × (2 * (2 * bl * chi) ≤ length slot.old) × (2 * bl ≤ stride) × (chi * stride ≤ count w.now) }
    ensures { slot.new ≡ filled (length slot.old) (isometry_site bl chi (λ r g. at w.now (g * stride + r))) }
{
    fill_rows(slot, 2 * bl, chi, |r, g| complex_at(w, g * stride + r));
}

// ---- the right site: row g is a column's conjugate

// The rows of V† as they are.
pub fn fill_vt_site_data(slot: &mut [f64], v: Columns, br: usize)
    requires { (br ≤ 128) × (2 * (v.kept * (2 * br)) ≤ length slot.old) × (2 * br ≤ v.factor.stride) }
    ensures { slot.new ≡ filled (length slot.old) (vt_site v.entry.kept br (row_of v.entry.numbers.now v.entry.order.now v.entry.factor)) }
{
    fill_rows(slot, v.kept, 2 * br, |g, c| v.number(c, g).conj());
}

// The rows of V†, each times its value: the full product of (s, +0) with the conjugates.
pub fn fill_scaled_vt_data(slot: &mut [f64], v: Columns, values: usize, br: usize)
    requires { (br ≤ 128) × (2 * (v.kept * (2 * br)) ≤ length slot.old) × (2 * br ≤ v.factor.stride) × ValuesIn v.numbers.now v.order.now values v.kept }
    ensures { slot.new ≡ filled (length slot.old) (scaled_vt_site v.entry.kept br (row_of v.entry.numbers.now v.entry.order.now v.entry.factor) (value_of v.entry.numbers.now v.entry.order.now values)) }
{
    fill_rows(
        slot,
        v.kept,
        2 * br,
        |g, c| Complex::from(v.value(values, g)) * v.number(c, g).conj(),
    );
}

// The conjugates of the first chi columns of w, a matrix of `stride` rows, in their own order.
pub fn fill_rows_conj(slot: &mut [f64], w: &[f64], stride: usize, chi: usize, br: usize)
    requires { (chi ≤ 256) × (br ≤ 128) × (2 * (chi * (2 * br)) ≤ length slot.old) × (2 * br ≤ stride) × (chi * stride ≤ count w.now) }
    ensures { slot.new ≡ filled (length slot.old) (vt_site chi br (λ g c. conj_c (at w.now (g * stride + c)))) }
{
    fill_rows(
        slot,
        chi,
        2 * br,
        |g, c| complex_at(w, g * stride + c).conj(),
    );
}
