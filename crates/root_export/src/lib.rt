// The root and the size of a complex number, for C and Rust to link.
#![tactic(auto)]

ghost use Rattle.std.specs.Prelude.{◌≡◌};
ghost use Rattle.root.specs.Root.{root_of};
ghost use Rattle.root.specs.Norm.{norm_of};

use complex::Complex;

#[unsafe(no_mangle)]
pub extern "C" fn jondwave_root(x: f64) -> f64
    ensures { result ≡ root_of x }
{
    root::root(x)
}

#[unsafe(no_mangle)]
pub extern "C" fn jondwave_norm(re: f64, im: f64) -> f64
    ensures { result ≡ norm_of (record { re = re; im = im }) }
{
    root::norm(Complex { re, im })
}

// The same, where the guess that is tested is handed in.
#[unsafe(no_mangle)]
pub extern "C" fn jondwave_root_with(x: f64, guess: f64) -> f64
    ensures { result ≡ root_of x }
{
    root::root_with(x, guess)
}

#[unsafe(no_mangle)]
pub extern "C" fn jondwave_norm_with(re: f64, im: f64, guess: f64) -> f64
    ensures { result ≡ norm_of (record { re = re; im = im }) }
{
    root::norm_with(Complex { re, im }, guess)
}
