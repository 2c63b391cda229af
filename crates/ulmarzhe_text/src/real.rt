// 32-bit floats in decimals, by integer arithmetic on their bits, rounded to the nearest, a tie to the even one.
ghost use Rattle.std.specs.Prelude.{◌<◌, ◌≤◌, ◌^◌};

use std::fmt;
use std::num::f32_to_bits_with_nan;
use wire::{INFINITE, SIGN};

// The bits of 2^59: an angle of that size or more is shown by its bits.
const LONG: u32 = 1560281088;

// The bit that a float's digits begin with and its bits leave out.
const FIRST: u32 = 8388608;

// The stored power of a float that is its digits: each above it doubles them, each below it halves them.
const EVEN: u32 = 150;

// A float that is shown with four decimals.
#[derive(Clone, Copy)]
pub struct Real(pub f32);

impl fmt::Display for Real {
    fn fmt<W: fmt::Write>(&self, f: &mut fmt::Formatter<W>) -> fmt::Result {
        let bits = f32_to_bits_with_nan(self.0);
        let size = bits % SIGN;
        if INFINITE < size {
            return f.write_str("no number");
        }
        if size < bits {
            f.write_str("-")?;
        }
        if size == INFINITE {
            return f.write_str("infinite");
        }
        let parts = take_apart(size, 10000);
        write!(f, "{}.{:04}", parts.whole, parts.decimals)
    }
}

// An angle's bits, shown as a float with two decimals behind a minus or a space. Where its size is 2^59 or more, or it is no number, it is
// shown by its bits.
#[derive(Clone, Copy)]
pub struct Angle(pub u32);

impl fmt::Display for Angle {
    fn fmt<W: fmt::Write>(&self, f: &mut fmt::Formatter<W>) -> fmt::Result {
        let bits = self.0;
        let size = bits % SIGN;
        if LONG <= size {
            return write!(f, "x{bits:08x}");
        }
        let sign = if size < bits { '-' } else { ' ' };
        let parts = take_apart(size, 100);
        write!(f, "{sign}{}.{:02}", parts.whole, parts.decimals)
    }
}

// The parts of a finite float without its sign.
#[derive(Clone, Copy)]
struct Parts {
    whole: u128,
    decimals: u64,
}

// `scale` decimals make one whole.
fn take_apart(size: u32, scale: u64) -> Parts
    requires unsigned { size < 2 ^ 31 }
    requires some { 0 < scale }
    requires few { scale ≤ 10000 }
{
    let stored = size / FIRST;
    let digits = u64::from(size % FIRST);
    if EVEN <= stored {
        return Parts {
            whole: u128::from(digits + u64::from(FIRST)) << (stored - EVEN),
            decimals: 0,
        };
    }
    let units = if stored == 0 {
        halve(digits * scale, EVEN - 1)
    } else {
        halve((digits + u64::from(FIRST)) * scale, EVEN - stored)
    };
    Parts {
        whole: u128::from(units / scale),
        decimals: units % scale,
    }
}

// A number halved `times` times and rounded. Halved 63 times every such number is 0.
fn halve(n: u64, times: u32) -> u64
    requires { n < 2 ^ 62 }
{
    let by = 1u64 << times.min(63);
    let whole = n / by;
    let left = n % by;
    let half = by / 2;
    if left < half || left == half && whole % 2 == 0 {
        return whole;
    }
    whole + 1
}
