// The numbers of a message: of one, two or four bytes, the high byte first.
ghost use Rattle.std.specs.Prelude.{◌≡◌, ℕ, ◌+◌, ◌*◌, ◌/◌, ◌%◌, ◌≤◌, length};
ghost use Rattle.std.proofs.Common.{rules};
ghost use Rattle.wire.specs.Numbers.{num, be};
ghost use Rattle.wire.specs.Sheets.{laid};

pub trait Number: Copy {
    // How many bytes the number takes, and which number it is.
    ghost WIDTH: { ℕ };

    ghost value: { Self → ℕ };

    const WIDTH: usize;

    fn zero() -> Self
        ensures { value result ≡ 0 };

    // The number whose bytes begin at a place.
    fn whole(b: &[u8], at: usize) -> Self
        requires { at + WIDTH ≤ length b.now }
        ensures { value result ≡ num WIDTH b.now at };

    // Puts the number's bytes at a place.
    fn put(self, out: &mut [u8], at: usize)
        requires { at + WIDTH ≤ length out.old }
        ensures { out.new ≡ laid out.old at (be WIDTH (value self)) };

    ghost narrow: { WIDTH ≤ 8 };

    ghost apart: { (x y : Self) → value x ≡ value y → x ≡ y };
}

impl Number for u8 {
    ghost WIDTH = { 1 };

    ghost value = { λ x. x };

    const WIDTH: usize = 1;

    fn zero() -> u8 {
        0
    }

    fn whole(b: &[u8], at: usize) -> u8 {
        b[at]
    }

    fn put(self, out: &mut [u8], at: usize) {
        out[at] = self;
    }

    ghost narrow = { Prim.search rules };

    ghost apart = { λ x y e. e };
}

impl Number for u16 {
    ghost WIDTH = { 2 };

    ghost value = { λ x. x };

    const WIDTH: usize = 2;

    fn zero() -> u16 {
        0
    }

    // The bytes are taken lowest first, as the machine loads them, and then exchanged. So the compiler compares a number with a constant
    // where it lies, by exchanging the constant's bytes instead.
    fn whole(b: &[u8], at: usize) -> u16 {
        exchanged(b[at] as u16 + b[at + 1] as u16 * 256)
    }

    fn put(self, out: &mut [u8], at: usize) {
        out[at] = (self / 256 % 256) as u8;
        out[at + 1] = (self % 256) as u8;
    }

    ghost narrow = { Prim.search rules };

    ghost apart = { λ x y e. e };
}

impl Number for u32 {
    ghost WIDTH = { 4 };

    ghost value = { λ x. x };

    const WIDTH: usize = 4;

    fn zero() -> u32 {
        0
    }

    // Two halves, of which the compiler makes one load and one exchange.
    fn whole(b: &[u8], at: usize) -> u32 {
        let high = u16::whole(b, at);
        let low = u16::whole(b, at + 2);
        high as u32 * 65536 + low as u32
    }

    fn put(self, out: &mut [u8], at: usize) {
        out[at] = (self / 256 / 256 / 256 % 256) as u8;
        out[at + 1] = (self / 256 / 256 % 256) as u8;
        out[at + 2] = (self / 256 % 256) as u8;
        out[at + 3] = (self % 256) as u8;
    }

    ghost narrow = { Prim.search rules };

    ghost apart = { λ x y e. e };
}

// The two bytes of a number in the other order. It is a function by itself so that the compiler knows it for one instruction before it
// sees where the bytes come from.
fn exchanged(x: u16) -> u16
    ensures { result ≡ x % 256 * 256 + x / 256 }
{
    x % 256 * 256 + x / 256
}
