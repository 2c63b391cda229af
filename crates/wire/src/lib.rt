// Bytes and numbers: counts of bytes and of halfwords, fetch and store of a number, the answers of writers, and the refusals by name.
#![tactic(auto)]

ghost use Rattle.std.specs.Prelude.{◌≡◌, ◌+◌};
ghost use Rattle.std.specs.Float.{binary32};
ghost use Rattle.std.specs.Float.Ieee.{of_bits};
ghost use Rattle.wire.specs.Numbers.{fetched, stored};
ghost use Rattle.wire.specs.Sizes.{halved};

mod number;
pub mod refusal;

use number::Number;

// A count of bytes and a count of halfwords are different types. Only `to_halfwords` converts between them.
#[derive(Clone, Copy, Default)]
pub struct Bytes(pub u32);

#[derive(Clone, Copy, Default)]
pub struct Halfwords(pub u32);

// The most bytes of a message, which are also the most of a session's body.
pub const LONGEST_MESSAGE: u32 = 1048576;

pub fn to_halfwords(size: Bytes) -> Halfwords
    ensures { result ≡ halved size }
{
    Halfwords(size.0 / 2)
}

// The number at a place, or 0 where its bytes are not all there.
pub fn fetch<N: Number>(b: &[u8], at: u32) -> N
    ensures { N.value result ≡ fetched N.WIDTH b.now at }
{
    let place = at as usize;
    if place + N::WIDTH <= b.len() {
        return N::whole(b, place);
    }
    N::zero()
}

// A number stored at a place, or nothing where its bytes have no room.
pub fn store<N: Number>(out: &mut [u8], at: u32, x: N)
    ensures { out.new ≡ stored N.WIDTH out.old at (N.value x) }
{
    let place = at as usize;
    if place + N::WIDTH <= out.len() {
        x.put(out, place);
    }
}

// The 32 bits of an infinity without the sign, above which are those of NaN; and the value of the sign bit.
pub const INFINITE: u32 = 2139095040;

pub const SIGN: u32 = 2147483648;

// The float with these 32 bits, for every pattern. All patterns of NaN give the same NaN.
pub fn float_of(bits: u32) -> f32
    ensures { result ≡ of_bits binary32 bits }
{
    if bits % SIGN <= INFINITE {
        f32::from_bits(bits)
    } else {
        0.0f32 / 0.0f32
    }
}
