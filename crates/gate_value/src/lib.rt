// The value of a gate: of a radial's moment, or of a code by itself.
#![tactic(auto)]

ghost use Rattle.std.specs.Prelude.{◌≡◌, false};
ghost use Rattle.wire.specs.Numbers.{num};
ghost use Rattle.wire.specs.Checks.{some_broken};
ghost use Rattle.gate_value.specs.Value.{float, not_finite, value_checks, worth_by, value_of, gate_of};
ghost use Rattle.gate_value.specs.Told.{meaning, tell_gate};

use radial::Name;
use wire::refusal::Refusal;
use wire::{INFINITE, SIGN};

// The meaning of a code.
#[derive(Clone, Copy)]
pub enum Gate {
    Value(f32),
    BelowThreshold,
    RangeFolded,
}

// The float with these 32 bits, which are those of a finite float.
fn finite_of(bits: u32) -> f32
    requires { not_finite bits ≡ false }
    ensures { result ≡ float bits }
{
    f32::from_bits(bits)
}

// The finite floats above 0 are exactly the bit patterns from 1 to the one before an infinity's.
fn breaks_value(scale: u32, offset: u32) -> bool
    ensures { result ≡ some_broken (value_checks scale offset) }
{
    scale == 0 || INFINITE <= scale || INFINITE <= offset % SIGN
}

// The meaning of a code, with a scale and an offset that are not refused.
fn worth(code: u16, scale: f32, offset: f32) -> Gate
    ensures { meaning result ≡ worth_by code scale offset }
{
    // Most codes have a value, so that is tested first.
    if 1 < code {
        return Gate::Value((code as f32 - offset) / scale);
    }
    if code == 0 {
        return Gate::BelowThreshold;
    }
    Gate::RangeFolded
}

// The meaning of a code, by the 32 bits of a moment's scale and offset: for a renderer that reads the lent gates itself.
pub fn value(code: u16, scale: u32, offset: u32) -> Result<Gate, Refusal>
    ensures { tell_gate result ≡ value_of code scale offset }
{
    if breaks_value(scale, offset) {
        return Err(Refusal::ScaleOrOffset);
    }
    Ok(worth(code, finite_of(scale), finite_of(offset)))
}

// The value of a gate (counted from 0) of the moment with a name, by the scale and the offset in the moment's head.
pub fn gate_value(body: &[u8], name: Name, gate: usize) -> Result<Gate, Refusal>
    ensures { tell_gate result ≡ gate_of body.now (num 4 name 0) gate }
{
    let found = radial::code(body, name, gate)?;
    let head = found.head;
    if breaks_value(head.scale_bits, head.offset_bits) {
        return Err(Refusal::ScaleOrOffset);
    }
    Ok(worth(found.code, head.scale, head.offset))
}
