// The gates of a moment, and the value of a gate, as C receives them.
#![tactic(auto)]

ghost use Rattle.std.specs.Prelude.{◌≡◌};
ghost use Rattle.radial_spec.specs.Lookups.{moment_of};
ghost use Rattle.gate_value.specs.Value.{value_of, gate_of};
ghost use Rattle.gate_value.specs.Told.{tell_gate};
ghost use Rattle.c_gates.specs.Face.{gates_face, worth_face};
ghost use Rattle.c_gates.specs.Steps.{head_gates};

use gate_value::Gate;
use radial_head::{MOMENT_HEAD, MomentHead};
use wire::refusal::Refusal;

#[repr(C)]
#[derive(Clone, Copy, Default)]
pub struct UlmGates {
    pub refusal: u32,
    pub gates: u32,
    pub word: u32,
    pub scale: u32,
    pub offset: u32,
    pub first: u32,
    pub interval: u32,
    pub start: u64,
    pub size: u64,
}

#[repr(C)]
#[derive(Clone, Copy, Default)]
pub struct UlmGate {
    pub refusal: u32,
    pub kind: u32,
    pub value: f32,
}

#[tactic(auto, using(crate::proofs::GatesLaws::name_back))]
pub fn gates(body: &[u8], name: u32) -> UlmGates
    ensures { result ≡ gates_face (moment_of body.now name) }
{
    match radial::moment(body, name.to_be_bytes()) {
        Ok(head) => gates_of(head),
        Err(refusal) => UlmGates {
            refusal: refusal.number() as u32,
            ..UlmGates::default()
        },
    }
}

// The gates of the moment with this head.
fn gates_of(h: MomentHead) -> UlmGates
    ensures { result ≡ head_gates h }
{
    UlmGates {
        refusal: 0,
        gates: h.gates as u32,
        word: h.word as u32,
        scale: h.scale_bits,
        offset: h.offset_bits,
        first: h.first as u32,
        interval: h.interval as u32,
        start: h.place as u64 + MOMENT_HEAD as u64,
        size: radial_head::moment_size(h.gates, h.word) as u64 - MOMENT_HEAD as u64,
    }
}

#[tactic(auto, using(crate::proofs::GatesLaws::name_back))]
pub fn gate(body: &[u8], name: u32, gate: u64) -> UlmGate
    ensures { result ≡ worth_face (gate_of body.now name gate) }
{
    gate_face(gate_value::gate_value(body, name.to_be_bytes(), gate as usize))
}

pub fn value(code: u16, scale: u32, offset: u32) -> UlmGate
    ensures { result ≡ worth_face (value_of code scale offset) }
{
    gate_face(gate_value::value(code, scale, offset))
}

fn gate_face(answer: Result<Gate, Refusal>) -> UlmGate
    ensures { result ≡ worth_face (tell_gate answer) }
{
    match answer {
        Ok(Gate::Value(v)) => UlmGate {
            value: v,
            ..UlmGate::default()
        },
        Ok(Gate::BelowThreshold) => UlmGate {
            kind: 1,
            ..UlmGate::default()
        },
        Ok(Gate::RangeFolded) => UlmGate {
            kind: 2,
            ..UlmGate::default()
        },
        Err(refusal) => UlmGate {
            refusal: refusal.number() as u32,
            ..UlmGate::default()
        },
    }
}
