// Salvages as C receives them.
#![tactic(auto)]

ghost use Rattle.c_lent.specs.Face.{Leaves};
ghost use Rattle.salvage_spec.specs.Salvage.{salvage_of};
ghost use Rattle.c_salvage.specs.Face.{salvage_face};

#[repr(C)]
#[derive(Clone, Copy, Default)]
pub struct UlmSalvage {
    pub refusal: u32,
    pub kept: u64,
    pub length: u64,
    pub runs: u64,
}

pub fn salvage(buf: &[u8], out: &mut [u8], runs: &mut [u64]) -> UlmSalvage
    ensures { Leaves salvage_face (salvage_of buf.now out.old runs.old) result (out.new, runs.new) }
{
    match salvage::salvage(buf, out, runs) {
        Ok(s) => UlmSalvage {
            refusal: 0,
            kept: s.kept as u64,
            length: s.length as u64,
            runs: s.runs as u64,
        },
        Err(refusal) => UlmSalvage {
            refusal: refusal.number() as u32,
            ..UlmSalvage::default()
        },
    }
}
