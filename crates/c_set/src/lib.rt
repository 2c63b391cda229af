// Sets as C receives them.
#![tactic(auto)]

ghost use Rattle.std.specs.Prelude.{◌≡◌};
ghost use Rattle.set_spec.specs.Walk.{set_of};
ghost use Rattle.c_lent.specs.Face.{Leaves};
ghost use Rattle.c_set.specs.Face.{set_shown, set_face};

use c_frame::UlmHeader;

#[repr(C)]
#[derive(Clone, Copy)]
pub struct UlmSet {
    pub refusal: u32,
    pub size: u32,
    pub channel: u32,
    pub kind: u32,
    pub sequence: u32,
    pub date: u32,
    pub ms: u32,
    pub segments: u32,
    pub number: u32,
    pub length: u64,
}

pub fn set(buf: &[u8], out: &mut [u8]) -> UlmSet
    ensures { Leaves set_face (set_of buf.now out.old) result out.new }
{
    match set::read_set(buf, out) {
        Ok(read) => show_set(c_frame::header_face(read.header), read.length.0 as u64),
        Err(refusal) => show_set(c_frame::no_header(refusal.number()), 0),
    }
}

fn show_set(h: UlmHeader, length: u64) -> UlmSet
    ensures { result ≡ set_shown h length }
{
    UlmSet {
        refusal: h.refusal,
        size: h.size,
        channel: h.channel,
        kind: h.kind,
        sequence: h.sequence,
        date: h.date,
        ms: h.ms,
        segments: h.segments,
        number: h.number,
        length,
    }
}
