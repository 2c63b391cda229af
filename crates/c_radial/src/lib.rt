// Radials and their blocks as C receives them.
#![tactic(auto)]

ghost use Rattle.std.specs.Prelude.{◌≡◌};
ghost use Rattle.radial_spec.specs.Refusal.{radial_of};
ghost use Rattle.radial_spec.specs.Lookups.{block_of};
ghost use Rattle.c_radial.specs.Face.{radial_face, constant_face, block_face};
ghost use Rattle.c_radial.specs.Steps.{heading_face, head_face};

use radial::{Lying, RadialBlock};
use radial_head::MomentHead;
use radial_heading::Heading;

#[repr(C)]
#[derive(Clone, Copy, Default)]
pub struct UlmRadial {
    pub refusal: u32,
    pub station: u32,
    pub time: u32,
    pub date: u32,
    pub azimuth_number: u32,
    pub azimuth: u32,
    pub radial_length: u32,
    pub spacing: u32,
    pub status: u32,
    pub elevation_number: u32,
    pub sector: u32,
    pub elevation: u32,
    pub blanking: u32,
    pub indexing: u32,
    pub blocks: u32,
}

#[repr(C)]
#[derive(Clone, Copy, Default)]
pub struct UlmBlock {
    pub refusal: u32,
    pub found: u32,
    pub name: u32,
    pub reserved: u32,
    pub gates: u32,
    pub first: u32,
    pub interval: u32,
    pub overlay: u32,
    pub noise: u32,
    pub flags: u32,
    pub word: u32,
    pub scale: u32,
    pub offset: u32,
    pub start: u64,
    pub size: u64,
}

pub fn radial(body: &[u8]) -> UlmRadial
    ensures { result ≡ radial_face (radial_of body.now) }
{
    match radial_heading::read_heading(body) {
        Ok(heading) => heading_face(heading),
        Err(refusal) => UlmRadial {
            refusal: refusal.number() as u32,
            ..UlmRadial::default()
        },
    }
}

fn heading_face(heading: Heading) -> UlmRadial
    ensures { result ≡ heading_face heading }
{
    let h = heading.header;
    UlmRadial {
        refusal: 0,
        station: h.station,
        time: h.time,
        date: h.date as u32,
        azimuth_number: h.azimuth_number as u32,
        azimuth: h.azimuth,
        radial_length: h.size as u32,
        spacing: h.spacing as u32,
        status: h.status as u32,
        elevation_number: h.elevation_number as u32,
        sector: h.sector as u32,
        elevation: h.elevation,
        blanking: h.spot as u32,
        indexing: h.indexing as u32,
        blocks: heading.count as u32,
    }
}

pub fn block(body: &[u8], block: u32) -> UlmBlock
    ensures { result ≡ block_face (block_of body.now block) }
{
    match radial::block(body, block) {
        Ok(Some(RadialBlock::Constant(k))) => constant_block(k),
        Ok(Some(RadialBlock::Moment(k, h))) => moment_block(k, h),
        Ok(None) => UlmBlock::default(),
        Err(refusal) => UlmBlock {
            refusal: refusal.number() as u32,
            ..UlmBlock::default()
        },
    }
}

fn constant_block(k: Lying) -> UlmBlock
    ensures { result ≡ constant_face k.name k.place k.size }
{
    UlmBlock {
        found: 1,
        name: k.name,
        start: k.place as u64,
        size: k.size as u64,
        ..UlmBlock::default()
    }
}

fn moment_block(k: Lying, h: MomentHead) -> UlmBlock
    ensures { result ≡ head_face k h }
{
    UlmBlock {
        reserved: h.reserved,
        gates: h.gates as u32,
        first: h.first as u32,
        interval: h.interval as u32,
        overlay: h.overlay as u32,
        noise: h.noise as u32,
        flags: h.flags as u32,
        word: h.word as u32,
        scale: h.scale_bits,
        offset: h.offset_bits,
        ..constant_block(k)
    }
}
