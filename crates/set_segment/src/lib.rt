// The segment at a place of a buffer: a data frame with a header that passes.
#![tactic(auto)]

ghost use Rattle.std.specs.Prelude.{◌≡◌};
ghost use Rattle.set_spec.specs.Segment.{segment_at};
ghost use Rattle.set_segment.specs.Told.{tell_segment};

use frame::DATA;
use header::{HEADER, Header};
use wire::refusal::Refusal;

// A segment in the buffer: its header, where its data begins, and where its frame ends.
#[derive(Clone, Copy)]
pub struct Segment {
    pub header: Header,
    pub start: usize,
    pub next: usize,
}

// The segment at a place of the buffer. At the end of the buffer this is refused as a frame that is cut off.
pub fn segment_at(frames: &[u8], at: usize) -> Result<Segment, Refusal>
    ensures { tell_segment result ≡ segment_at frames.now at }
{
    let f = frame::frame_at(frames, at)?.ok_or(Refusal::FrameCutOff)?;
    if f.kind != DATA {
        return Err(Refusal::NotData);
    }
    let next = f.next;
    let header = header::read_header(&frames[f.start..next])?;
    // Field by field: copied whole, the last two fields are put together in memory and loaded as one number, which the processor waits for.
    let header = Header {
        number: header.number,
        ..header
    };
    Ok(Segment {
        header,
        start: f.start + HEADER,
        next,
    })
}
