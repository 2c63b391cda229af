// The session frame: a stream is read from a place in a lent buffer.
#![tactic(auto)]

ghost use Rattle.std.specs.Prelude.{◌≡◌, ◌+◌, ◌^◌, ◌<◌, length};
ghost use Rattle.wire.specs.Answers.{rule};
ghost use Rattle.frame.specs.Session.{frame, frame_checks, frame_in, frame_at};
ghost use Rattle.frame.specs.Told.{tell_frame};

use wire::Bytes;
use wire::refusal::Refusal;

// A frame as it stands in the buffer: its body begins at `start`, the next frame at `next`.
#[derive(Clone, Copy)]
pub struct Frame {
    pub kind: u32,
    pub second: u32,
    pub start: usize,
    pub size: Bytes,
    pub next: usize,
}

// The bytes before a frame's body.
pub const HEAD: usize = 12;

const LAST_KIND: u32 = 4;

// The kind of a data frame.
pub const DATA: u32 = 2;

// The most bytes of a frame's body.
pub const SESSION_LIMIT: u32 = wire::LONGEST_MESSAGE;

// The bytes of the longest frame.
pub const LONGEST: usize = HEAD + SESSION_LIMIT as usize;

// The frame at a place of the stream, or None at its end. The caller keeps the place: a refused read does not change it.
#[tactic(auto, unfolding(crate::specs::Session::frame_at))]
pub fn frame_at(stream: &[u8], place: usize) -> Result<Option<Frame>, Refusal>
    ensures { tell_frame result ≡ frame_at stream.now place }
{
    if place == stream.len() {
        return Ok(None);
    }
    if stream.len() < place {
        return Err(Refusal::FrameCutOff);
    }
    frame_in(&stream[place..], place)
}

#[tactic(auto, using(wire::proofs::NumberLaws::number_is))]
fn frame_in(rest: &[u8], place: usize) -> Result<Option<Frame>, Refusal>
    requires { place + length rest.now < 2 ^ 63 }
    ensures { tell_frame result ≡ rule (frame_checks rest.now) (frame (frame_in rest.now place)) }
{
    if rest.len() < HEAD {
        return Err(Refusal::FrameCutOff);
    }
    let kind = wire::fetch::<u32>(rest, 0);
    if LAST_KIND < kind {
        return Err(Refusal::SessionKind);
    }
    let size = wire::fetch::<u32>(rest, 8);
    if SESSION_LIMIT < size {
        return Err(Refusal::SessionBody);
    }
    let long = size as usize;
    if rest.len() - HEAD < long {
        return Err(Refusal::FrameCutOff);
    }
    let second = wire::fetch::<u32>(rest, 4);
    let start = place + HEAD;
    Ok(Some(Frame {
        kind,
        second,
        start,
        size: Bytes(size),
        next: start + long,
    }))
}
