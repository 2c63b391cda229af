// Frames and message headers as C receives them.
#![tactic(auto)]

ghost use Rattle.std.specs.Prelude.{◌≡◌};
ghost use Rattle.wire.specs.Answers.{refused, given};
ghost use Rattle.frame.specs.Session.{frame_at};
ghost use Rattle.header.specs.Header.{header_of};
ghost use Rattle.c_frame.specs.Face.{no_frame, frame_face, header_face};

use header::Header;

#[repr(C)]
#[derive(Clone, Copy, Default)]
pub struct UlmFrame {
    pub refusal: u32,
    pub found: u32,
    pub kind: u32,
    pub second: u32,
    pub start: u64,
    pub size: u64,
    pub next: u64,
}

#[repr(C)]
#[derive(Clone, Copy, Default)]
pub struct UlmHeader {
    pub refusal: u32,
    pub size: u32,
    pub channel: u32,
    pub kind: u32,
    pub sequence: u32,
    pub date: u32,
    pub ms: u32,
    pub segments: u32,
    pub number: u32,
}

pub fn frame(buf: &[u8], place: usize) -> UlmFrame
    ensures { result ≡ frame_face place (frame_at buf.now place) }
{
    match frame::frame_at(buf, place) {
        Ok(Some(f)) => UlmFrame {
            refusal: 0,
            found: 1,
            kind: f.kind,
            second: f.second,
            start: f.start as u64,
            size: f.size.0 as u64,
            next: f.next as u64,
        },
        Ok(None) => no_frame(0, place),
        Err(refusal) => no_frame(refusal.number(), place),
    }
}

// A number and no refusal: C has 0 at the end of a stream.
fn no_frame(number: u8, place: usize) -> UlmFrame
    ensures { result ≡ no_frame number place }
{
    UlmFrame {
        refusal: number as u32,
        next: place as u64,
        ..UlmFrame::default()
    }
}

// The header of a message of either form.
pub fn header(message: &[u8]) -> UlmHeader
    ensures { result ≡ header_face (header_of message.now) }
{
    match header::read_either(message) {
        Ok(h) => header_face(h),
        Err(refusal) => no_header(refusal.number()),
    }
}

pub fn header_face(h: Header) -> UlmHeader
    ensures { result ≡ header_face (given h) }
{
    UlmHeader {
        refusal: 0,
        size: h.size.0,
        channel: h.channel as u32,
        kind: h.kind as u32,
        sequence: h.sequence as u32,
        date: h.date as u32,
        ms: h.milliseconds,
        segments: h.segments as u32,
        number: h.number as u32,
    }
}

// Of any number, also one that is no refusal's.
pub fn no_header(number: u8) -> UlmHeader
    ensures { result ≡ header_face (refused number) }
{
    UlmHeader {
        refusal: number as u32,
        ..UlmHeader::default()
    }
}
