// Frames written: a body is cut into segments, and each becomes a data frame in the lent output.
#![tactic(auto)]

ghost use Rattle.std.specs.Prelude.{◌≡◌, ◌+◌, ◌^◌, ◌≤◌, ◌<◌, length};
ghost use Rattle.wire.specs.Answers.{Promise};
ghost use Rattle.wire.specs.Writing.{filled, tell_write};
ghost use Rattle.writer_head.specs.Head.{heads_size};
ghost use Rattle.writer.specs.Writing.{segments_of, frame_of, frames_of, longest, write_of};

use header_rule::RADIAL;
use wire::Bytes;
use wire::refusal::Refusal;
use writer_head::{Given, HEADS};

const HEADER: u32 = header::HEADER as u32;

const SEGMENT_DATA: usize = 2400;

const LONGEST_BODY: usize = 307200;

// The most data of a radial: a session body without the message header.
const LONGEST_RADIAL: usize = frame::SESSION_LIMIT as usize - header::HEADER;

// Writes the body as frames from the start of the output and reports their length. A refusal writes nothing.
pub fn write_message(given: Given, body: &[u8], out: &mut [u8]) -> Result<Bytes, Refusal>
    ensures { Promise tell_write (write_of given body.now out.old) result out.new }
{
    if header_rule::breaks_type(given.kind) {
        return Err(Refusal::Type);
    }
    if header_rule::breaks_time(given.date, given.milliseconds) {
        return Err(Refusal::DateOrTime);
    }
    if body.len() % 2 != 0 {
        return Err(Refusal::OddBody);
    }
    if longest_of(given.kind) < body.len() {
        return Err(Refusal::LongBody);
    }
    let n = segments_of(given.kind, body);
    let whole = body.len() + HEADS * n;
    if out.len() < whole {
        return Err(Refusal::OutputSmall);
    }
    write_frames(given, n as u16, body, out);
    Ok(Bytes(whole as u32))
}

fn longest_of(kind: u8) -> usize
    ensures { result ≡ (longest kind).0 }
{
    if kind == RADIAL {
        return LONGEST_RADIAL;
    }
    LONGEST_BODY
}

// The number of segments: the body's length over 2,400, rounded up, and at least 1. A radial has one.
fn segments_of(kind: u8, body: &[u8]) -> usize
    ensures { result ≡ length (segments_of kind body.now) }
{
    if kind == RADIAL {
        return 1;
    }
    body.len().div_ceil(SEGMENT_DATA).max(1)
}

// All frames from the start of the output, which has room for them. The places are counted: pieces of 2,400 bytes would give an empty body
// no frame, and cut a radial.
fn write_frames(given: Given, n: u16, body: &[u8], out: &mut [u8])
    requires { (n ≡ length (segments_of given.kind body.now)) × (length body.now < 2 ^ 31) × (length (frames_of given body.now) ≤ length out.old) }
    ensures { out.new ≡ filled (frames_of given body.now) out.old }
{
    let mut start = 0;
    let mut place = 0;
    for k in 1..n {
        let end = start + SEGMENT_DATA;
        write_frame(given, n, k, &body[start..end], &mut out[place..]);
        place += HEADS + SEGMENT_DATA;
        start = end;
    }
    write_frame(given, n, n, &body[start..], &mut out[place..]);
}

// Writes one frame at the start of a part of the output.
fn write_frame(given: Given, n: u16, k: u16, part: &[u8], out: &mut [u8])
    requires { (length part.now < 2 ^ 31) × (heads_size + length part.now ≤ length out.old) }
    ensures { out.new ≡ filled (frame_of given n k part.now) out.old }
{
    let head = writer_head::heads_of(given, n, k, Bytes(HEADER + part.len() as u32));
    let end = HEADS + part.len();
    copy::copy(&head, &mut out[..HEADS]);
    copy::copy(part, &mut out[HEADS..end]);
}
