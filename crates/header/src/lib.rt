// The message header: the 16 bytes that a data frame's body begins with.
#![tactic(auto)]

ghost use Rattle.std.specs.Prelude.{◌≡◌, []};
ghost use Rattle.wire.specs.Numbers.{fetched};
ghost use Rattle.wire.specs.Refusals.{number_in};
ghost use Rattle.header_rule.specs.Rules.{reported_number};
ghost use Rattle.header.specs.Header.{number_place, stored_in, as_stored, as_reported, header_in, header_of};
ghost use Rattle.header.specs.Steps.{stored_or0, accepted_short, reported_short, refusal_of};
ghost use Rattle.header.specs.Told.{tell_header};

use wire::Halfwords;
use wire::refusal::Refusal;

// The values reported of a checked header. `kind` is the type of Table I: `type` is a keyword.
#[derive(Clone, Copy, Default)]
pub struct Header {
    pub size: Halfwords,
    pub channel: u8,
    pub kind: u8,
    pub sequence: u16,
    pub date: u16,
    pub milliseconds: u32,
    pub segments: u16,
    pub number: u16,
}

// The values at the start of a message as stored: not yet checked. Where N is 1 the segment number has no meaning; in the long form
// `segments` and `number` are the two halves of the length.
#[derive(Clone, Copy, Default)]
pub struct Stored {
    size: Halfwords,
    channel: u8,
    kind: u8,
    sequence: u16,
    date: u16,
    milliseconds: u32,
    segments: u16,
    number: u16,
}

pub const HEADER: usize = 16;

// Where the channel, the sequence number and the segment number begin.
const CHANNEL_PLACE: u32 = 2;

const SEQUENCE_PLACE: u32 = 4;

const NUMBER_PLACE: u32 = 14;

// The header of a message, which is a data frame's whole body. Nearly all are accepted in the short form, so that is put in line where a
// header is read; the long form and the refusals are a call away.
#[tactic(auto, using(crate::proofs::HeaderLaws::short_read))]
pub fn read_header(message: &[u8]) -> Result<Header, Refusal>
    ensures { tell_header result ≡ header_of message.now }
{
    let s = stored_in(message);
    if accepts_short(s, message.len()) {
        return Ok(report_short(message, s));
    }
    read_either(message)
}

// The same, with neither form tried first.
#[tactic(auto, using(crate::proofs::HeaderLaws::header_read, crate::proofs::HeaderLaws::header_refused))]
pub fn read_either(body: &[u8]) -> Result<Header, Refusal>
    ensures { tell_header result ≡ header_of body.now }
{
    let s = stored_in(body);
    check_header(s, body.len())?;
    Ok(report(s))
}

// The values at the start of a message, or all 0 where the message is too short for a header.
pub fn stored_in(message: &[u8]) -> Stored
    ensures { result ≡ stored_or0 message.now }
{
    if message.len() < HEADER {
        return Stored::default();
    }
    let size = wire::fetch::<u16>(message, 0) as u32;
    let channel = wire::fetch::<u8>(message, CHANNEL_PLACE);
    let kind = wire::fetch::<u8>(message, 3);
    let sequence = wire::fetch::<u16>(message, SEQUENCE_PLACE);
    let date = wire::fetch::<u16>(message, 6);
    let milliseconds = wire::fetch::<u32>(message, 8);
    let segments = wire::fetch::<u16>(message, 12);
    let number = wire::fetch::<u16>(message, NUMBER_PLACE);
    Stored {
        size: Halfwords(size),
        channel,
        kind,
        sequence,
        date,
        milliseconds,
        segments,
        number,
    }
}

// Any values taken as stored ones, also a size that no message can hold. Nothing is checked yet.
pub fn as_stored(h: Header) -> Stored
    ensures { result ≡ as_stored h }
{
    Stored {
        size: h.size,
        channel: h.channel,
        kind: h.kind,
        sequence: h.sequence,
        date: h.date,
        milliseconds: h.milliseconds,
        segments: h.segments,
        number: h.number,
    }
}

// A header of zeros, used until a header has been read.
#[tactic(auto, unfolding(crate::specs::Header::stored_in, crate::specs::Header::header_in, wire::specs::Numbers::num))]
pub fn no_header() -> Header
    ensures { result ≡ header_in [] }
{
    Header::default()
}

// Whether a message of `long` bytes with these stored values is accepted in the short form. It takes the values, not the bytes, so that
// it is small enough to be inlined wherever a header is read. The size's rule refuses 65,535, so there is no test for it.
pub fn accepts_short(s: Stored, long: usize) -> bool
    ensures { result ≡ accepted_short s long }
{
    if long < HEADER {
        return false;
    }
    if header_rule::breaks_size(s.size, long) {
        return false;
    }
    if header_rule::breaks_type(s.kind) {
        return false;
    }
    if header_rule::breaks_segment(s.size, s.kind, s.segments, s.number) {
        return false;
    }
    if header_rule::breaks_time(s.date, s.milliseconds) {
        return false;
    }
    true
}

// The header reported of the short form: the stored values s, with the segment number as reported. Channel and sequence number, which no
// rule is about, are fetched here: so the compiler loads them once all checks have passed, and has fewer registers to save.
pub fn report_short(message: &[u8], s: Stored) -> Header
    ensures { result ≡ reported_short message.now s }
{
    let size = s.size;
    let number = number_in(message, s.segments);
    Header {
        size,
        channel: wire::fetch::<u8>(message, CHANNEL_PLACE),
        kind: s.kind,
        sequence: wire::fetch::<u16>(message, SEQUENCE_PLACE),
        date: s.date,
        milliseconds: s.milliseconds,
        segments: s.segments,
        number,
    }
}

// Where N is 1 the two bytes of the number are ignored. They are fetched again here, not taken from the stored values, so that
// the compiler makes a branch of it: this is quicker where most messages have one segment.
fn number_in(message: &[u8], segments: u16) -> u16
    ensures { result ≡ reported_number segments (fetched 2 message.now number_place) }
{
    if segments != 1 {
        return wire::fetch::<u16>(message, NUMBER_PLACE);
    }
    1
}

// The checks of a message of `long` bytes with these stored values, in either form.
pub fn check_header(s: Stored, long: usize) -> Result<(), Refusal>
    ensures { number_in result ≡ refusal_of s long }
{
    if long < HEADER {
        return Err(Refusal::MessageShort);
    }
    if header_rule::breaks_form(s.size, s.kind, s.segments, s.number, long) {
        return Err(Refusal::Size);
    }
    let h = report(s);
    if header_rule::breaks_type(h.kind) {
        return Err(Refusal::Type);
    }
    if header_rule::breaks_segment(h.size, h.kind, h.segments, h.number) {
        return Err(Refusal::Segment);
    }
    if header_rule::breaks_time(h.date, h.milliseconds) {
        return Err(Refusal::DateOrTime);
    }
    Ok(())
}

// The header reported of these stored values, in either form.
fn report(s: Stored) -> Header
    ensures { result ≡ as_reported s }
{
    let size = header_rule::size_of(s.size, s.kind, s.segments, s.number);
    let segments = header_rule::count_of(s.size, s.kind, s.segments);
    let number = if segments == 1 { 1 } else { s.number };
    Header {
        size,
        channel: s.channel,
        kind: s.kind,
        sequence: s.sequence,
        date: s.date,
        milliseconds: s.milliseconds,
        segments,
        number,
    }
}
