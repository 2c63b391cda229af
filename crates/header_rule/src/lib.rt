// The rules of a message header's values, 5 to 8: each takes the values that it is about, and says whether they break it.
#![tactic(auto)]

ghost use Rattle.std.specs.Prelude.{◌≡◌};
ghost use Rattle.wire.specs.Checks.{some_broken};
ghost use Rattle.header_rule.specs.Rules.{size_checks, length_in, length_checks, long_form, form_checks, not_permitted};
ghost use Rattle.header_rule.specs.Rules.{reported_size, reported_count, reported_number, segment_checks, time_checks};

use wire::{Bytes, Halfwords, LONGEST_MESSAGE};

// The least and the greatest size of the short form in halfwords, and the same in bytes.
const LEAST_SIZE: u32 = 8;

pub const MOST_SIZE: u32 = 65534;

const LEAST_BYTES: usize = LEAST_SIZE as usize * 2;

const MOST_BYTES: usize = MOST_SIZE as usize * 2;

// The size that marks the long form, and the least length there.
pub const LONG_MARK: u32 = 65535;

const LEAST_LENGTH: u32 = 131070;

// The permitted types: 1 to 13, and three more.
const LAST_IN_ROW: u8 = 13;

const FILTER_MAP: u8 = 15;

const ADAPTATION: u8 = 18;

pub const RADIAL: u8 = 31;

pub const MOST_SEGMENTS: u16 = 128;

const SEGMENT_SIZE: u32 = 1208;

const LAST_MILLISECOND: u32 = 86399999;

// Whether the size of a message of `long` bytes is out of range or not half of `long`. A size that is half of `long` is in range where
// `long` is. The compiler drops the first test where the caller has made it.
pub fn breaks_size(size: Halfwords, long: usize) -> bool
    ensures { result ≡ some_broken (size_checks size long) }
{
    if long < LEAST_BYTES {
        return true;
    }
    if MOST_BYTES < long {
        return true;
    }
    let half = wire::to_halfwords(Bytes(long as u32));
    if half.0 != size.0 {
        return true;
    }
    long % 2 != 0
}

// Whether the size breaks its rule: in the short form by the size, in the long form by the length in the two segment fields.
pub fn breaks_form(size: Halfwords, kind: u8, high: u16, low: u16, long: usize) -> bool
    ensures { result ≡ some_broken (form_checks size kind high low long) }
{
    if size.0 != LONG_MARK {
        return breaks_size(size, long);
    }
    if kind != RADIAL {
        return false;
    }
    breaks_length(length_in(high, low), long)
}

// The length that the two segment fields hold in the long form, high half first.
fn length_in(high: u16, low: u16) -> Bytes
    ensures { result ≡ length_in high low }
{
    Bytes(high as u32 * 65536 + low as u32)
}

fn breaks_length(told: Bytes, long: usize) -> bool
    ensures { result ≡ some_broken (length_checks told long) }
{
    if told.0 % 2 != 0 {
        return true;
    }
    if told.0 < LEAST_LENGTH {
        return true;
    }
    if LONGEST_MESSAGE < told.0 {
        return true;
    }
    told.0 as usize != long
}

// The size as it is reported: in the long form half of the length.
pub fn size_of(size: Halfwords, kind: u8, high: u16, low: u16) -> Halfwords
    ensures { result ≡ reported_size size kind high low }
{
    if is_long(size, kind) {
        return wire::to_halfwords(length_in(high, low));
    }
    size
}

// N as it counts: the long form is one segment.
pub fn count_of(size: Halfwords, kind: u8, segments: u16) -> u16
    ensures { result ≡ reported_count size kind segments }
{
    if is_long(size, kind) {
        return 1;
    }
    segments
}

fn is_long(size: Halfwords, kind: u8) -> bool
    ensures { result ≡ long_form size kind }
{
    size.0 == LONG_MARK && kind == RADIAL
}

// Whether a type is not permitted. Radials are tested first because most messages are radials.
pub fn breaks_type(kind: u8) -> bool
    ensures { result ≡ not_permitted kind }
{
    if kind == RADIAL {
        return false;
    }
    if kind <= LAST_IN_ROW {
        return kind < 1;
    }
    if kind == FILTER_MAP {
        return false;
    }
    kind != ADAPTATION
}

// Whether N, the segment number or the size of a segment is out of range. Where N is 1 the segment number is not checked.
pub fn breaks_segment(size: Halfwords, kind: u8, segments: u16, number: u16) -> bool
    ensures { result ≡ some_broken (segment_checks size kind segments (reported_number segments number)) }
{
    if kind == RADIAL {
        return segments != 1;
    }
    if SEGMENT_SIZE < size.0 {
        return true;
    }
    if segments < 1 {
        return true;
    }
    if MOST_SEGMENTS < segments {
        return true;
    }
    if segments == 1 {
        return false;
    }
    if number < 1 {
        return true;
    }
    segments < number
}

// Whether a date or a time of day is out of range.
pub fn breaks_time(date: u16, milliseconds: u32) -> bool
    ensures { result ≡ some_broken (time_checks date milliseconds) }
{
    if date < 1 {
        return true;
    }
    LAST_MILLISECOND < milliseconds
}
