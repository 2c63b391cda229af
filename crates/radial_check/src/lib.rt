// The check of a radial: a body of message 31 is accepted or refused by one number, block by block.
#![tactic(auto)]

ghost use Rattle.std.specs.Prelude.{◌≡◌, ◌+◌, ◌≤◌, eqb, length};
ghost use Rattle.wire.specs.Numbers.{fetched};
ghost use Rattle.wire.specs.Checks.{among};
ghost use Rattle.wire.specs.Answers.{number_of};
ghost use Rattle.wire.specs.Refusals.{number_in};
ghost use Rattle.radial_spec.specs.Description.{header_size, most_moments, word_sizes};
ghost use Rattle.radial_spec.specs.Refusal.{size_in, radial_of};
ghost use Rattle.radial_head.specs.Told.{fetched_head, key_of};
ghost use Rattle.radial_check.specs.Steps.{tell_start, tell_found, tell_got, bit_of, if_set, start_of, constant_by, constant_at};
ghost use Rattle.radial_check.specs.Steps.{constants_of, moment_in, moment_next, moments_of};

use radial_head::MOMENT_HEAD;
use wire::refusal::Refusal;

// "The header takes bytes 0 to 67"
pub const HEADER_SIZE: usize = 68;

// "The first block begins at 68 or later"
const FIRST_PLACE: usize = 68;

// Where compression, radial length, block count and the first pointer stand in the header.
const COMPRESSION_PLACE: u32 = 16;

pub const SIZE_PLACE: u32 = 18;

pub const COUNT_PLACE: u32 = 30;

pub const FIRST_POINTER: u32 = 32;

// The pointers of the three constant blocks, and the first of a moment.
pub const VOLUME_POINTER: u32 = FIRST_POINTER;

pub const ELEVATION_POINTER: u32 = VOLUME_POINTER + 4;

pub const RADIAL_POINTER: u32 = ELEVATION_POINTER + 4;

pub const MOMENT_POINTER: u32 = RADIAL_POINTER + 4;

// "The count is 4 to 9": the constant blocks, and at least one moment.
const FEWEST_BLOCKS: u16 = 4;

pub const MOST_BLOCKS: u16 = 9;

pub const CONSTANTS: u16 = 3;

// The bytes of a constant block's name and length, and where the length stands.
pub const CONSTANT_HEAD: usize = 6;

pub const LENGTH_PLACE: u32 = 4;

// "at least 44, 12 and 20"
const VOLUME_LEAST: u16 = 44;

const ELEVATION_LEAST: u16 = 12;

const RADIAL_LEAST: u16 = 20;

const MOST_GATES: u16 = 1840;

// "word size 19 (8 or 16 bits)"
const NARROW_WORD: u8 = 8;

pub const WIDE_WORD: u8 = 16;

// The names that a moment may have.
const NAMES: usize = 6;

const PERMITTED: [[u8; 4]; NAMES] = [*b"DREF", *b"DVEL", *b"DSW ", *b"DZDR", *b"DPHI", *b"DRHO"];

// What the header says: the radial length and the block count.
#[derive(Clone, Copy)]
struct Start {
    size: usize,
    count: u16,
}

// The bit of a moment's name, and where the moment ends.
#[derive(Clone, Copy)]
struct Got {
    bit: u32,
    end: usize,
}

// Checks 14 to 17.
fn begin(body: &[u8]) -> Result<Start, Refusal>
    ensures { tell_start result ≡ start_of body.now }
{
    if body.len() < HEADER_SIZE {
        return Err(Refusal::RadialShort);
    }
    if wire::fetch::<u8>(body, COMPRESSION_PLACE) != 0 {
        return Err(Refusal::Compression);
    }
    let size = wire::fetch::<u16>(body, SIZE_PLACE) as usize;
    if size < HEADER_SIZE {
        return Err(Refusal::RadialLength);
    }
    if body.len() < size {
        return Err(Refusal::RadialLength);
    }
    let count = wire::fetch::<u16>(body, COUNT_PLACE);
    if count < FEWEST_BLOCKS {
        return Err(Refusal::BlockCount);
    }
    if MOST_BLOCKS < count {
        return Err(Refusal::BlockCount);
    }
    Ok(Start { size, count })
}

// Checks a constant block at `place` in a radial of `size` bytes, by the block's first six bytes.
fn constant(head: &[u8], size: usize, place: u32, name: &[u8], least: u16) -> Result<usize, Refusal>
    ensures { tell_found result ≡ constant_by size place head.now (fetched 4 name.now 0) least }
{
    if wire::fetch::<u32>(head, 0) != wire::fetch::<u32>(name, 0) {
        return Err(Refusal::Name);
    }
    let length = wire::fetch::<u16>(head, LENGTH_PLACE);
    if length < least {
        return Err(Refusal::Block);
    }
    let end = place as usize + length as usize;
    if size < end {
        return Err(Refusal::Block);
    }
    Ok(end)
}

// 18 for a pointer that is too early or too near the end of the radial. For any other pointer the block's first bytes are in the radial.
// `size ≤ length body` stays a clause, here and of the three functions below that pass `size` on: the rule reads the body, and it reads
// the same in `&body[..size]` only after 18 is tested, so passing that part would need a proof of its own, block by block.
fn constant_at(
    body: &[u8],
    size: usize,
    from: usize,
    at: u32,
    name: &[u8],
    least: u16,
) -> Result<usize, Refusal>
    requires { (size ≤ length body.now) × (at + 4 ≤ length body.now) }
    ensures { tell_found result ≡ constant_at body.now size from at (fetched 4 name.now 0) least }
{
    let pointer = wire::fetch::<u32>(body, at);
    let place = pointer as usize;
    if place < from {
        return Err(Refusal::Pointer);
    }
    let end = place + CONSTANT_HEAD;
    if size < end {
        return Err(Refusal::Pointer);
    }
    constant(&body[place..end], size, pointer, name, least)
}

fn all_constants(body: &[u8], size: usize, first: usize) -> Result<usize, Refusal>
    requires { (header_size ≤ length body.now) × (size ≤ length body.now) × (size ≡ size_in body.now) }
    ensures { tell_found result ≡ constants_of body.now first }
{
    let volume = constant_at(body, size, first, VOLUME_POINTER, b"RVOL", VOLUME_LEAST)?;
    let elevation = constant_at(
        body,
        size,
        volume,
        ELEVATION_POINTER,
        b"RELV",
        ELEVATION_LEAST,
    )?;
    constant_at(body, size, elevation, RADIAL_POINTER, b"RRAD", RADIAL_LEAST)
}

// The bit of a permitted name: 2 to the power of its index in PERMITTED.
fn bit_of(name: u32) -> Option<u32>
    ensures { result ≡ if_set (bit_of name) }
{
    let mut bit: u32 = 1;
    for known in &PERMITTED {
        if wire::fetch::<u32>(known, 0) == name {
            return Some(bit);
        }
        bit *= 2;
    }
    None
}

fn sized(word: u8) -> bool
    ensures { result ≡ among word word_sizes }
{
    word == NARROW_WORD || word == WIDE_WORD
}

// Checks a moment at `place` in a radial of `size` bytes, by its first 28 bytes. `seen` holds the bits of the names before it.
fn moment_in(part: &[u8], size: usize, place: u32, seen: u32) -> Result<Got, Refusal>
    ensures { tell_got result ≡ moment_in size place (key_of (fetched_head part.now)) seen }
{
    let key = radial_head::key_of(part);
    let bit = bit_of(key.name).ok_or(Refusal::Name)?;
    if seen & bit != 0 {
        return Err(Refusal::Name);
    }
    if MOST_GATES < key.gates {
        return Err(Refusal::Block);
    }
    if !sized(key.word) {
        return Err(Refusal::Block);
    }
    let end = place as usize + radial_head::moment_size(key.gates, key.word) as usize;
    if size < end {
        return Err(Refusal::Block);
    }
    Ok(Got { bit, end })
}

// The fetch is from a slice of four bytes, so the compiler drops its test although it knows no bound of `at`.
fn moment_at(body: &[u8], size: usize, from: usize, at: u32, seen: u32) -> Result<Got, Refusal>
    requires { (size ≤ length body.now) × (at + 4 ≤ length body.now) }
    ensures { tell_got result ≡ moment_next body.now size from at seen }
{
    let begin = at as usize;
    let after = begin + 4;
    let pointer = wire::fetch::<u32>(&body[begin..after], 0);
    let place = pointer as usize;
    if place < from {
        return Err(Refusal::Pointer);
    }
    let end = place + MOMENT_HEAD;
    if size < end {
        return Err(Refusal::Pointer);
    }
    moment_in(&body[place..end], size, pointer, seen)
}

// Checks the moments in pointer order, each at or after the end of the block before.
fn all_moments(body: &[u8], size: usize, first: usize, count: u32) -> Result<(), Refusal>
    requires { (header_size ≤ length body.now) × (size ≤ length body.now) × (count ≤ most_moments) }
    ensures { number_in result ≡ moments_of body.now size first count }
{
    let mut seen: u32 = 0;
    let mut from = first;
    for i in 0..count {
        let found = moment_at(body, size, from, MOMENT_POINTER + 4 * i, seen)?;
        seen |= found.bit;
        from = found.end;
    }
    Ok(())
}

// The radial's checks. No byte of a gate is read.
pub fn check_radial(body: &[u8]) -> Result<(), Refusal>
    ensures { number_in result ≡ number_of (radial_of body.now) }
{
    let start = begin(body)?;
    let end = all_constants(body, start.size, FIRST_PLACE)?;
    all_moments(body, start.size, end, (start.count - CONSTANTS) as u32)
}
