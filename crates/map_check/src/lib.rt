// The check of a clutter filter map's azimuths: a given number of them, zone by zone.
#![tactic(auto)]

ghost use Rattle.std.specs.Prelude.{◌≡◌, ◌*◌, ◌/◌, ◌≤◌, length};
ghost use Rattle.map_spec.specs.Map.{most_zones, zone_size};
ghost use Rattle.map_spec.specs.Reading.{azimuth_part};
ghost use Rattle.wire.specs.Refusals.{number};
ghost use Rattle.map_check.specs.Told.{tell_step, part_step, run_step};
ghost use Rattle.map_check.specs.Steps.{zone_broken, next_end, CutOff};

use map_zone::{code_of, end_of};
use wire::refusal::Refusal;

pub const MOST_ZONES: usize = 20;

const MOST_CODE: u16 = 2;

pub const LAST_KILOMETRE: usize = 511;

// Bytes: of a field, and of a zone.
pub const FIELD_SIZE: usize = 2;

pub const ZONE_SIZE: usize = 2 * FIELD_SIZE;

// Whether the zone's code is out of range, or its end is below `from`.
fn zone_broken(zone: u32, from: u32) -> bool
    ensures { result ≡ zone_broken from zone }
{
    if MOST_CODE < code_of(zone) {
        return true;
    }
    (end_of(zone) as u32) < from
}

// The least end that may follow the whole zones: one more than the last end. None if a code is out of range or an end does not rise.
// Ends rise strictly, so it is enough that the last is 511. A zone is fetched a turn before it is checked: in a `for` over
// `chunks_exact`, with or without that, the check of a map with few zones to an azimuth took a quarter more time.
fn next_end(zones: &[u8]) -> Option<usize>
    ensures { result ≡ next_end (length zones.now / zone_size) 0 zones.now }
{
    if zones.len() < ZONE_SIZE {
        return Some(0);
    }
    let mut zone = wire::fetch::<u32>(zones, 0);
    let mut from: u32 = 0;
    let mut at = ZONE_SIZE;
    while at + ZONE_SIZE <= zones.len() {
        if zone_broken(zone, from) {
            return None;
        }
        from = end_of(zone) as u32 + 1;
        zone = wire::fetch::<u32>(&zones[at..at + ZONE_SIZE], 0);
        at += ZONE_SIZE;
    }
    if zone_broken(zone, from) {
        return None;
    }
    Some(end_of(zone) as usize + 1)
}

// Why zones that are cut off are refused: 24 if a field before the cut is bad, else 23.
fn cut_zones(zones: &[u8]) -> Refusal
    ensures { CutOff zones.now (number result) }
{
    let Some(end) = next_end(zones) else {
        return Refusal::Field;
    };
    if LAST_KILOMETRE + 1 < end {
        return Refusal::Field;
    }
    let at = zones.len() / ZONE_SIZE * ZONE_SIZE;
    if MOST_CODE < wire::fetch::<u16>(&zones[at..], 0) {
        return Refusal::Field;
    }
    Refusal::Length
}

// Checks the azimuth that the part begins with, its zone count and its zones, and answers the bytes that it takes.
fn check_azimuth(part: &[u8]) -> Result<usize, Refusal>
    ensures { tell_step result ≡ part_step azimuth_part part.now }
{
    if part.len() < FIELD_SIZE {
        return Err(Refusal::Length);
    }
    let count = wire::fetch::<u16>(part, 0) as usize;
    if count < 1 {
        return Err(Refusal::Field);
    }
    if MOST_ZONES < count {
        return Err(Refusal::Field);
    }
    let size = FIELD_SIZE + ZONE_SIZE * count;
    if part.len() < size {
        return Err(cut_zones(&part[FIELD_SIZE..]));
    }
    if next_end(&part[FIELD_SIZE..size]) != Some(LAST_KILOMETRE + 1) {
        return Err(Refusal::Field);
    }
    Ok(size)
}

// Checks `count` azimuths in a row from the part's start, across elevation segments, and answers the bytes that they take.
pub fn check_azimuths(part: &[u8], count: usize) -> Result<usize, Refusal>
    ensures { tell_step result ≡ run_step azimuth_part count part.now }
{
    let mut at: usize = 0;
    // Counted down: counted up, the loop over an azimuth's zones takes a byte more, and the largest map half as long again.
    for _ in (0..count).rev() {
        at += check_azimuth(&part[at..])?;
    }
    Ok(at)
}
