// Message 15, the clutter filter map: a body is checked in one pass, which also tells where the azimuth asked for begins.
#![tactic(auto)]

ghost use Rattle.std.specs.Prelude.{◌≡◌, ◌≤◌};
ghost use Rattle.wire.specs.Checks.{AllHold};
ghost use Rattle.map_spec.specs.Map.{last_kilometre, code_from};
ghost use Rattle.map_spec.specs.Reading.{azimuth_part, summary_of, code_of};
ghost use Rattle.map.specs.Told.{tell_map, tell_code};
ghost use Rattle.map.specs.Steps.{tell_count, head_count, tell_found, azimuths_found, tell_checked, body_checked, asked_index};

use map_check::{FIELD_SIZE, LAST_KILOMETRE, ZONE_SIZE};
use wire::refusal::Refusal;

const MOST_MINUTES: u16 = 1440;

pub const MOST_ELEVATIONS: usize = 5;

pub const AZIMUTHS: usize = 360;

// The bytes of the fields before the azimuths.
pub const HEAD_SIZE: usize = 3 * FIELD_SIZE;

// What is told of a checked map: its date, minutes and number of elevation segments.
#[derive(Clone, Copy)]
pub struct MapSummary {
    pub date: u16,
    pub minutes: u16,
    pub elevations: u16,
}

// Azimuths that were checked: the bytes that they take, and where the one asked for begins.
#[derive(Clone, Copy)]
struct Found {
    size: usize,
    place: usize,
}

// A body that was checked: the number of its elevation segments, and where the azimuth asked for begins.
#[derive(Clone, Copy)]
struct Checked {
    elevations: usize,
    place: usize,
}

// Checks `count` azimuths in two calls: those before the index, and the rest. The azimuth with the index begins where the first call ends.
fn find_azimuth(part: &[u8], count: usize, index: usize) -> Result<Found, Refusal>
    requires { index ≤ count }
    ensures { tell_found result ≡ azimuths_found count index part.now }
{
    let place = map_check::check_azimuths(part, index)?;
    let rest = map_check::check_azimuths(&part[place..], count - index)?;
    Ok(Found {
        size: place + rest,
        place,
    })
}

// Date, minutes and the number of elevation segments.
fn check_head(body: &[u8]) -> Result<usize, Refusal>
    ensures { tell_count result ≡ head_count body.now }
{
    if body.len() < FIELD_SIZE {
        return Err(Refusal::Length);
    }
    if wire::fetch::<u16>(body, 0) < 1 {
        return Err(Refusal::Field);
    }
    if body.len() < 2 * FIELD_SIZE {
        return Err(Refusal::Length);
    }
    if MOST_MINUTES < wire::fetch::<u16>(body, 2) {
        return Err(Refusal::Field);
    }
    if body.len() < HEAD_SIZE {
        return Err(Refusal::Length);
    }
    let count = wire::fetch::<u16>(body, 4) as usize;
    if count < 1 {
        return Err(Refusal::Field);
    }
    if MOST_ELEVATIONS < count {
        return Err(Refusal::Field);
    }
    Ok(count)
}

// The whole body: the number of its elevation segments, and where the azimuth with an index begins. The index counts the azimuths of
// all elevation segments from 0.
fn check_body(body: &[u8], index: usize) -> Result<Checked, Refusal>
    ensures { tell_checked result ≡ body_checked index body.now }
{
    let elevations = check_head(body)?;
    let all = elevations * AZIMUTHS;
    let found = find_azimuth(&body[HEAD_SIZE..], all, index.min(all))?;
    if HEAD_SIZE + found.size < body.len() {
        return Err(Refusal::Length);
    }
    Ok(Checked {
        elevations,
        place: HEAD_SIZE + found.place,
    })
}

// A body 15: its date, minutes and number of elevation segments.
pub fn check_map(body: &[u8]) -> Result<MapSummary, Refusal>
    ensures { tell_map result ≡ summary_of body.now }
{
    check_body(body, 0)?;
    Ok(MapSummary {
        date: wire::fetch::<u16>(body, 0),
        minutes: wire::fetch::<u16>(body, 2),
        elevations: wire::fetch::<u16>(body, 4),
    })
}

// The code at a kilometre of a checked azimuth, which the part begins with: the code of the first zone whose end is not below it.
// Zone after zone, with no search by halves: there are 20 at most, and the part goes on past the azimuth.
fn zone_code(part: &[u8], kilometre: usize) -> u16
    requires { AllHold (azimuth_part.checks part.now) × (kilometre ≤ last_kilometre) }
    ensures { result ≡ code_from 0 (azimuth_part.read part.now) kilometre }
{
    for bytes in part[FIELD_SIZE..].chunks_exact(ZONE_SIZE) {
        let zone = wire::fetch::<u32>(bytes, 0);
        if kilometre <= map_zone::end_of(zone) as usize {
            return map_zone::code_of(zone);
        }
    }
    0
}

// The index of the azimuth asked for, over all elevation segments from 0, if some map has such an azimuth.
fn index_of(elevation: usize, azimuth: usize) -> Option<usize>
    ensures { result ≡ asked_index elevation azimuth }
{
    if elevation == 0 || MOST_ELEVATIONS < elevation || AZIMUTHS <= azimuth {
        return None;
    }
    Some((elevation - 1) * AZIMUTHS + azimuth)
}

// The code at an elevation segment (from 1), azimuth and kilometre of a body 15, which are no struct, since C passes each.
pub fn code_at(
    body: &[u8],
    elevation: usize,
    azimuth: usize,
    kilometre: usize,
) -> Result<u16, Refusal>
    ensures { tell_code result ≡ code_of body.now elevation azimuth kilometre }
{
    let index = index_of(elevation, azimuth);
    let checked = check_body(body, index.unwrap_or(0))?;
    if index.is_none() || checked.elevations < elevation || LAST_KILOMETRE < kilometre {
        return Err(Refusal::AskedFor);
    }
    let code = zone_code(&body[checked.place..], kilometre);
    Ok(code)
}
