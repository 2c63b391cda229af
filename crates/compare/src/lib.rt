// Two clutter filter maps compared: both are checked, their differences counted and, where the output has room for all of them, listed.
#![tactic(auto)]

ghost use Rattle.std.specs.Prelude.{◌≡◌, ◌+◌, ◌-◌, ◌*◌, ◌≤◌, true, [], ◌∷◌, ltb, leb, eqb, length};
ghost use Rattle.form_spec.specs.Parts.{run_size};
ghost use Rattle.wire.specs.Answers.{Promise};
ghost use Rattle.wire.specs.Numbers.{num};
ghost use Rattle.wire.specs.Checks.{pick, AllHold};
ghost use Rattle.wire.specs.Sheets.{sheet};
ghost use Rattle.map_spec.specs.Map.{kilometres, zone_size, most_azimuth_size};
ghost use Rattle.map_spec.specs.Reading.{azimuth_part, map_in};
ghost use Rattle.compare_spec.specs.Differences.{differences};
ghost use Rattle.compare_spec.specs.Comparing.{difference_size, comparison_of};
ghost use Rattle.compare.specs.Told.{tell_compare};
ghost use Rattle.compare.specs.Steps.{most_counted, listing, one_if, zones_differences, size_fetched, list_of, Same, Counts, Checked};

use map::{AZIMUTHS, HEAD_SIZE, MOST_ELEVATIONS};
use map_check::{FIELD_SIZE, LAST_KILOMETRE, MOST_ZONES, ZONE_SIZE};
use map_zone::{code_of, end_of};
use wire::refusal::Refusal;

// The halfwords that a difference takes.
const DIFFERENCE_SIZE: usize = 6;

// Each zone of either azimuth may begin a run. The first zones of both begin the same run, hence one less.
const MOST_RUNS: usize = 2 * MOST_ZONES - 1;

// Room in halfwords for the most differences that two maps can have.
pub const MOST: usize = DIFFERENCE_SIZE * (MOST_ELEVATIONS * (AZIMUTHS * MOST_RUNS));

// Two maps compared: the elevation segments of either, and the number of differences.
#[derive(Clone, Copy)]
pub struct Comparison {
    pub old_elevations: u16,
    pub new_elevations: u16,
    pub differences: u32,
}

// Azimuths in a row: how many, and how many bytes they take.
#[derive(Clone, Copy)]
struct Run {
    azimuths: usize,
    bytes: usize,
}

// An azimuth of both maps: its elevation segment, counted from 1, and its number there.
#[derive(Clone, Copy)]
struct Place {
    elevation: u16,
    azimuth: u16,
}

// The kilometres from `first` to before `next`, at which the codes of both maps stay the same.
#[derive(Clone, Copy)]
struct Stretch {
    first: u16,
    next: u16,
    old: u16,
    new: u16,
}

// The place of the zone that covers the next kilometre: the same place, or the next zone's if this zone ends here.
fn past(at: usize, end: u16, kilometre: u16) -> usize
    requires { at ≤ most_azimuth_size }
    ensures { result ≡ pick (eqb end kilometre) (at + zone_size) at }
{
    if end == kilometre {
        return at + ZONE_SIZE;
    }
    at
}

// The first kilometre of the stretch that has `next` in it: `next` if the stretch before ends there, else `first`.
fn begun(ends: bool, first: u16, next: u16) -> u16
    ensures { result ≡ pick ends next first }
{
    if ends {
        return next;
    }
    first
}

// A stretch as a difference, stored in six halfwords. `copy_from_slice` of an array would store them twice, in the array first.
fn put(out: &mut [u16], place: Place, stretch: Stretch)
    requires { (length out.old ≡ difference_size) × (1 ≤ stretch.next) }
    ensures { out.new ≡ place.elevation ∷ place.azimuth ∷ stretch.first ∷ (stretch.next - 1) ∷ stretch.old ∷ stretch.new ∷ [] }
{
    out[0] = place.elevation;
    out[1] = place.azimuth;
    out[2] = stretch.first;
    out[3] = stretch.next - 1;
    out[4] = stretch.old;
    out[5] = stretch.new;
}

// Counts a stretch if `lists` is true, and lists it where there is room, in six halfwords.
// Room is tested first: while differences are counted there is none, and so no branch on `lists`.
// `count` stands beside `out`, and not in an iterator over it, as it goes on where there is no room.
fn list(out: &mut [u16], count: usize, lists: bool, place: Place, stretch: Stretch) -> usize
    requires { (count ≤ most_counted) × (lists ≡ true → 1 ≤ stretch.next) }
    ensures { sheet (difference_size * result) out.new ≡ listing (one_if lists place.elevation place.azimuth stretch.first stretch.next stretch.old stretch.new) (sheet (difference_size * count) out.old) }
{
    let at = DIFFERENCE_SIZE * count;
    let end = at + DIFFERENCE_SIZE;
    if out.len() < end {
        return count + lists as usize;
    }
    if !lists {
        return count;
    }
    put(&mut out[at..end], place, stretch);
    count + 1
}

// Fetches four bytes as one number, such as a zone's code and end. The compiler knows the length of the slice, so it drops the
// fetch's own test.
fn four_at(part: &[u8], at: usize) -> u32
    requires { at + zone_size ≤ length part.now }
    ensures { result ≡ num zone_size part.now at }
{
    wire::fetch::<u32>(&part[at..at + ZONE_SIZE], 0)
}

// Compares the azimuth at the start of both parts. The zones of both are walked together, from one end to the next end of either.
// Branches on which end comes first and where a stretch ends would mispredict: the only one is in `list`, where there is room.
fn compare_zones(old: &[u8], new: &[u8], place: Place, out: &mut [u16], count: usize) -> usize
    requires { AllHold (azimuth_part.checks old.now) × AllHold (azimuth_part.checks new.now) × (count + kilometres ≤ most_counted) }
    ensures { sheet (difference_size * result) out.new ≡ listing (zones_differences place.elevation place.azimuth old.now new.now) (sheet (difference_size * count) out.old) }
{
    let mut i = FIELD_SIZE;
    let mut j = FIELD_SIZE;
    let mut open = Stretch {
        first: 0,
        next: 0,
        old: code_of(four_at(old, i)),
        new: code_of(four_at(new, j)),
    };
    let mut listed = count;
    while open.next as usize <= LAST_KILOMETRE {
        let zone_old = four_at(old, i);
        let zone_new = four_at(new, j);
        let code = code_of(zone_old);
        let other = code_of(zone_new);
        let ends = (open.old != code) | (open.new != other);
        let lists = ends & (open.old != open.new);
        listed = list(out, listed, lists, place, open);
        let end_old = end_of(zone_old);
        let end_new = end_of(zone_new);
        let end = end_old.min(end_new);
        i = past(i, end_old, end);
        j = past(j, end_new, end);
        open = Stretch {
            first: begun(ends, open.first, open.next),
            next: end + 1,
            old: code,
            new: other,
        };
    }
    let lists = open.old != open.new;
    list(out, listed, lists, place, open)
}

// The size in bytes of the azimuth that a part begins with.
fn size_of(part: &[u8]) -> usize
    ensures { result ≡ size_fetched part.now }
{
    FIELD_SIZE + ZONE_SIZE * wire::fetch::<u16>(part, 0) as usize
}

// How many bytes at the start of two parts are the same, in steps of four. Up to seven bytes at the end may not be compared.
// Two fours a turn, and not an iterator over one four: docs/SPEED.md has the times.
fn same_bytes(old: &[u8], new: &[u8]) -> usize
    ensures { (result ≤ length old.now) × (result ≤ length new.now) × Same result old.now new.now }
{
    let turns = old.len().min(new.len()) / (2 * ZONE_SIZE);
    for turn in 0..turns {
        let at = 2 * ZONE_SIZE * turn;
        if four_at(old, at) != four_at(new, at) {
            return at;
        }
        let next = at + ZONE_SIZE;
        if four_at(old, next) != four_at(new, next) {
            return next;
        }
    }
    2 * ZONE_SIZE * turns
}

// The azimuths that lie wholly in the first `same` bytes of a part, at most `most` of them, and the bytes that they take.
fn pass(part: &[u8], same: usize, most: usize) -> Run
    requires { same ≤ length part.now }
    ensures { (result.azimuths ≤ most) × (result.bytes ≤ same) × (result.bytes ≡ run_size azimuth_part result.azimuths part.now) }
{
    let mut at: usize = 0;
    for count in 0..most {
        let size = size_of(&part[at..]);
        if same - at < size {
            return Run {
                azimuths: count,
                bytes: at,
            };
        }
        at += size;
    }
    Run {
        azimuths: most,
        bytes: at,
    }
}

// Compares the azimuths of the first `elevations` elevation segments. Most are the same: one loop finds how many bytes are equal,
// and the azimuths in these bytes are skipped by their sizes. A `while`, as both places and the index move by what each turn finds.
fn compare_azimuths(old: &[u8], new: &[u8], elevations: u16, out: &mut [u16]) -> usize
    requires { Checked elevations old.now new.now }
    ensures { sheet (difference_size * result) out.new ≡ listing (differences (map_in old.now) (map_in new.now)) (sheet 0 out.old) }
{
    let total = AZIMUTHS * elevations as usize;
    let mut index: usize = 0;
    let mut i = HEAD_SIZE;
    let mut j = HEAD_SIZE;
    let mut count: usize = 0;
    while index < total {
        let same = same_bytes(&old[i..], &new[j..]);
        let run = pass(&old[i..], same, total - index);
        i += run.bytes;
        j += run.bytes;
        index += run.azimuths;
        if index < total {
            let place = Place {
                elevation: (1 + index / AZIMUTHS) as u16,
                azimuth: (index % AZIMUTHS) as u16,
            };
            count = compare_zones(&old[i..], &new[j..], place, out, count);
            i += size_of(&old[i..]);
            j += size_of(&new[j..]);
            index += 1;
        }
    }
    count
}

// Whether there is room for all differences. With room for the most that two maps can have, they need not be counted.
fn has_room(old: &[u8], new: &[u8], elevations: u16, out: &mut [u16]) -> bool
    requires { Checked elevations old.now new.now }
    ensures { (result ≡ leb (length (list_of old.now new.now)) (length out.old)) × (out.new ≡ out.old) }
{
    if MOST <= out.len() {
        return true;
    }
    let count = compare_azimuths(old, new, elevations, &mut out[0..0]);
    DIFFERENCE_SIZE * count <= out.len()
}

// Compares two checked bodies with these numbers of elevation segments.
fn compare_checked(
    old: &[u8],
    new: &[u8],
    older: u16,
    newer: u16,
    out: &mut [u16],
) -> Result<Comparison, Refusal>
    requires { Counts older old.now × Counts newer new.now }
    ensures { Promise tell_compare (comparison_of old.now new.now out.old) result out.new }
{
    let elevations = older.min(newer);
    if !has_room(old, new, elevations, out) {
        return Err(Refusal::OutputSmall);
    }
    let count = compare_azimuths(old, new, elevations, out);
    Ok(Comparison {
        old_elevations: older,
        new_elevations: newer,
        differences: count as u32,
    })
}

// Compares two bodies 15: reports their elevation segments and the number of differences, and lists each as six halfwords.
pub fn compare(old: &[u8], new: &[u8], out: &mut [u16]) -> Result<Comparison, Refusal>
    ensures { Promise tell_compare (comparison_of old.now new.now out.old) result out.new }
{
    let older = map::check_map(old)?.elevations;
    let newer = map::check_map(new)?.elevations;
    compare_checked(old, new, older, newer, out)
}
