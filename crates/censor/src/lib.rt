// Message 8, the censor zones: read from a body, and written as one.
#![tactic(auto)]

ghost use Rattle.std.specs.Prelude.{◌≡◌, ◌+◌, ◌*◌, ◌-◌, ◌/◌, ◌≤◌, ◌++◌, length, replicate};
ghost use Rattle.wire.specs.Numbers.{nums};
ghost use Rattle.wire.specs.Tables.{run};
ghost use Rattle.wire.specs.Answers.{Promise};
ghost use Rattle.wire.specs.Writing.{filled, tell_write};
ghost use Rattle.censor.specs.Censor.{most_regions, region_fields, censor_of, censor_written};
ghost use Rattle.censor.specs.Steps.{region_bytes, region_broken, regions_broken};
ghost use Rattle.censor.specs.Told.{places, tell_censor, censor_shown};

use wire::Bytes;
use wire::refusal::Refusal;

const MOST_REGIONS: u16 = 25;

// Halfwords of a region, bytes of the count and of a region, and the room for the most regions.
const REGION_FIELDS: usize = 6;

const COUNT: usize = 2;

const REGION: usize = 2 * REGION_FIELDS;

pub const PLACES: usize = REGION_FIELDS * MOST_REGIONS as usize;

const RANGES: (u16, u16) = (0, 511);

const AZIMUTHS: (u16, u16) = (0, 360);

// The least and the most of each field of a region: start and stop range, start and stop azimuth, elevation segment, code.
const LIMITS: [(u16, u16); REGION_FIELDS] = [RANGES, RANGES, AZIMUTHS, AZIMUTHS, (1, 5), (0, 2)];

// The count of regions; and six halfwords for each region as stored, then 0.
// The count stands beside the places, as there is no heap, and C is handed all places as they are.
#[derive(Clone, Copy)]
pub struct Censor {
    pub count: u16,
    pub regions: [u16; PLACES],
}

// Whether one of the six fields of a region is out of its limits.
fn region_broken(region: &[u16]) -> bool
    requires { region_fields ≤ length region.now }
    ensures { result ≡ region_broken region.now }
{
    region
        .iter()
        .zip(&LIMITS)
        .any(|(x, &(least, most))| !(least..=most).contains(x))
}

// Whether one of the whole regions has such a field.
fn regions_broken(fields: &[u16]) -> bool
    ensures { result ≡ regions_broken (length fields.now / region_fields) fields.now }
{
    fields.chunks_exact(REGION_FIELDS).any(region_broken)
}

// The fields of n regions, then 0.
#[tactic(auto, using(crate::proofs::Halfwords::read_more))]
fn regions_of(body: &[u8], n: usize) -> [u16; PLACES]
    requires { (n ≤ most_regions) × (2 + region_bytes * n ≤ length body.now) }
    ensures { result ≡ nums 2 body.now 2 (region_fields * n) ++ replicate (places - region_fields * n) 0 }
{
    let mut regions = [0u16; PLACES];
    // By its index, of which the place in the body comes.
    for i in 0..REGION_FIELDS * n {
        regions[i] = wire::fetch::<u16>(body, (COUNT + 2 * i) as u32);
    }
    regions
}

#[tactic(auto, using(crate::proofs::StepLaws::reads))]
pub fn read_censor(body: &[u8]) -> Result<Censor, Refusal>
    ensures { tell_censor result ≡ censor_shown (censor_of body.now) }
{
    if body.len() < COUNT {
        return Err(Refusal::Length);
    }
    let count = wire::fetch::<u16>(body, 0);
    if MOST_REGIONS < count {
        return Err(Refusal::Field);
    }
    let n = count as usize;
    if body.len() != COUNT + REGION * n {
        return Err(Refusal::Length);
    }
    let regions = regions_of(body, n);
    if regions_broken(&regions[..REGION_FIELDS * n]) {
        return Err(Refusal::Field);
    }
    Ok(Censor { count, regions })
}

// The numbers of a list as halfwords from the output's start.
#[tactic(auto, using(crate::proofs::Halfwords::written_more))]
fn put_all(list: &[u16], out: &mut [u8])
    requires { (length list.now ≤ 1 + places) × (2 * length list.now ≤ length out.old) }
    ensures { out.new ≡ filled (run 2 list.now) out.old }
{
    for (i, x) in list.iter().enumerate() {
        wire::store::<u16>(out, 2 * i as u32, *x);
    }
}

#[tactic(auto, using(crate::proofs::StepLaws::writes))]
pub fn write_censor(list: &[u16], out: &mut [u8]) -> Result<Bytes, Refusal>
    ensures { Promise tell_write (censor_written list.now out.old) result out.new }
{
    if list.is_empty() {
        return Err(Refusal::Length);
    }
    let count = list[0];
    if MOST_REGIONS < count {
        return Err(Refusal::Field);
    }
    let n = count as usize;
    if list.len() != 1 + REGION_FIELDS * n {
        return Err(Refusal::Length);
    }
    if regions_broken(&list[1..]) {
        return Err(Refusal::Field);
    }
    let size = COUNT + REGION * n;
    if out.len() < size {
        return Err(Refusal::OutputSmall);
    }
    put_all(list, out);
    Ok(Bytes(size as u32))
}
