// The heading of a radial: what the header of an accepted body says, handed back by value.
#![tactic(auto)]

ghost use Rattle.std.specs.Prelude.{◌≡◌, ◌≤◌, length};
ghost use Rattle.radial_spec.specs.Description.{header_size};
ghost use Rattle.radial_spec.specs.Refusal.{count_in, description, radial_of};
ghost use Rattle.radial_heading.specs.Told.{header_of, tell_heading, heading_shown};

use radial_check::{COUNT_PLACE, HEADER_SIZE, SIZE_PLACE};
use wire::refusal::Refusal;

// The header's values, as stored. Angles are given as their 32 bits.
#[derive(Clone, Copy)]
pub struct Header {
    pub station: u32,
    pub time: u32,
    pub date: u16,
    pub azimuth_number: u16,
    pub azimuth: u32,
    pub size: u16,
    pub spacing: u8,
    pub status: u8,
    pub elevation_number: u8,
    pub sector: u8,
    pub elevation: u32,
    pub spot: u8,
    pub indexing: u8,
}

// The header of an accepted radial, and its count of blocks.
#[derive(Clone, Copy)]
pub struct Heading {
    pub count: u16,
    pub header: Header,
}

// The fetches here and of the count are from a slice of known length, so the compiler drops their tests although it knows no length of
// the body.
fn header_of(body: &[u8]) -> Header
    requires { header_size ≤ length body.now }
    ensures { result ≡ header_of (description body.now) }
{
    let head = &body[..HEADER_SIZE];
    Header {
        station: wire::fetch::<u32>(head, 0),
        time: wire::fetch::<u32>(head, 4),
        date: wire::fetch::<u16>(head, 8),
        azimuth_number: wire::fetch::<u16>(head, 10),
        azimuth: wire::fetch::<u32>(head, 12),
        size: wire::fetch::<u16>(head, SIZE_PLACE),
        spacing: wire::fetch::<u8>(head, 20),
        status: wire::fetch::<u8>(head, 21),
        elevation_number: wire::fetch::<u8>(head, 22),
        sector: wire::fetch::<u8>(head, 23),
        elevation: wire::fetch::<u32>(head, 24),
        spot: wire::fetch::<u8>(head, 28),
        indexing: wire::fetch::<u8>(head, 29),
    }
}

fn count_of(body: &[u8]) -> u16
    requires { header_size ≤ length body.now }
    ensures { result ≡ count_in body.now }
{
    let begin = COUNT_PLACE as usize;
    let end = begin + 2;
    wire::fetch::<u16>(&body[begin..end], 0)
}

pub fn read_heading(body: &[u8]) -> Result<Heading, Refusal>
    ensures { tell_heading result ≡ heading_shown (radial_of body.now) }
{
    radial_check::check_radial(body)?;
    let header = header_of(body);
    Ok(Heading {
        count: count_of(body),
        header,
    })
}
