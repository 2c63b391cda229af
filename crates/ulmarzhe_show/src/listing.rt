// A line for each frame, or for each radial, of a recording.
use crate::date::Stamp;
use crate::recorded::{Found, Task};
use crate::why::Refused;
use frame::DATA;
use header::Header;
use header_rule::MOST_SIZE;
use radial::Radial;
use radial_check::CONSTANTS;
use radial_head::MomentHead;
use std::fmt;
use ulmarzhe_text::output::Output;
use ulmarzhe_text::page::{Letters, Page};
use ulmarzhe_text::real::Angle;
use wire::refusal::Refusal;

// A damaged place.
pub fn list_stop(place: u64, why: Refusal, out: &mut Output) {
    let refused = Refused(why);
    write!(out.page, "{place:>10}  stopped, {refused}\n");
    out.refuse();
}

pub fn list_none(place: u64, out: &mut Output) {
    write!(out.page, "{place:>10}  no radial here\n");
    out.refuse();
}

pub fn list_refused(found: Found<'_>, why: Refusal, out: &mut Output) {
    let place = found.place;
    let size = found.body.len();
    let refused = Refused(why);
    write!(out.page, "{place:>10}  data, {size} bytes, {refused}\n");
    out.refuse();
}

#[derive(Clone, Copy)]
pub struct Frames;

impl Task for Frames {
    fn take(&mut self, found: Found<'_>, out: &mut Output) {
        let place = found.place;
        let size = found.body.len();
        if found.kind != DATA {
            let name = name_of(found.kind);
            write!(out.page, "{place:>10}  {name}, {size} bytes\n");
            return;
        }
        match header::read_header(found.body).map(Heading) {
            Ok(heading) => write!(out.page, "{place:>10}  data, {size} bytes, {heading}\n"),
            Err(why) => list_refused(found, why, out),
        }
    }
}

fn name_of(kind: u32) -> &'static str {
    match kind {
        0 => "login",
        1 => "login acknowledgement",
        3 => "data acknowledgement",
        _ => "keep alive",
    }
}

// What a message's header says. One with a size that its own field cannot hold has the long form.
#[derive(Clone, Copy)]
struct Heading(Header);

impl fmt::Display for Heading {
    fn fmt<W: fmt::Write>(&self, f: &mut fmt::Formatter<W>) -> fmt::Result {
        let h = self.0;
        let stamp = Stamp {
            date: h.date,
            milliseconds: h.milliseconds,
        };
        write!(
            f,
            "type {}, sequence {}, {stamp}, segment {} of {}",
            h.kind, h.sequence, h.number, h.segments
        )?;
        if MOST_SIZE < h.size.0 {
            f.write_str(", long form")?;
        }
        Ok(())
    }
}

// A message of another type has no line. A refused message has one, since it may have been a radial.
#[derive(Clone, Copy)]
pub struct Radials;

impl Task for Radials {
    fn take(&mut self, found: Found<'_>, out: &mut Output) {
        match read(found) {
            Ok(Some(radial)) => put_radial(found.place, &radial, &mut out.page),
            Ok(None) => {}
            Err(why) => list_refused(found, why, out),
        }
    }
}

// The radial that a frame carries, if it carries one.
fn read(found: Found<'_>) -> Result<Option<Radial>, Refusal> {
    found.radial()?.map(radial::read_radial).transpose()
}

fn put_radial(place: u64, radial: &Radial, page: &mut Page) {
    write!(page, "{place:>10}  {}", Direction(radial.header));
    let count = radial.count.saturating_sub(CONSTANTS);
    for m in radial.moments.iter().take(usize::from(count)) {
        put_moment(m, page);
    }
    page.put_byte(b'\n');
}

fn put_moment(m: &MomentHead, page: &mut Page) {
    let name = m.name.to_be_bytes();
    write!(page, "  {} {} x {}", Letters(&name[1..]), m.gates, m.word);
}

// A radial's station, date and time, and where it points.
#[derive(Clone, Copy)]
struct Direction(radial_heading::Header);

impl fmt::Display for Direction {
    fn fmt<W: fmt::Write>(&self, f: &mut fmt::Formatter<W>) -> fmt::Result {
        let h = self.0;
        let stamp = Stamp {
            date: h.date,
            milliseconds: h.time,
        };
        let azimuth = Angle(h.azimuth);
        let elevation = Angle(h.elevation);
        let status = RadialStatus(h.status);
        write!(f, "{}  {stamp}  ", Letters(&h.station.to_be_bytes()))?;
        write!(f, "azimuth {} at {azimuth}  ", h.azimuth_number)?;
        write!(f, "elevation {} at {elevation}  ", h.elevation_number)?;
        write!(f, "{status}")
    }
}

const STATUSES: [&str; 6] = [
    "start of elevation",
    "intermediate",
    "end of elevation",
    "beginning of volume",
    "end of volume",
    "start of last elevation",
];

// What is added to a status where the radial's data are bad.
const BAD: u8 = 128;

// A radial's place in the elevation or the volume.
#[derive(Clone, Copy)]
struct RadialStatus(u8);

impl fmt::Display for RadialStatus {
    fn fmt<W: fmt::Write>(&self, f: &mut fmt::Formatter<W>) -> fmt::Result {
        let n = self.0;
        match STATUSES.get(usize::from(n % BAD)) {
            Some(words) if n < BAD => f.write_str(words),
            Some(words) => write!(f, "bad data, {words}"),
            None => write!(f, "status {n}"),
        }
    }
}
