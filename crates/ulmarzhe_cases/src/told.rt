// What is told of an answer. Bytes follow where the text ends in `x`, blocks after a radial, runs after the bytes of a salvage.
use compare::Comparison;
use frame::Frame;
use gate_value::Gate;
use header::Header;
use map::MapSummary;
use radial::{Lying, RadialBlock};
use radial_head::MomentHead;
use salvage::Salvaged;
use std::fmt;
use std::num::f32_to_bits_with_nan;
use wire::refusal::Refusal;

#[derive(Clone, Copy)]
pub enum Told {
    Refused(Refusal),
    // A refusal changed a byte that was lent, or an acceptance one past its length.
    Touched,
    End,
    Frame(Frame),
    Header(Header),
    Set(Header),
    Wrote,
    Radial(radial_heading::Header, u16),
    Block(RadialBlock),
    NoBlock,
    Gates,
    Gate(Gate),
    Request(u16),
    Censor(u16),
    Map(MapSummary),
    Code(u16),
    Compared(Comparison),
    Salvaged(Salvaged),
}

impl fmt::Display for Told {
    fn fmt<W: fmt::Write>(&self, f: &mut fmt::Formatter<W>) -> fmt::Result {
        match *self {
            Told::Refused(r) => write!(f, "no {}", r.number()),
            Told::Touched => f.write_str("touched"),
            Told::End => f.write_str("end"),
            Told::Frame(frame) => write_frame(f, frame),
            Told::Header(h) => write!(f, "header {}", Fields(h)),
            Told::Set(h) => write!(f, "set {} x", Fields(h)),
            Told::Wrote => f.write_str("wrote x"),
            Told::Radial(h, count) => write_radial(f, h, count),
            Told::Block(RadialBlock::Constant(l)) => write_constant(f, l),
            Told::Block(RadialBlock::Moment(l, m)) => write_moment(f, l, m),
            Told::NoBlock => f.write_str("no 0"),
            Told::Gates => f.write_str("gates x"),
            Told::Gate(Gate::BelowThreshold) => f.write_str("below"),
            Told::Gate(Gate::RangeFolded) => f.write_str("folded"),
            Told::Gate(Gate::Value(x)) => write!(f, "value x{:08x}", f32_to_bits_with_nan(x)),
            Told::Request(code) => write!(f, "request {code}"),
            Told::Censor(count) => write!(f, "censor {count} x"),
            Told::Map(m) => write!(f, "map {} {} {}", m.date, m.minutes, m.elevations),
            Told::Code(code) => write!(f, "code {code}"),
            Told::Compared(c) => write_comparison(f, c),
            Told::Salvaged(s) => write!(f, "salvaged {} {} x", s.kept, s.runs),
        }
    }
}

// The fields of a message header.
#[derive(Clone, Copy)]
struct Fields(Header);

impl fmt::Display for Fields {
    fn fmt<W: fmt::Write>(&self, f: &mut fmt::Formatter<W>) -> fmt::Result {
        let h = self.0;
        write!(f, "{} {} {} {}", h.size.0, h.channel, h.kind, h.sequence)?;
        write!(
            f,
            " {} {} {} {}",
            h.date, h.milliseconds, h.segments, h.number
        )
    }
}

fn write_frame<W: fmt::Write>(f: &mut fmt::Formatter<W>, frame: Frame) -> fmt::Result {
    write!(f, "frame {} {} {}", frame.kind, frame.second, frame.start)?;
    write!(f, " {} {}", frame.size.0, frame.next)
}

fn write_radial<W: fmt::Write>(
    f: &mut fmt::Formatter<W>,
    h: radial_heading::Header,
    count: u16,
) -> fmt::Result {
    write!(f, "radial x{:08x} {} {}", h.station, h.time, h.date)?;
    write!(f, " {} x{:08x} {}", h.azimuth_number, h.azimuth, h.size)?;
    write!(
        f,
        " {} {} {} {}",
        h.spacing, h.status, h.elevation_number, h.sector
    )?;
    write!(f, " x{:08x} {} {} {count}", h.elevation, h.spot, h.indexing)
}

fn write_constant<W: fmt::Write>(f: &mut fmt::Formatter<W>, l: Lying) -> fmt::Result {
    write!(f, " | {} {} x{:08x}", l.place, l.size, l.name)
}

fn write_moment<W: fmt::Write>(f: &mut fmt::Formatter<W>, l: Lying, m: MomentHead) -> fmt::Result {
    write_constant(f, l)?;
    write!(
        f,
        " x{:08x} {} {} {}",
        m.reserved, m.gates, m.first, m.interval
    )?;
    write!(f, " {} {} {} {}", m.overlay, m.noise, m.flags, m.word)?;
    write!(f, " x{:08x} x{:08x}", m.scale_bits, m.offset_bits)
}

fn write_comparison<W: fmt::Write>(f: &mut fmt::Formatter<W>, c: Comparison) -> fmt::Result {
    write!(
        f,
        "compare {} {} {} x",
        c.old_elevations, c.new_elevations, c.differences
    )
}
