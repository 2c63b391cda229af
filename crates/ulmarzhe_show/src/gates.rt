// The gates of one moment of one radial, a line each: gate, range, code and value.
use crate::moments::Moment;
use crate::recorded::{Fault, Found, RECORDING, Walk};
use crate::{listing, picture};
use gate_value::Gate;
use radial_head::MomentHead;
use std::fmt;
use ulmarzhe_text::output::Output;
use ulmarzhe_text::page::PAGE;
use ulmarzhe_text::real::Real;
use wire::refusal::Refusal;

// The walk stands at the radial's frame.
pub fn list(rt: &HostRuntime, walk: &mut Walk<'_>, moment: Moment, out: &mut Output) {
    let place = walk.place();
    match walk.find() {
        Ok(Some(frame)) => list_frame(rt, walk.found(frame), moment, out),
        Ok(None) => listing::list_none(place, out),
        Err(Fault::Damaged(why)) => listing::list_stop(place, why, out),
        Err(Fault::NotRead(why)) => out.tell(rt, RECORDING, why),
    }
}

fn list_frame(rt: &HostRuntime, found: Found<'_>, moment: Moment, out: &mut Output) {
    if let Err(why) = list_moment(rt, found, moment, out) {
        listing::list_refused(found, why, out);
    }
}

// A wrong scale or offset is refused whatever the code, so one code tells it for every gate.
fn list_moment(
    rt: &HostRuntime,
    found: Found<'_>,
    moment: Moment,
    out: &mut Output,
) -> Result<(), Refusal> {
    let Some(body) = found.radial()? else {
        listing::list_none(found.place, out);
        return Ok(());
    };
    let m = radial::moment(body, moment.name())?;
    gate_value::value(0, m.scale_bits, m.offset_bits)?;
    let gates = radial_gates::gates(body, moment.name());
    for i in 0..m.gates {
        add_line(rt, m, i, picture::code_at(gates, m.word, i), out)?;
    }
    Ok(())
}

fn add_line(
    rt: &HostRuntime,
    m: MomentHead,
    i: u16,
    code: u16,
    out: &mut Output,
) -> Result<(), Refusal> {
    out.flush(rt, PAGE / 2);
    let metres = u32::from(m.first) + u32::from(i) * u32::from(m.interval);
    let worth = Worth(gate_value::value(code, m.scale_bits, m.offset_bits)?);
    write!(
        out.page,
        "{i:>5}  {:>5}.{:03} km  {code:>5}  {worth}\n",
        metres / 1000,
        metres % 1000
    );
    Ok(())
}

#[derive(Clone, Copy)]
struct Worth(Gate);

impl fmt::Display for Worth {
    fn fmt<W: fmt::Write>(&self, f: &mut fmt::Formatter<W>) -> fmt::Result {
        match self.0 {
            Gate::BelowThreshold => f.write_str("below threshold"),
            Gate::RangeFolded => f.write_str("range folded"),
            Gate::Value(x) => write!(f, "{}", Real(x)),
        }
    }
}
