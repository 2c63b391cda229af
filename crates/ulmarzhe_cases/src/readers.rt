// The entries that read, asked with a case's bytes and numbers.
use crate::sink::Sink;
use crate::told::Told;
use radial::Name;
use wire::refusal::Refusal;

pub fn of_frame(stream: &[u8], place: usize) -> Result<Told, Refusal> {
    match frame::frame_at(stream, place)? {
        Some(frame) => Ok(Told::Frame(frame)),
        None => Ok(Told::End),
    }
}

pub fn of_header(message: &[u8]) -> Result<Told, Refusal> {
    header::read_header(message).map(Told::Header)
}

// A radial, and each of its blocks, counted from 1.
pub fn say_radial(body: &[u8], sink: &mut Sink<'_>) {
    match radial::read_radial(body) {
        Ok(r) => {
            sink.say(Told::Radial(r.header, r.count));
            for k in 1..=u32::from(r.count) {
                sink.tell(of_block(body, k));
            }
        }
        Err(r) => sink.say(Told::Refused(r)),
    }
}

fn of_block(body: &[u8], k: u32) -> Result<Told, Refusal> {
    match radial::block(body, k)? {
        Some(block) => Ok(Told::Block(block)),
        None => Ok(Told::NoBlock),
    }
}

pub fn say_gates(body: &[u8], name: Name, sink: &mut Sink<'_>) {
    match radial::moment(body, name) {
        Ok(_) => {
            sink.say(Told::Gates);
            sink.say_bytes(radial_gates::gates(body, name));
        }
        Err(r) => sink.say(Told::Refused(r)),
    }
}

pub fn of_gate(body: &[u8], name: Name, gate: usize) -> Result<Told, Refusal> {
    gate_value::gate_value(body, name, gate).map(Told::Gate)
}

pub fn of_request(body: &[u8]) -> Result<Told, Refusal> {
    request::read_request(body).map(Told::Request)
}

// The regions of message 8, all places.
pub fn say_censor(body: &[u8], sink: &mut Sink<'_>) {
    match censor::read_censor(body) {
        Ok(c) => {
            sink.say(Told::Censor(c.count));
            sink.say_halfwords(&c.regions);
        }
        Err(r) => sink.say(Told::Refused(r)),
    }
}

pub fn of_map(body: &[u8]) -> Result<Told, Refusal> {
    map::check_map(body).map(Told::Map)
}

pub fn of_map_code(
    body: &[u8],
    elevation: usize,
    azimuth: usize,
    kilometre: usize,
) -> Result<Told, Refusal> {
    map::code_at(body, elevation, azimuth, kilometre).map(Told::Code)
}
