// The library as C sees it: each function takes lent memory and returns a struct by value, whose first field is 0
// or the number of the refusal. include/ulm.h declares them. The crate that each calls says what it does.
#![tactic(auto)]

ghost use Rattle.std.specs.Prelude.{◌≡◌};
ghost use Rattle.frame.specs.Session.{frame_at};
ghost use Rattle.header.specs.Header.{header_of};
ghost use Rattle.set_spec.specs.Walk.{set_of};
ghost use Rattle.salvage_spec.specs.Salvage.{salvage_of};
ghost use Rattle.writer.specs.Writing.{write_of};
ghost use Rattle.radial_spec.specs.Refusal.{radial_of};
ghost use Rattle.radial_spec.specs.Lookups.{moment_of, block_of};
ghost use Rattle.gate_value.specs.Value.{value_of, gate_of};
ghost use Rattle.request.specs.Request.{request_of, request_written};
ghost use Rattle.censor.specs.Censor.{censor_of, censor_written};
ghost use Rattle.map_spec.specs.Reading.{summary_of, code_of};
ghost use Rattle.compare_spec.specs.Comparing.{comparison_of};
ghost use Rattle.c_lent.specs.Face.{Leaves, written_face};
ghost use Rattle.c_frame.specs.Face.{frame_face, header_face};
ghost use Rattle.c_set.specs.Face.{set_face};
ghost use Rattle.c_salvage.specs.Face.{salvage_face};
ghost use Rattle.c_radial.specs.Face.{radial_face, block_face};
ghost use Rattle.c_gates.specs.Face.{gates_face, worth_face};
ghost use Rattle.c_request.specs.Face.{request_face};
ghost use Rattle.c_censor.specs.Face.{censor_face};
ghost use Rattle.c_map.specs.Face.{map_face, map_code_face};
ghost use Rattle.c_compare.specs.Face.{comparison_face};

use c_censor::UlmCensor;
use c_compare::UlmComparison;
use c_frame::{UlmFrame, UlmHeader};
use c_gates::{UlmGate, UlmGates};
use c_lent::UlmWritten;
use c_map::{UlmMap, UlmMapCode};
use c_radial::{UlmBlock, UlmRadial};
use c_request::UlmRequest;
use c_salvage::UlmSalvage;
use c_set::UlmSet;

pub fn ulm_frame(buf: &[u8], place: usize) -> UlmFrame
    ensures { result ≡ frame_face place (frame_at buf.now place) }
{
    c_frame::frame(buf, place)
}

#[tactic(auto, using(header::proofs::HeaderLaws::short_read))]
// The body of `read_header`, which the compiler puts in line here too.
pub fn ulm_header(msg: &[u8]) -> UlmHeader
    ensures { result ≡ header_face (header_of msg.now) }
{
    let s = header::stored_in(msg);
    if header::accepts_short(s, msg.len()) {
        return c_frame::header_face(header::report_short(msg, s));
    }
    c_frame::header(msg)
}

pub fn ulm_set(buf: &[u8], out: &mut [u8]) -> UlmSet
    ensures { Leaves set_face (set_of buf.now out.old) result out.new }
{
    c_set::set(buf, out)
}

pub fn ulm_salvage(buf: &[u8], out: &mut [u8], runs: &mut [u64]) -> UlmSalvage
    ensures { Leaves salvage_face (salvage_of buf.now out.old runs.old) result (out.new, runs.new) }
{
    c_salvage::salvage(buf, out, runs)
}

pub fn ulm_write(
    channel: u8,
    kind: u8,
    sequence: u16,
    date: u16,
    ms: u32,
    body: &[u8],
    out: &mut [u8],
) -> UlmWritten
    ensures { Leaves written_face (write_of (record { channel = channel; kind = kind; sequence = sequence; date = date; milliseconds = ms }) body.now out.old) result out.new }
{
    c_write::write(channel, kind, sequence, date, ms, body, out)
}

pub fn ulm_radial(body: &[u8]) -> UlmRadial
    ensures { result ≡ radial_face (radial_of body.now) }
{
    c_radial::radial(body)
}

pub fn ulm_block(body: &[u8], block: u32) -> UlmBlock
    ensures { result ≡ block_face (block_of body.now block) }
{
    c_radial::block(body, block)
}

pub fn ulm_gates(body: &[u8], name: u32) -> UlmGates
    ensures { result ≡ gates_face (moment_of body.now name) }
{
    c_gates::gates(body, name)
}

pub fn ulm_gate(body: &[u8], name: u32, gate: u64) -> UlmGate
    ensures { result ≡ worth_face (gate_of body.now name gate) }
{
    c_gates::gate(body, name, gate)
}

pub fn ulm_value(code: u16, scale: u32, offset: u32) -> UlmGate
    ensures { result ≡ worth_face (value_of code scale offset) }
{
    c_gates::value(code, scale, offset)
}

pub fn ulm_request(body: &[u8]) -> UlmRequest
    ensures { result ≡ request_face (request_of body.now) }
{
    c_request::request(body)
}

pub fn ulm_write_request(list: &[u16], out: &mut [u8]) -> UlmWritten
    ensures { Leaves written_face (request_written list.now out.old) result out.new }
{
    c_request::write_request(list, out)
}

pub fn ulm_censor(body: &[u8]) -> UlmCensor
    ensures { result ≡ censor_face (censor_of body.now) }
{
    c_censor::censor(body)
}

pub fn ulm_write_censor(list: &[u16], out: &mut [u8]) -> UlmWritten
    ensures { Leaves written_face (censor_written list.now out.old) result out.new }
{
    c_censor::write_censor(list, out)
}

pub fn ulm_map(body: &[u8]) -> UlmMap
    ensures { result ≡ map_face (summary_of body.now) }
{
    c_map::map(body)
}

pub fn ulm_map_code(body: &[u8], elevation: u64, azimuth: u64, kilometre: u64) -> UlmMapCode
    ensures { result ≡ map_code_face (code_of body.now elevation azimuth kilometre) }
{
    c_map::map_code(body, elevation, azimuth, kilometre)
}

pub fn ulm_compare_maps(old: &[u8], new: &[u8], out: &mut [u16]) -> UlmComparison
    ensures { Leaves comparison_face (comparison_of old.now new.now out.old) result out.new }
{
    c_compare::compare_maps(old, new, out)
}
