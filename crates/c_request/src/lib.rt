// Message 9 as C receives it, and its writer.
#![tactic(auto)]

ghost use Rattle.std.specs.Prelude.{◌≡◌};
ghost use Rattle.request.specs.Request.{request_of, request_written};
ghost use Rattle.c_lent.specs.Face.{Leaves, written_face};
ghost use Rattle.c_request.specs.Face.{request_face};

use c_lent::UlmWritten;
use wire::refusal::Refusal;

#[repr(C)]
#[derive(Clone, Copy)]
pub struct UlmRequest {
    pub refusal: u32,
    pub code: u32,
}

pub fn request(body: &[u8]) -> UlmRequest
    ensures { result ≡ request_face (request_of body.now) }
{
    match request::read_request(body) {
        Ok(code) => UlmRequest {
            refusal: 0,
            code: code as u32,
        },
        Err(refusal) => UlmRequest {
            refusal: refusal.number() as u32,
            code: 0,
        },
    }
}

#[tactic(auto, using(c_lent::proofs::LentLaws::leaves_of))]
pub fn write_request(list: &[u16], out: &mut [u8]) -> UlmWritten
    ensures { Leaves written_face (request_written list.now out.old) result out.new }
{
    c_lent::written_face(request::write_request(list, out).map_err(Refusal::number))
}
