// Message 9, the request: read from a body, and written as one.
#![tactic(auto)]

ghost use Rattle.std.specs.Prelude.{◌≡◌};
ghost use Rattle.wire.specs.Answers.{Promise};
ghost use Rattle.wire.specs.Writing.{tell_write};
ghost use Rattle.form_spec.specs.Forms.{outside};
ghost use Rattle.request.specs.Request.{permitted, request_of, request_written};
ghost use Rattle.request.specs.Told.{tell_request};

use wire::Bytes;
use wire::refusal::Refusal;

// The bytes of a body: one halfword.
const SIZE: usize = 2;

const PERMITTED: [u16; 6] = [129, 130, 132, 136, 144, 160];

// Whether a code is not one of those permitted.
#[tactic(auto, using(wire::proofs::CheckLaws::among_any), unfolding(form_spec::specs::Forms::outside))]
fn breaks_code(code: u16) -> bool
    ensures { result ≡ outside permitted code }
{
    !PERMITTED.contains(&code)
}

#[tactic(auto, using(crate::proofs::StepLaws::reads))]
pub fn read_request(body: &[u8]) -> Result<u16, Refusal>
    ensures { tell_request result ≡ request_of body.now }
{
    if body.len() != SIZE {
        return Err(Refusal::Length);
    }
    let code = wire::fetch::<u16>(body, 0);
    if breaks_code(code) {
        return Err(Refusal::Field);
    }
    Ok(code)
}

#[tactic(auto, using(crate::proofs::StepLaws::writes))]
pub fn write_request(list: &[u16], out: &mut [u8]) -> Result<Bytes, Refusal>
    ensures { Promise tell_write (request_written list.now out.old) result out.new }
{
    if list.len() != 1 {
        return Err(Refusal::Length);
    }
    let code = list[0];
    if breaks_code(code) {
        return Err(Refusal::Field);
    }
    if out.len() < SIZE {
        return Err(Refusal::OutputSmall);
    }
    wire::store::<u16>(out, 0, code);
    Ok(Bytes(SIZE as u32))
}
