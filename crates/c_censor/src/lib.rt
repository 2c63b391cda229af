// Message 8 as C receives it, and its writer.
#![tactic(auto)]

ghost use Rattle.std.specs.Prelude.{◌≡◌};
ghost use Rattle.censor.specs.Censor.{censor_of, censor_written};
ghost use Rattle.c_lent.specs.Face.{Leaves, written_face};
ghost use Rattle.c_censor.specs.Face.{censor_face};

use c_lent::UlmWritten;
use censor::PLACES;
use wire::refusal::Refusal;

#[repr(C)]
#[derive(Clone, Copy)]
pub struct UlmCensor {
    pub refusal: u32,
    pub count: u32,
    pub regions: [u16; PLACES],
}

pub fn censor(body: &[u8]) -> UlmCensor
    ensures { result ≡ censor_face (censor_of body.now) }
{
    match censor::read_censor(body) {
        Ok(read) => {
            let regions = read.regions;
            UlmCensor {
                refusal: 0,
                count: read.count as u32,
                regions,
            }
        }
        Err(refusal) => UlmCensor {
            refusal: refusal.number() as u32,
            count: 0,
            regions: [0; PLACES],
        },
    }
}

#[tactic(auto, using(c_lent::proofs::LentLaws::leaves_of))]
pub fn write_censor(list: &[u16], out: &mut [u8]) -> UlmWritten
    ensures { Leaves written_face (censor_written list.now out.old) result out.new }
{
    c_lent::written_face(censor::write_censor(list, out).map_err(Refusal::number))
}
