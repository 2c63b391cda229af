// What C receives from a function that writes: the refusal or the length, and what the lent memory then holds.
#![tactic(auto)]

ghost use Rattle.std.specs.Prelude.{◌≡◌};
ghost use Rattle.c_lent.specs.Face.{numbered, written_face};

use wire::Bytes;

#[repr(C)]
#[derive(Clone, Copy)]
pub struct UlmWritten {
    pub refusal: u32,
    pub length: u64,
}

// Of any number, also one that is no refusal's.
pub fn written_face(answer: Result<Bytes, u8>) -> UlmWritten
    ensures { result ≡ written_face (numbered answer) }
{
    match answer {
        Ok(size) => UlmWritten {
            refusal: 0,
            length: size.0 as u64,
        },
        Err(number) => UlmWritten {
            refusal: number as u32,
            length: 0,
        },
    }
}
