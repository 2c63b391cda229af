// Message 15 as C receives it, and the code at a place of it.
#![tactic(auto)]

ghost use Rattle.std.specs.Prelude.{◌≡◌};
ghost use Rattle.map_spec.specs.Reading.{summary_of, code_of};
ghost use Rattle.c_map.specs.Face.{map_face, map_code_face};

#[repr(C)]
#[derive(Clone, Copy, Default)]
pub struct UlmMap {
    pub refusal: u32,
    pub date: u32,
    pub minutes: u32,
    pub elevations: u32,
}

#[repr(C)]
#[derive(Clone, Copy)]
pub struct UlmMapCode {
    pub refusal: u32,
    pub code: u32,
}

pub fn map(body: &[u8]) -> UlmMap
    ensures { result ≡ map_face (summary_of body.now) }
{
    match map::check_map(body) {
        Ok(map) => UlmMap {
            refusal: 0,
            date: map.date as u32,
            minutes: map.minutes as u32,
            elevations: map.elevations as u32,
        },
        Err(refusal) => UlmMap {
            refusal: refusal.number() as u32,
            ..UlmMap::default()
        },
    }
}

pub fn map_code(body: &[u8], elevation: u64, azimuth: u64, kilometre: u64) -> UlmMapCode
    ensures { result ≡ map_code_face (code_of body.now elevation azimuth kilometre) }
{
    match map::code_at(
        body,
        elevation as usize,
        azimuth as usize,
        kilometre as usize,
    ) {
        Ok(code) => UlmMapCode {
            refusal: 0,
            code: code as u32,
        },
        Err(refusal) => UlmMapCode {
            refusal: refusal.number() as u32,
            code: 0,
        },
    }
}
