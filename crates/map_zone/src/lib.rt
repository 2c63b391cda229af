// A zone of a clutter filter map, fetched as one number of 32 bits: its code and its end.
#![tactic(auto)]

ghost use Rattle.std.specs.Prelude.{◌≡◌, ◌/◌, ◌%◌};
ghost use Rattle.map_spec.specs.Map.{halfword_numbers};

// How many values a halfword can have.
const HALFWORD_NUMBERS: u32 = 65536;

// The code stands before the end, so it is the high half.
pub fn code_of(zone: u32) -> u16
    ensures { result ≡ zone / halfword_numbers }
{
    (zone / HALFWORD_NUMBERS) as u16
}

pub fn end_of(zone: u32) -> u16
    ensures { result ≡ zone % halfword_numbers }
{
    (zone % HALFWORD_NUMBERS) as u16
}
