// A moment's head: a moment's first 28 bytes by value, and how many bytes the moment takes.
#![tactic(auto)]

ghost use Rattle.std.specs.Prelude.{◌≡◌};
ghost use Rattle.radial_spec.specs.Description.{moment_bytes};
ghost use Rattle.radial_head.specs.Told.{fetched_head, head_told, key_of};

// Bytes before a moment's gates.
pub const MOMENT_HEAD: usize = 28;

// A moment's first 28 bytes and its place. Scale and offset are given both as floats and as their 32 bits,
// since all NaNs are one float. The word size is a number, as it is stored.
#[derive(Clone, Copy, Default)]
pub struct MomentHead {
    pub name: u32,
    pub place: u32,
    pub reserved: u32,
    pub gates: u16,
    pub first: u16,
    pub interval: u16,
    pub overlay: u16,
    pub noise: u16,
    pub flags: u8,
    pub word: u8,
    pub scale: f32,
    pub offset: f32,
    pub scale_bits: u32,
    pub offset_bits: u32,
}

// The fields of a moment's head that are checked.
#[derive(Clone, Copy)]
pub struct Key {
    pub name: u32,
    pub gates: u16,
    pub word: u8,
}

// The size of a moment in bytes: "Then the gates, one word each."
pub fn moment_size(gates: u16, word: u8) -> u32
    ensures { result ≡ moment_bytes gates word }
{
    MOMENT_HEAD as u32 + gates as u32 * (word as u32 / 8)
}

// Fetches only these three fields. A whole head has other callers: the compiler would not inline it and drop the fields not used.
pub fn key_of(part: &[u8]) -> Key
    ensures { result ≡ key_of (fetched_head part.now) }
{
    Key {
        name: wire::fetch::<u32>(part, 0),
        gates: wire::fetch::<u16>(part, 8),
        word: wire::fetch::<u8>(part, 19),
    }
}

// The head of the moment at `place`. `part` is the body from there on; fields beyond its end are 0.
pub fn head_of(part: &[u8], place: u32) -> MomentHead
    ensures { result ≡ head_told place (fetched_head part.now) }
{
    let key = key_of(part);
    let scale = wire::fetch::<u32>(part, 20);
    let offset = wire::fetch::<u32>(part, 24);
    MomentHead {
        name: key.name,
        place: place,
        reserved: wire::fetch::<u32>(part, 4),
        gates: key.gates,
        first: wire::fetch::<u16>(part, 10),
        interval: wire::fetch::<u16>(part, 12),
        overlay: wire::fetch::<u16>(part, 14),
        noise: wire::fetch::<u16>(part, 16),
        flags: wire::fetch::<u8>(part, 18),
        word: key.word,
        scale: wire::float_of(scale),
        offset: wire::float_of(offset),
        scale_bits: scale,
        offset_bits: offset,
    }
}
