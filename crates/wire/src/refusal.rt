// The refusals, each with its name, its number and its rule in words. `tests/refusals` checks that all other lists agree with this one.
ghost use Rattle.std.specs.Prelude.{◌≡◌};
ghost use Rattle.wire.specs.Refusals.{number};

#[derive(Clone, Copy, Debug, PartialEq, Eq)]
pub enum Refusal {
    // fewer than 12 bytes left for a frame, or its body runs past the end
    FrameCutOff = 1,

    // session kind above 4
    SessionKind = 2,

    // session body above 1,048,576 bytes
    SessionBody = 3,

    // message under 16 bytes
    MessageShort = 4,

    // size under 8 halfwords or not half of the message's bytes, or, at size 65,535 of type 31, a length in the segment fields that is odd, not 131,070 to 1,048,576 or not the message's
    Size = 5,

    // message type that is not permitted
    Type = 6,

    // segment count not 1 to 128, segment number not 1 to the count where that is above 1, a radial in more than one segment, or a size above 1,208 halfwords of another type, 65,535 included
    Segment = 7,

    // date 0, or time of day past 86,399,999 milliseconds
    DateOrTime = 8,

    // a frame of the set carries no data
    NotData = 9,

    // a frame disagrees with the set's first
    Disagrees = 10,

    // a segment number occurs twice
    AlreadySeen = 11,

    // a segment is missing, or the set is empty
    Absent = 12,

    // the output has too little room
    OutputSmall = 13,

    // radial body under 68 bytes
    RadialShort = 14,

    // the radial is compressed
    Compression = 15,

    // radial length under 68 or above the body's
    RadialLength = 16,

    // block count not 4 to 9
    BlockCount = 17,

    // a pointer too early, or too near the end of the radial for the head of a block
    Pointer = 18,

    // a block's name wrong, unknown or repeated
    Name = 19,

    // a block shorter than its least, too many gates, a word size other than 8 or 16, or a block past the end of the radial
    Block = 20,

    // no such moment, gate, elevation, azimuth or kilometre
    AskedFor = 21,

    // scale not finite or not above 0, or offset not finite
    ScaleOrOffset = 22,

    // body or list of message 8, 9 or 15 too short or too long
    Length = 23,

    // a field of message 8, 9 or 15 out of range
    Field = 24,

    // body to write has an odd length
    OddBody = 25,

    // body to write above 307,200 bytes, or above 1,048,560 for a radial
    LongBody = 26,
}

impl Refusal {
    // The refusal's number in the rules.
    pub fn number(self) -> u8
        ensures { result ≡ number self }
    {
        self as u8
    }
}
