// Refusals in words.
use std::fmt;
use wire::refusal::Refusal;

const WORDS: [&str; 26] = [
    "fewer than 12 bytes left for a frame, or its body runs past the end",
    "session kind above 4",
    "session body above 1,048,576 bytes",
    "message under 16 bytes",
    "size under 8 halfwords or not half of the message's bytes, or, at size 65,535 of type 31, a length in the segment fields that is odd, not 131,070 to 1,048,576 or not the message's",
    "message type that is not permitted",
    "segment count not 1 to 128, segment number not 1 to the count where that is above 1, a radial in more than one segment, or a size above 1,208 halfwords of another type, 65,535 included",
    "date 0, or time of day past 86,399,999 milliseconds",
    "a frame of the set carries no data",
    "a frame disagrees with the set's first",
    "a segment number occurs twice",
    "a segment is missing, or the set is empty",
    "the output has too little room",
    "radial body under 68 bytes",
    "the radial is compressed",
    "radial length under 68 or above the body's",
    "block count not 4 to 9",
    "a pointer too early, or too near the end of the radial for the head of a block",
    "a block's name wrong, unknown or repeated",
    "a block shorter than its least, too many gates, a word size other than 8 or 16, or a block past the end of the radial",
    "no such moment, gate, elevation, azimuth or kilometre",
    "scale not finite or not above 0, or offset not finite",
    "body or list of message 8, 9 or 15 too short or too long",
    "a field of message 8, 9 or 15 out of range",
    "body to write has an odd length",
    "body to write above 307,200 bytes, or above 1,048,560 for a radial",
];

// The words of the refusal with a number, if there is one.
pub fn reason(number: u64) -> Option<&'static str> {
    let i = usize::try_from(number).ok()?.checked_sub(1)?;
    WORDS.get(i).copied()
}

// `refused as 4: message under 16 bytes`
#[derive(Clone, Copy)]
pub struct Refused(pub Refusal);

impl fmt::Display for Refused {
    fn fmt<W: fmt::Write>(&self, f: &mut fmt::Formatter<W>) -> fmt::Result {
        let number = self.0.number();
        let words = reason(u64::from(number)).unwrap_or_default();
        write!(f, "refused as {number}: {words}")
    }
}
