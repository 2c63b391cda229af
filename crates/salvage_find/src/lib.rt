// Frames found in a damaged recording: the one that stands at a place, and the next place at which one does.
#![tactic(auto)]

ghost use Rattle.std.specs.Prelude.{◌≡◌, false, ◌+◌, ◌≤◌, length};
ghost use Rattle.salvage_spec.specs.Walk.{whole_at, next_kept};
ghost use Rattle.salvage_find.specs.Told.{size_told};
ghost use Rattle.salvage_find.specs.Steps.{block, beyond, Unmarked, NoneFrom, FoundFrom};

use frame::DATA;

// How many places are tested together, and how many bytes the 32-bit number at the last of them reaches past it.
const BLOCK: usize = 32;

const BEYOND: usize = 3;

// The size of the frame at a place if it is a data frame with a header that passes.
pub fn whole_at(buf: &[u8], place: usize) -> Option<usize>
    ensures { result ≡ size_told (whole_at buf.now place) }
{
    let f = frame::frame_at(buf, place).ok()??;
    if f.kind != DATA {
        return None;
    }
    let next = f.next;
    let message = &buf[f.start..next];
    if header::check_header(header::stored_in(message), message.len()) != Ok(()) {
        return None;
    }
    Some(next - place)
}

// Whether a data frame may begin in the block: a kind of 2 ends in the bytes 0 and 2. There is no branch in the loop, so the compiler
// can test many places at once.
fn may_begin(part: &[u8]) -> bool
    requires { length part.now ≡ block + beyond }
    ensures { result ≡ false → Unmarked block part.now }
{
    let mut any = false;
    for i in 0..BLOCK {
        any |= (part[i + 2] == 0) & (part[i + 3] == 2);
    }
    any
}

// The first place in the block that holds a data frame's kind, or the block's end. An index, as the library has no lemma for what
// `windows(4)` yields to `position`.
fn first_mark(part: &[u8]) -> usize
    requires { length part.now ≡ block + beyond }
    ensures { (result ≤ block) × Unmarked result part.now }
{
    for i in 0..BLOCK {
        if wire::fetch::<u32>(&part[i..i + 4], 0) == DATA {
            return i;
        }
    }
    BLOCK
}

// The next place where a data frame may begin, by its kind: none begins from `from` to before it. Other blocks are skipped whole.
// The blocks overlap by BEYOND bytes and what is left at the end is told too, so this is plainer than an iterator over parts.
fn next_mark(buf: &[u8], from: usize) -> usize
    requires { from ≤ length buf.now }
    ensures { NoneFrom buf.now from result }
{
    let mut at = from;
    while at + (BLOCK + BEYOND) <= buf.len() {
        let part = &buf[at..at + (BLOCK + BEYOND)];
        if may_begin(part) {
            return at + first_mark(part);
        }
        at += BLOCK;
    }
    at
}

// The first place from `from` on where a frame that passes begins, or the end.
fn find(buf: &[u8], from: usize) -> usize
    requires { from ≤ length buf.now }
    ensures { FoundFrom buf.now from result }
{
    let mut at = from;
    while at < buf.len() {
        if whole_at(buf, at) != None {
            return at;
        }
        at = next_mark(buf, at + 1);
    }
    at
}

// Where the walk from a place on keeps its first frame, or the end of the buffer.
pub fn next_kept(buf: &[u8], place: usize) -> usize
    ensures { result ≡ next_kept buf.now place }
{
    if buf.len() < place {
        return place;
    }
    find(buf, place)
}
