// A damaged recording salvaged: the frames that pass are copied one after the other, and each run of bytes between them is listed.
#![tactic(auto)]

ghost use Rattle.std.specs.Prelude.{◌≡◌, map, ◌+◌, ◌*◌, ◌^◌, ◌≤◌, ◌<◌, length};
ghost use Rattle.wire.specs.Answers.{Promise};
ghost use Rattle.wire.specs.Sheets.{sheet, lay, onto};
ghost use Rattle.salvage_spec.specs.Walk.{run};
ghost use Rattle.salvage_spec.specs.Salvage.{two_of, salvage_of};
ghost use Rattle.salvage.specs.Told.{tell_salvage};
ghost use Rattle.salvage.specs.Steps.{StretchFrom, WalkedOver, room_for};

use frame::HEAD;
use header::HEADER;
use wire::refusal::Refusal;

// The size of the shortest frame that passes: a session head and a message header.
const LEAST: usize = HEAD + HEADER;

// How many frames are kept, bytes written and runs listed.
#[derive(Clone, Copy, Default)]
pub struct Salvaged {
    pub kept: usize,
    pub length: usize,
    pub runs: usize,
}

// Frames in a row: where the last one ends, and how many there are.
#[derive(Clone, Copy)]
struct Stretch {
    next: usize,
    frames: usize,
}

// The longest row of passing frames from a place on. The program has one of its own: this one asks for a place in the buffer, as no public
// function does.
fn follow(buf: &[u8], place: usize) -> Stretch
    requires { place ≤ length buf.now }
    ensures { StretchFrom buf.now place result }
{
    let mut next = place;
    let mut frames: usize = 0;
    while let Some(long) = salvage_find::whole_at(buf, next) {
        next += long;
        frames += 1;
    }
    Stretch { next, frames }
}

// Lists the bytes from `first` to before `next`, if any, as a run after `count` others where there is room. Returns the new count. The
// count stands beside the buffer and is no part of it, as what has no room is counted too: it may pass the buffer's.
fn list(runs: &mut [u64], count: usize, first: usize, next: usize) -> usize
    requires { (first ≤ next) × (count ≤ first) × (first + 1 < 2 ^ 63) }
    ensures { sheet (2 * result) runs.new ≡ onto (map two_of (run first next)) (sheet (2 * count) runs.old) }
{
    if first == next {
        return count;
    }
    let at = 2 * count;
    if runs.len() < at + 2 {
        return count + 1;
    }
    runs[at] = first as u64;
    runs[at + 1] = (next - first) as u64;
    count + 1
}

// Copies the bytes to place `long` of the output if there is room. Returns the new length, also where there was none: as the count above,
// it may pass the output's.
fn put(bytes: &[u8], out: &mut [u8], long: usize) -> usize
    requires { long + length bytes.now < 2 ^ 63 }
    ensures { sheet result out.new ≡ lay bytes.now (sheet long out.old) }
{
    let end = long + bytes.len();
    if out.len() < end {
        return end;
    }
    copy::copy(bytes, &mut out[long..end]);
    end
}

// Finds a run of skipped bytes, then the frames in a row after it, and so on to the end of the buffer. Frames in a row are copied at once.
// What has no room is only counted.
fn walk(buf: &[u8], out: &mut [u8], runs: &mut [u64]) -> Salvaged
    ensures { WalkedOver buf.now out.old runs.old result out.new runs.new }
{
    let mut at: usize = 0;
    let mut totals = Salvaged::default();
    while at < buf.len() {
        let place = salvage_find::next_kept(buf, at);
        totals.runs = list(runs, totals.runs, at, place);
        let row = follow(buf, place);
        totals.length = put(&buf[place..row.next], out, totals.length);
        totals.kept += row.frames;
        at = row.next;
    }
    totals
}

// Whether both outputs have room. They do if `out` is as long as the buffer and `runs` has room for the most runs possible: any two
// runs have a frame between them. Otherwise a walk with empty outputs counts what is needed.
fn has_room(buf: &[u8], out: &mut [u8], runs: &mut [u64]) -> bool
    ensures { (result ≡ room_for buf.now out.old runs.old) × (out.new ≡ out.old) × (runs.new ≡ runs.old) }
{
    if (buf.len() <= out.len()) & (2 * buf.len().div_ceil(LEAST + 1) <= runs.len()) {
        return true;
    }
    let totals = walk(buf, &mut out[0..0], &mut runs[0..0]);
    (totals.length <= out.len()) & (2 * totals.runs <= runs.len())
}

// The frames of a damaged recording into `out`, and each run of skipped bytes as place and length into `runs`.
pub fn salvage(buf: &[u8], out: &mut [u8], runs: &mut [u64]) -> Result<Salvaged, Refusal>
    ensures { Promise tell_salvage (salvage_of buf.now out.old runs.old) result (out.new, runs.new) }
{
    if !has_room(buf, out, runs) {
        return Err(Refusal::OutputSmall);
    }
    Ok(walk(buf, out, runs))
}
