// The gates of a moment: that part of the lent body which holds exactly its gate words. Nothing is copied.
#![tactic(auto)]

ghost use Rattle.std.specs.Prelude.{◌+◌, ◌≤◌, length};
ghost use Rattle.wire.specs.Numbers.{num};
ghost use Rattle.radial_spec.specs.Lookups.{gates_of};
ghost use Rattle.radial_gates.specs.Told.{LiesAt, part_of, Lent};
ghost use Rattle.radial_gates.specs.Steps.{Locates};

use radial::Name;
use radial_head::MOMENT_HEAD;
use wire::refusal::Refusal;

// The gate count, and where the gates lie.
#[derive(Clone, Copy)]
struct Located {
    gates: u16,
    start: usize,
    size: usize,
}

// The gates lie after the moment's head, one word each.
fn locate(body: &[u8], name: Name) -> Result<Located, Refusal>
    ensures { Locates body.now (num 4 name 0) result }
{
    let head = radial::moment(body, name)?;
    Ok(Located {
        gates: head.gates,
        start: head.place as usize + MOMENT_HEAD,
        size: radial_head::moment_size(head.gates, head.word) as usize - MOMENT_HEAD,
    })
}

// The part of the lent body itself: nothing is copied.
fn part(body: &[u8], found: Located) -> &[u8]
    requires { found.start + found.size ≤ length body.now }
    ensures { LiesAt body.entry result (record { place = found.start; size = found.size }) }
{
    let start = found.start;
    let end = start + found.size;
    &body[start..end]
}

// Exactly the gate words of the moment with a name; on a refusal "an empty part where gates are handed over". `lent` says the number too.
pub fn gates(body: &[u8], name: Name) -> &[u8]
    ensures { LiesAt body.entry result (part_of (gates_of body.now (num 4 name 0))) }
{
    match locate(body, name) {
        Ok(found) => part(body, found),
        Err(_) => &body[..0],
    }
}

// "Each returns its number and count 0, and an empty part where gates are handed over." So the number stands beside the part here, and
// is 0 where nothing is refused.
#[derive(Drop)]
pub struct LentGates<'a> {
    pub number: u8,
    pub gates: u16,
    pub part: &'a [u8],
}

pub fn lent<'a>(body: &'a [u8], name: Name) -> LentGates<'a>
    ensures { Lent body.entry (num 4 name 0) result }
{
    match locate(body, name) {
        Ok(found) => LentGates {
            number: 0,
            gates: found.gates,
            part: part(body, found),
        },
        Err(refusal) => LentGates {
            number: refusal.number(),
            gates: 0,
            part: &body[..0],
        },
    }
}
