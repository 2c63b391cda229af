// A copy: one part of some bytes onto another of the same length.
#![tactic(auto)]

ghost use Rattle.std.specs.Prelude.{◌≡◌};
ghost use Rattle.copy.specs.Copying.{copied};

// Copies one part onto another of the same length. Does nothing if the lengths differ.
#[tactic(auto, unfolding(crate::specs::Copying::copied))]
pub fn copy(from: &[u8], to: &mut [u8])
    ensures { to.new ≡ copied from.now to.old }
{
    if from.len() == to.len() {
        to.copy_from_slice(from);
    }
}
