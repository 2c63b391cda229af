// The comparison of two messages 15, as C receives it.
#![tactic(auto)]

ghost use Rattle.std.specs.Prelude.{◌≡◌};
ghost use Rattle.compare_spec.specs.Comparing.{comparison_of};
ghost use Rattle.c_lent.specs.Face.{Leaves};
ghost use Rattle.c_compare.specs.Face.{comparison_face};

#[repr(C)]
#[derive(Clone, Copy, Default)]
pub struct UlmComparison {
    pub refusal: u32,
    pub old_elevations: u32,
    pub new_elevations: u32,
    pub differences: u32,
}

pub fn compare_maps(old: &[u8], new: &[u8], out: &mut [u16]) -> UlmComparison
    ensures { Leaves comparison_face (comparison_of old.now new.now out.old) result out.new }
{
    match compare::compare(old, new, out) {
        Ok(compared) => UlmComparison {
            refusal: 0,
            old_elevations: compared.old_elevations as u32,
            new_elevations: compared.new_elevations as u32,
            differences: compared.differences,
        },
        Err(refusal) => UlmComparison {
            refusal: refusal.number() as u32,
            ..UlmComparison::default()
        },
    }
}
