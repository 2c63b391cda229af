// The moments that the command line can name.
use radial::Name;

#[derive(Clone, Copy)]
pub enum Moment {
    Ref,
    Vel,
    Sw,
    Zdr,
    Phi,
    Rho,
}

impl Moment {
    pub fn named(word: &[u8]) -> Option<Self> {
        match word {
            b"REF" => Some(Moment::Ref),
            b"VEL" => Some(Moment::Vel),
            b"SW" => Some(Moment::Sw),
            b"ZDR" => Some(Moment::Zdr),
            b"PHI" => Some(Moment::Phi),
            b"RHO" => Some(Moment::Rho),
            _ => None,
        }
    }

    // The name of the moment's block in a radial.
    pub fn name(self) -> Name {
        match self {
            Moment::Ref => *b"DREF",
            Moment::Vel => *b"DVEL",
            Moment::Sw => *b"DSW ",
            Moment::Zdr => *b"DZDR",
            Moment::Phi => *b"DPHI",
            Moment::Rho => *b"DRHO",
        }
    }
}
