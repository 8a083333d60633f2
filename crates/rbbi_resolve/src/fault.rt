//! The earliest of the faults that were noted.
ghost use Rattle.std.specs.Prelude.{◌≡◌};
ghost use Rattle.rbbi_resolve.specs.Faults.{rank, noted_one, noted, comes_before, faults_where};

/// The kinds of faults, in the order in which they are reported where several stand at one place.
#[derive(Clone, Copy)]
pub enum FaultKind {
    UnknownControl,
    UnsupportedControl,
    Dictionary,
    Redefined,
    Undefined,
    NotASet,
    UnknownProperty,
    BadRange,
    EmptySet,
    BareLiteral,
    EmptyFront,
    EmptyRest,
    NoRules,
    TooManyRules,
    TooManyLeaves,
    TooManySlashes,
    TooTall,
}

/// A fault of a rule file. Its place is in characters from 0.
#[derive(Clone, Copy)]
pub struct Fault {
    pub place: u32,
    pub kind: FaultKind,
}

/// The number of a kind in the order of kinds, from 0.
fn rank(kind: FaultKind) -> u8
    ensures { result ≡ rank kind }
{
    kind as u8
}

/// Whether a fault comes before another: at a lesser place, or at the same one by its kind.
fn comes_before(fault: Fault, other: Fault) -> bool
    ensures { result ≡ comes_before fault other }
{
    fault.place < other.place || (fault.place == other.place && rank(fault.kind) < rank(other.kind))
}

/// Notes a fault: the earliest one is kept.
pub(crate) fn note(least: &mut Option<Fault>, place: u32, kind: FaultKind)
    ensures { least.new ≡ noted_one least.old (record { place = place; kind = kind }) }
{
    let fault = Fault { place, kind };
    match *least {
        Some(other) if !comes_before(fault, other) => {}
        _ => *least = Some(fault),
    }
}

/// Notes a fault if the test holds.
pub(crate) fn note_where(least: &mut Option<Fault>, test: bool, place: u32, kind: FaultKind)
    ensures { least.new ≡ noted least.old (faults_where test place kind) }
{
    if test {
        note(least, place, kind);
    }
}
