//! Where a certificate isn't accepted.

ghost use Rattle.std.specs.Prelude.{◌≡◌};
ghost use Rattle.acceptance.specs.CodePlace as places;
ghost use Rattle.checking.specs.Refused as refused;
ghost use Rattle.checking.specs.Refused.{at_names, at_place, told};
ghost use Rattle.checking.specs.CodeRefused.{phase_of, refused_of};

use acceptance::Place;

/// What isn't as it should be: the list of the functions, the calls of a function's level, or one
/// of its steps.
#[derive(Clone, Copy, Debug, PartialEq, Eq)]
pub enum Phase {
    List,
    Level,
    Exception,
    Local,
    Heap,
    Word,
    Equal,
}

/// The first place of a certificate that isn't accepted. Positions past the last number of 32 bits
/// are told as that.
#[derive(Clone, Copy, Debug, PartialEq, Eq)]
pub struct Refused {
    /// The position of the function.
    pub function: u32,
    pub phase: Phase,
    /// The node of the step's tree of rules, and of the list the position again.
    pub node: u32,
}

impl Refused {
    /// The functions' names differ first at this position.
    pub(crate) fn at_names(at: usize) -> Refused
        ensures { refused_of result ≡ at_names at }
    {
        let at = told(at);
        Refused {
            function: at,
            phase: Phase::List,
            node: at,
        }
    }

    /// The steps of the function at this position aren't accepted.
    pub(crate) fn at_place(at: usize, place: Place) -> Refused
        ensures { refused_of result ≡ at_place at (places.place_of place) }
    {
        Refused {
            function: told(at),
            phase: Phase::from_acceptance(place.phase),
            node: place.node,
        }
    }
}

impl Phase {
    // What is asked of a function.
    fn from_acceptance(phase: acceptance::Phase) -> Phase
        ensures { phase_of result ≡ refused.Asked (places.phase_of phase) }
    {
        match phase {
            acceptance::Phase::Level => Phase::Level,
            acceptance::Phase::Exception => Phase::Exception,
            acceptance::Phase::Local => Phase::Local,
            acceptance::Phase::Heap => Phase::Heap,
            acceptance::Phase::Word => Phase::Word,
            acceptance::Phase::Equal => Phase::Equal,
        }
    }
}

/// A position as it is told.
pub(crate) fn told(at: usize) -> u32
    ensures { result ≡ told at }
{
    if at < 0xffff_ffff {
        at as u32
    } else {
        u32::MAX
    }
}
