// The case of the sample that a scene's tick takes, as the original saw it when it ran.
use crate::spelling::Bits;
use drags::{Sample, Support};
use std::fmt;

#[derive(Clone, Copy)]
pub(crate) struct Case(pub(crate) Support);

impl fmt::Display for Case {
    fn fmt<W: fmt::Write>(&self, f: &mut fmt::Formatter<W>) -> fmt::Result {
        match self.0 {
            Support::Asked(Sample::Friction(friction)) => write!(f, "sampled {}", Bits(friction)),
            Support::Asked(Sample::Air) => write!(f, "air"),
            Support::Asked(Sample::Unloaded) => write!(f, "unloaded"),
            Support::Asked(Sample::Unregistered) => write!(f, "unregistered"),
            Support::NotAsked => write!(f, "not asked"),
        }
    }
}
