ghost use Rattle.std.specs.Prelude.{◌≡◌, List, [], ◌∷◌, Some, IfNone, IfSome};
ghost use Rattle.endpoint_learn.specs.Lessons as lessons;
ghost use Rattle.endpoint_learn.specs.Lessons.{LearnStep, Signalled, Heard, is_wrong_after, endpoint_after};
ghost use Rattle.endpoint_learn.specs.Learners.{LearnerStandsFor, judge_of};
ghost use Rattle.endpoint_learn.specs.declared.learner.Learner.{Learner};

use crate::saved::{ADDR_SAVED, addr_bytes, addr_of, joined, part};
use relay_outside::{Addr, Flags};

/// Whether a source may send.
#[derive(Clone, Copy, PartialEq, Eq, Debug)]
pub enum Judge {
    /// It may.
    Pass,
    /// Another source was learned under `strict source`.
    WrongSource,
}

/// Where packets go that are sent to one leg and half.
///
/// Contracts see it by the lists of steps that it stands for: what was signalled, and the sources of accepted packets.
/// It stands for some list, so what its calls say of every list settles its address, flags and learned source: a
/// cell's proofs carry no list of steps.
#[derive(Clone, Copy, PartialEq, Eq, Debug)]
pub struct Learner {
    /// The address that was signalled last.
    signalled: Addr,
    /// The flags that were signalled with it.
    flags: Flags,
    /// The learned source.
    learned: Option<Addr>,
}

/// What is learned once an accepted packet came from this source.
fn taught(flags: Flags, learned: Option<Addr>, source: Addr) -> Option<Addr>
    ensures { result ≡ lessons.taught flags learned source }
{
    let Some(known) = learned else {
        return if flags.asymmetric { None } else { Some(source) };
    };
    if !flags.asymmetric && flags.handover && !flags.strict {
        Some(source)
    } else {
        Some(known)
    }
}

impl Learner {
    ghost use Rattle.endpoint_learn.specs.SavedLearners.{FitsLearner, saved_learner};

    /// The bytes of a saved learner.
    pub const SAVED: usize = 41;

    /// A learner that was signalled this address with these flags.
    pub fn new(signalled: Addr, flags: Flags) -> Learner
        ensures { LearnerStandsFor result (Signalled signalled flags ∷ []) }
    {
        Learner {
            signalled,
            flags,
            learned: None,
        }
    }

    /// Whether a packet from this source may be taken.
    pub fn judge(&self, source: Addr) -> Judge
        ensures { (steps : List LearnStep) → LearnerStandsFor self.now steps → result ≡ judge_of (is_wrong_after steps source) }
    {
        let Some(known) = self.learned else {
            return Judge::Pass;
        };
        if self.flags.strict && !self.flags.asymmetric && known != source {
            Judge::WrongSource
        } else {
            Judge::Pass
        }
    }

    /// Learns from the source of an accepted packet.
    pub fn learn(&mut self, source: Addr)
        ensures { (steps : List LearnStep) → LearnerStandsFor self.old steps → LearnerStandsFor self.new (Heard source ∷ steps) }
    {
        self.learned = taught(self.flags, self.learned, source);
    }

    /// Takes a new signal. Learning begins again exactly where the address is another one.
    pub fn signal(&mut self, signalled: Addr, flags: Flags)
        ensures { (steps : List LearnStep) → LearnerStandsFor self.old steps → LearnerStandsFor self.new (Signalled signalled flags ∷ steps) }
    {
        if self.signalled != signalled {
            self.learned = None;
        }
        self.signalled = signalled;
        self.flags = flags;
    }

    /// Where packets go.
    pub fn endpoint(&self) -> Addr
        ensures { (steps : List LearnStep) → LearnerStandsFor self.now steps → endpoint_after steps ≡ Some result }
    {
        match self.learned {
            Some(source) if !self.flags.asymmetric => source,
            _ => self.signalled,
        }
    }

    /// The learner as bytes: the signalled address, the flags `strict source`, `media handover` and `asymmetric`, each as 0
    /// or 1, and the learned source, or 19 zeros where none was learned. An address is the version of its protocol, 16
    /// bytes, of which those of version 4 stand in front of 12 zeros, and the port, its higher byte first.
    pub fn save(self) -> [u8; Learner::SAVED]
        ensures { FitsLearner self × (result ≡ saved_learner self) }
    {
        let learned = match self.learned {
            None => [0; ADDR_SAVED],
            Some(source) => addr_bytes(source),
        };
        joined(addr_bytes(self.signalled), self.flags, learned)
    }

    /// The learner that is saved as these bytes, and None where none is.
    pub fn load(bytes: &[u8; Learner::SAVED]) -> Option<Learner>
        ensures some { IfSome result (λ learner. FitsLearner learner × (saved_learner learner ≡ bytes.now)) }
        ensures none { IfNone result ((learner : Learner) → FitsLearner learner → saved_learner learner ≡ bytes.now → ⊥) }
    {
        let learner = Learner::read(bytes);
        if learner.save() == *bytes {
            Some(learner)
        } else {
            None
        }
    }

    /// The learner that is saved as these bytes, where one is.
    fn read(bytes: &[u8; Learner::SAVED]) -> Learner
        ensures { (learner : Learner) → FitsLearner learner → saved_learner learner ≡ bytes.now → result ≡ learner }
    {
        let learned = if bytes[22] == 0 {
            None
        } else {
            Some(addr_of(&part(bytes, 22)))
        };
        Learner {
            signalled: addr_of(&part(bytes, 0)),
            flags: Flags {
                strict: bytes[19] == 1,
                handover: bytes[20] == 1,
                asymmetric: bytes[21] == 1,
            },
            learned,
        }
    }
}
