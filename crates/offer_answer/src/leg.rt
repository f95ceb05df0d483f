//! What a dialog keeps of a leg and of a section.

ghost use Rattle.std.specs.Prelude.{◌≡◌, None};
ghost use Rattle.offer_answer.specs.Dialogs.{key_for, leg_at};

use port_pool::Side;
use relay_outside::{Family, KeyAndSalt};
use sdes_lines::Suite;
use sdp_text::Proto;

/// A key that an offer drew for a leg.
#[derive(Clone, Copy, Debug, PartialEq, Eq)]
pub struct DrawnKey {
    /// Its number among the drawn keys.
    pub number: u64,
    /// The suite that it is for.
    pub suite: Suite,
    /// The master key (16 bytes) followed by the master salt (14 bytes).
    pub bytes: KeyAndSalt,
}

/// A leg of a section.
#[derive(Clone, Copy, Debug, PartialEq, Eq)]
pub struct Leg {
    /// The RTP port of its pair, 0 where it has none.
    pub port: u16,
    /// The family of its pair, where it has one.
    pub family: Option<Family>,
    /// The profile that the last offer gives it.
    pub offered: Option<Proto>,
    /// The profile that its last commit gave it.
    pub in_force: Option<Proto>,
    /// Its key with a tag of 80 bits.
    pub long_key: Option<DrawnKey>,
    /// Its key with a tag of 32 bits.
    pub short_key: Option<DrawnKey>,
    /// The key that its last commit put in force.
    pub key_in_force: Option<DrawnKey>,
}

/// A section of the dialog.
#[derive(Clone, Copy, Debug, PartialEq, Eq)]
pub struct DialogSection {
    /// Whether it has its two pairs of ports.
    pub has_pairs: bool,
    /// Whether an answer has committed it since it got them.
    pub is_committed: bool,
    /// The leg of side A.
    pub a: Leg,
    /// The leg of side B.
    pub b: Leg,
}

impl Leg {
    /// A leg before the first offer.
    pub(crate) const NONE: Leg = Leg {
        port: 0,
        family: None,
        offered: None,
        in_force: None,
        long_key: None,
        short_key: None,
        key_in_force: None,
    };

    /// The leg's key for a suite.
    pub(crate) fn key_for(&self, suite: Suite) -> Option<DrawnKey>
        ensures { result ≡ key_for self.now suite }
    {
        match suite {
            Suite::Tag80 => self.long_key,
            Suite::Tag32 => self.short_key,
        }
    }
}

impl DialogSection {
    /// A section before the first offer.
    pub(crate) const NONE: DialogSection = DialogSection {
        has_pairs: false,
        is_committed: false,
        a: Leg::NONE,
        b: Leg::NONE,
    };

    /// The leg of a side.
    pub(crate) fn leg(&self, side: Side) -> Leg
        ensures { result ≡ leg_at self.now side }
    {
        match side {
            Side::A => self.a,
            Side::B => self.b,
        }
    }
}
