//! A dialog as a record, by which another process goes on with its call.

ghost use Rattle.std.specs.Prelude.{◌≡◌, IfOk, IsOk, IfSome, IsSome};
ghost use Rattle.offer_answer.specs.SavedDialogs.{DialogSaves, DialogMoves, AwaitsMoves};

use crate::dialog::Dialog;
use crate::last_offer::LastOffer;
use crate::leg::DialogSection;
use ng_bencode::Text;
use relay_outside::OutOfMemory;
use sdp_text::MOST_SECTIONS;

/// All that a dialog keeps, also of an offer that no answer has come to: its crypto lines among it. Each such record is some dialog's.
#[derive(Drop)]
pub struct DialogSaved {
    /// The tag of the side that makes the first offer.
    pub first_tag: Text,
    /// Whether that offer was accepted.
    pub is_begun: bool,
    /// The tag of the side that answers it, once there is an answer.
    pub answering_tag: Option<Text>,
    /// Whether an answer was committed.
    pub has_answer: bool,
    /// Whether an offer followed the first answer.
    pub is_settled: bool,
    /// How many sections the last committed offer has, 0 before the first answer.
    pub committed_count: usize,
    /// The last accepted offer, once there is one.
    pub last_offer: Option<LastOffer>,
    /// The sections, in the order of the descriptions.
    pub sections: [DialogSection; MOST_SECTIONS],
}

impl Dialog {
    /// The dialog as a record. It takes no memory and always gives one.
    pub fn into_saved(self) -> Result<DialogSaved, OutOfMemory>
        ensures saved { IfOk result (DialogSaves self) }
        ensures always { IsOk result }
    {
        let Dialog {
            first_tag,
            is_begun,
            answering_tag,
            has_answer,
            is_settled,
            committed_count,
            last_offer,
            sections,
        } = self;
        Ok(DialogSaved {
            first_tag,
            is_begun,
            answering_tag,
            has_answer,
            is_settled,
            committed_count,
            last_offer,
            sections,
        })
    }

    /// The dialog that was saved. It takes no memory. Each record is some dialog's, so there always is one.
    pub fn from_saved(saved: DialogSaved) -> Result<Option<Dialog>, OutOfMemory>
        ensures loaded { IfOk result (λ dialog. IfSome dialog (λ given. DialogSaves given saved)) }
        ensures always { IsOk result × IfOk result IsSome }
    {
        let DialogSaved {
            first_tag,
            is_begun,
            answering_tag,
            has_answer,
            is_settled,
            committed_count,
            last_offer,
            sections,
        } = saved;
        Ok(Some(Dialog {
            first_tag,
            is_begun,
            answering_tag,
            has_answer,
            is_settled,
            committed_count,
            last_offer,
            sections,
        }))
    }
}

/// A dialog that was loaded stands for all rounds, and awaits all tags, for which the saved one did.
pub fn dialog_moves()
    ensures stands { DialogMoves }
    ensures awaits { AwaitsMoves }
{}
