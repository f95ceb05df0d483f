//! What is recorded of a datagram.

use board_turns::DeviceAnswers;
use ng_bencode::Pairs;
use offer_answer::ChosenLines;

/// What the board's entry records of a datagram besides its bytes: a proof takes it from here.
#[derive(Drop)]
pub(crate) struct TurnRecord {
    /// The dictionary that its body spells, where it was read and is one.
    pub dictionary: Option<Pairs>,
    /// The crypto lines that were chosen in its description.
    pub chosen_lines: ChosenLines,
    /// What the devices returned.
    pub device_answers: DeviceAnswers,
}
