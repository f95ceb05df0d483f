//! How a command was carried out.

use crate::device_answers::DeviceAnswers;
use ng_bencode::Text;
use offer_answer::ChosenLines;

/// How a command was carried out.
#[derive(Drop)]
pub struct CommandOutcome {
    /// The crypto lines that were chosen in its description.
    pub chosen_lines: ChosenLines,
    /// What the devices returned.
    pub device_answers: DeviceAnswers,
    /// The datagram of its reply. None: out of memory.
    pub reply: Option<Text>,
}
