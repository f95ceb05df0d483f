//! What the board plans for an answer.

ghost use Rattle.std.specs.Prelude.{◌≡◌, ◌<◌, [], List, Some, None, IfOk, position, length};
ghost use Rattle.std.specs.Str.{bytes_eq};
ghost use Rattle.relay_outside.specs.declared.settings.Config.{Config};
ghost use Rattle.sdp_text.specs.Lines.{lines_of};
ghost use Rattle.offer_answer.specs.Rounds.{AnswerAsk};
ghost use Rattle.offer_answer.specs.Plan.{AnswerRead};
ghost use Rattle.offer_answer.specs.Widths.{WritesFrom};
ghost use Rattle.call_board.specs.Views.{View, CallView, call_of_id};
ghost use Rattle.call_board.specs.Boards.{BoardMatches};
ghost use Rattle.call_board.specs.Plans.{PlansAnswer};
ghost use Rattle.call_board.specs.Shapes.{board_shape, PlansReply};

use crate::board::Board;
use crate::board_plan::BoardPlan;
use crate::fault::BoardFault;
use ng_command::AnswerIn;
use offer_answer::{ChosenLines, answer};
use sdp_text::Sdp;
use std::alloc::Global;

impl Board {
    /// The plan of an answer to the last offer of the live call in this place.
    fn plan_reply(
        &self,
        alloc: Global,
        place: usize,
        input: &AnswerIn,
        sdp: &Sdp,
    ) -> Result<BoardPlan, BoardFault>
        requires within { place < length self.now.calls.list }
        requires found { position (λ call. bytes_eq call.id.list input.now.call_id.list) self.now.calls.list ≡ Some place }
        ensures plans { (config : Config) (v : View) → BoardMatches config self.now v →
            PlansAnswer config input.now sdp.now (call_of_id v input.now.call_id.list) result }
        ensures writes { IfOk result (λ p. WritesFrom p.plan sdp.now) }
        ensures made { IfOk result (PlansReply self.now) }
    {
        let call = self.calls.at(place);
        if call.due_moment.is_some() {
            return Err(BoardFault::Ending);
        }
        let plan = answer(alloc, &self.config, &*call.dialog, input, sdp)?;
        Ok(BoardPlan {
            plan,
            call: call.number,
            cell: call.cell,
            begun: None,
            leases: None,
        })
    }

    /// The plan of an answer, or its first fault. It takes all memory that the answer needs of the board, and demands no pair and
    /// no key.
    ///
    /// `UnknownCall`: no live call has its call-id. `Ending`: that call is ending. A plan may be dropped: the board is as before.
    pub fn plan_answer(
        &mut self,
        alloc: Global,
        input: &AnswerIn,
        sdp: &Sdp,
    ) -> Result<BoardPlan, BoardFault>
        ensures same { self.new ≡ self.old }
        ensures plans { (config : Config) (v : View) → BoardMatches config self.old v →
            PlansAnswer config input.now sdp.now (call_of_id v input.now.call_id.list) result }
        ensures writes { IfOk result (λ p. WritesFrom p.plan sdp.now) }
        ensures shape { board_shape self.new ≡ board_shape self.old }
        ensures made { IfOk result (PlansReply self.old) }
    {
        match self.place_of_call(&input.call_id) {
            Some(place) => self.plan_reply(alloc, place, input, sdp),
            None => Err(BoardFault::UnknownCall),
        }
    }

    /// The crypto lines that are chosen in the description of an answer to the last offer of the live call with this call-id: for each
    /// section the first usable one that its side was offered. None where no live call has the call-id.
    pub fn hear_answer(&self, call_id: &[u8], sdp: &Sdp) -> ChosenLines
        ensures heard { (config : Config) (v : View) (c : CallView) (ask : AnswerAsk) → BoardMatches config self.now v →
            call_of_id v call_id.now ≡ Some c → lines_of ask.sdp ≡ sdp.now → ask.chosen ≡ result → AnswerRead c.rounds ask }
        ensures nothing { (config : Config) (v : View) → BoardMatches config self.now v → call_of_id v call_id.now ≡ None → result ≡ [] }
    {
        match self.calls.place_of_id(call_id) {
            Some(place) => self.calls.at(place).dialog.hear(sdp),
            None => ChosenLines::none(),
        }
    }
}
