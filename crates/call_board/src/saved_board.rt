//! A board as a value with public fields, and back.

ghost use Rattle.std.specs.Prelude.{◌≡◌, ◌↔◌, List, IfOk, IfSome, IfNone, IsTrue};
ghost use Rattle.indexmap.specs.IndexMap.{values};
ghost use Rattle.relay_outside.specs.declared.settings.Config.{Config};
ghost use Rattle.cookie_cache.specs.Saved.{FitsCache};
ghost use Rattle.port_pool.specs.SavedPools.{FitsPool};
ghost use Rattle.call_board.specs.declared.board.Board.{Board};
ghost use Rattle.call_board.specs.declared.saved_board.BoardSaved.{BoardSaved};
ghost use Rattle.call_board.specs.Acts.{BoardEntry};
ghost use Rattle.call_board.specs.Fits.{IsFitting};
ghost use Rattle.call_board.specs.Views.{View};
ghost use Rattle.call_board.specs.Boards.{BoardFor, BoardMatches};
ghost use Rattle.call_board.specs.SavedBoards.{CallSaves, CallsSave, BoardSaves, WholeBoard, NoBoardSaves, CallFollows, AreWholeCalls, MarksCells, cells_of_live};
ghost use Rattle.call_board.specs.declared.live_call.LiveCall.{LiveCall};

use crate::board::Board;
use crate::cell_marks::mark_cell;
use crate::live_call::LiveCall;
use crate::live_calls::LiveCalls;
use cookie_cache::{CacheSaved, CookieCache};
use indexmap::IndexMap;
use ng_bencode::Text;
use offer_answer::DialogSaved;
use port_pool::{Pool, PoolSaved};
use relay_outside::{Config, OutOfMemory};
use std::alloc::Global;

/// A live call of a saved board.
#[derive(Drop)]
pub struct CallSaved {
    /// Its number: no two calls have one.
    pub number: u64,
    /// Its cell, from 1: no two live calls have one.
    pub cell: u32,
    /// Its call-id: no two live calls have one.
    pub id: Text,
    /// What its dialog keeps.
    pub dialog: DialogSaved,
    /// The moment of its first accepted offer, in milliseconds.
    pub first_moment: u64,
    /// The moment of its last accepted offer or answer.
    pub last_moment: u64,
    /// The moment from which a tick ends it. `None`: it isn't ending.
    pub due_moment: Option<u64>,
}

/// All that a `Board` keeps: `Board::into_saved` gives it, and `Board::from_saved` makes a board of it.
#[derive(Drop)]
pub struct BoardSaved {
    /// What the relay is run with.
    pub config: Config,
    /// The greatest moment so far, in milliseconds.
    pub moment: u64,
    /// How many calls were begun: the number of the next one.
    pub begun: u64,
    /// How many keys were drawn: the number of the next one.
    pub drawn: u64,
    /// The live calls, in order of creation: their numbers rise.
    pub calls: Vec<CallSaved>,
    /// The port pairs.
    pub pool: PoolSaved,
    /// The kept replies.
    pub replies: CacheSaved,
}

/// A live call as a value with public fields.
pub(crate) fn saved_call(call: LiveCall) -> Result<CallSaved, OutOfMemory>
    ensures { IfOk result (CallSaves call) }
{
    let LiveCall {
        number,
        cell,
        id,
        dialog,
        first_moment,
        last_moment,
        due_moment,
    } = call;
    let dialog = Box::into_inner(dialog).into_saved()?;
    Ok(CallSaved {
        number,
        cell,
        id,
        dialog,
        first_moment,
        last_moment,
        due_moment,
    })
}

/// Live calls in order as values with public fields.
pub(crate) fn saved_calls(
    alloc: Global,
    calls: IndexMap<Vec<u8>, LiveCall>,
) -> Result<Vec<CallSaved>, OutOfMemory>
    ensures { IfOk result (λ saved. CallsSave (values calls) saved.items) }
{
    let mut saved = Vec::new(alloc);
    for entry in calls {
        let (_, call) = entry;
        let one = saved_call(call)?;
        saved.push(one)?;
    }
    Ok(saved)
}

impl Board {
    /// The board as a value with public fields. `Err`: there was no memory for it.
    pub fn into_saved(self, alloc: Global) -> Result<BoardSaved, OutOfMemory>
        ensures { IfOk result (λ saved. FitsPool self.pool × FitsCache self.replies × BoardSaves self saved) }
    {
        let Board {
            config,
            moment,
            begun,
            drawn,
            calls,
            taken: _,
            pool,
            replies,
        } = self;
        Ok(BoardSaved {
            config,
            moment,
            begun,
            drawn,
            calls: calls.into_saved(alloc)?,
            pool: pool.into_saved()?,
            replies: replies.into_saved()?,
        })
    }

    /// The board that is saved so, and `None` where none is: the numbers of its calls don't rise below that of the next call, a
    /// call-id or a cell stands twice, a cell is none, the pool is none, or the kept replies are none. `Err`: there was no memory
    /// for it.
    pub fn from_saved(alloc: Global, saved: BoardSaved) -> Result<Option<Board>, OutOfMemory>
        ensures loaded { IfOk result (λ r. IfSome r (λ board. WholeBoard board × BoardSaves board saved)) }
        ensures refused { IfOk result (λ r. IfNone r (NoBoardSaves saved)) }
    {
        let BoardSaved {
            config,
            moment,
            begun,
            drawn,
            calls,
            pool,
            replies,
        } = saved;
        let Some((calls, taken)) = loaded_calls(alloc, begun, config.max_sessions, calls)? else {
            return Ok(None);
        };
        let Some(pool) = Pool::from_saved(alloc, pool)? else {
            return Ok(None);
        };
        let Some(replies) = CookieCache::from_saved(replies)? else {
            return Ok(None);
        };
        Ok(Some(Board {
            config,
            moment,
            begun,
            drawn,
            calls,
            taken,
            pool,
            replies,
        }))
    }
}

/// Whether a saved call may follow the live ones, where the next has at least that number, so many were begun and these
/// cells are taken.
fn may_follow(next: u64, begun: u64, taken: &[bool], calls: &LiveCalls, saved: &CallSaved) -> bool
    ensures { IsTrue result ↔ CallFollows next begun taken.now calls.now.list saved.now }
{
    if saved.number < next || saved.number >= begun {
        return false;
    }
    let cell = saved.cell as usize;
    if cell == 0 || cell > taken.len() || taken[cell - 1] {
        return false;
    }
    calls.place_of_id(saved.id.as_slice()).is_none()
}

/// The calls that are saved so, and which of so many cells they have. `None`: their numbers don't rise below that of the next
/// call, a call-id or a cell stands twice, or a cell is none.
fn loaded_calls(
    alloc: Global,
    begun: u64,
    cells: u32,
    saved: Vec<CallSaved>,
) -> Result<Option<(LiveCalls, Vec<bool>)>, OutOfMemory>
    ensures loaded { IfOk result (λ r. IfSome r (λ given. CallsSave given.0.list saved.items × AreWholeCalls begun cells given.0.list × MarksCells cells given.1.items (cells_of_live given.0.list))) }
    ensures refused { IfOk result (λ r. IfNone r ((calls : List LiveCall) → CallsSave calls saved.items → AreWholeCalls begun cells calls → ⊥)) }
{
    let mut calls = LiveCalls::new(alloc);
    let mut taken = Vec::from_elem(alloc, false, cells as usize)?;
    let mut next = 0;
    for one in saved {
        if !may_follow(next, begun, taken.as_slice(), &calls, &one) {
            return Ok(None);
        }
        next = one.number + 1;
        mark_cell(taken.as_mut_slice(), one.cell, true);
        calls.take_in(alloc, one)?;
    }
    Ok(Some((calls, taken)))
}

/// Theorem (no run-time code): a board that is loaded stands for all that the saved one stood for, and so for all histories.
pub fn board_moves()
    ensures { (config : Config) (old : Board) (new : Board) (saved : BoardSaved) (v : View) → WholeBoard new →
        BoardSaves old saved → BoardSaves new saved → BoardMatches config old v → BoardMatches config new v }
{}

/// Theorem (no run-time code): a board that stands for a history of entries that were each demanded is one that is loaded, with what
/// `into_saved` says of its pool and of its kept replies; so `from_saved` doesn't refuse what `into_saved` gave of it.
pub fn boards_are_loaded()
    ensures whole { (config : Config) (board : Board) (h : List BoardEntry) → IsFitting config h → BoardFor config board h →
        FitsPool board.pool → FitsCache board.replies → WholeBoard board }
    ensures loaded { (config : Config) (board : Board) (h : List BoardEntry) (saved : BoardSaved) → IsFitting config h → BoardFor config board h →
        FitsPool board.pool × FitsCache board.replies × BoardSaves board saved → NoBoardSaves saved → ⊥ }
{}
