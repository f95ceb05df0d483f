//! What is told of the live calls.

use crate::call_board_tests::CONFIG;
use call_board::Board;
use call_report::list;
use ng_bencode::encode;

#[test]
fn a_board_without_calls_lists_none(rt: HostRuntime) {
    let Ok(board) = Board::new(rt.alloc(), &CONFIG) else {
        panic!(rt; "no memory for the board");
    };
    let Ok(listing) = list(rt.alloc(), &board, 32) else {
        panic!(rt; "no memory for the listing");
    };
    let Ok(text) = encode(rt.alloc(), &listing) else {
        panic!(rt; "no memory for the text");
    };
    assert!(rt; text.as_slice() == b"d5:callsle6:result2:oke".as_slice());
}
