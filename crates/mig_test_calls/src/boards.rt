//! Boards, coloured by hand.

use mig_base::{Colour, CopyId, EdgeId};
use mig_board::Board;
use std::panic::Expect;
use std::prelude::HostRuntime;

/// A path of four nodes in two colours, and beside its middle edge another one that has no colour.
#[test]
fn exchanges_a_path(rt: HostRuntime) {
    let path = [
        (CopyId(0), CopyId(1)),
        (CopyId(1), CopyId(2)),
        (CopyId(2), CopyId(3)),
        (CopyId(1), CopyId(2)),
    ];
    let path = path.to_vec(rt.alloc()).expect(&rt, "ample memory");
    let mut board = Board::new(rt.alloc(), 4, path, 2).expect(&rt, "ample memory");
    board.paint(EdgeId(0), Colour(0));
    board.paint(EdgeId(1), Colour(1));
    board.paint(EdgeId(2), Colour(0));
    assert!(&rt;
        board.missing(CopyId(0)) == Some(Colour(1))
            && board.missing(CopyId(1)).is_none()
            && board.common(CopyId(0), CopyId(3)) == Some(Colour(1))
            && board.common(CopyId(0), CopyId(1)).is_none()
            && board.far(CopyId(0), Colour(1), Colour(0)) == CopyId(3)
    );
    assert!(&rt; board.exchange(CopyId(0), Colour(1), Colour(0)) == CopyId(3));
    assert!(&rt;
        board.colour_of(EdgeId(0)) == Some(Colour(1))
            && board.colour_of(EdgeId(1)) == Some(Colour(0))
            && board.colour_of(EdgeId(2)) == Some(Colour(1))
            && board.colour_of(EdgeId(3)).is_none()
            && board.missing(CopyId(0)) == Some(Colour(0))
            && board.edge_at(CopyId(1), Colour(0)) == Some(EdgeId(1))
    );
}

/// An edge of a colour of the second word.
#[test]
fn tells_what_is_free_in_two_words(rt: HostRuntime) {
    let one = [(CopyId(0), CopyId(1))];
    let one = one.to_vec(rt.alloc()).expect(&rt, "ample memory");
    let mut board = Board::new(rt.alloc(), 2, one, 70).expect(&rt, "ample memory");
    board.paint(EdgeId(0), Colour(65));
    let words: [u64; 2] = [18446744073709551615, 61];
    assert!(&rt;
        board.free_words(CopyId(0)) == &words[..] && board.missing(CopyId(0)) == Some(Colour(0))
    );
}
