ghost use Rattle.std.specs.Prelude.{◌≡◌, []};

use crate::cursor::DocCursor;
use std::alloc::Global;
use std::default::MadeWith;

/// A cursor of which there is a blank, over an empty list.
pub trait BlankCursor: DocCursor + MadeWith<Global> {
    ghost empty: { (c : Self) → Self.is_made_with c → Self.list c ≡ [] };
}
