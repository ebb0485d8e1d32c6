// The value of a turn, to change.
ghost use Rattle.std.specs.Prelude.{◌≡◌};
ghost use Rattle.std.specs.Borrow.{sem};
ghost use Rattle.chv_book.specs.TurnValue.{lends_value};

use crate::kept::Kept;
use crate::turn::Turn;

impl<V: Kept> Turn<V> {
    /// The value. When the borrow ends, the turn has what was written through it.
    pub fn value(&mut self) -> &mut V
        ensures* writes_back { sem 𝓛 (lends_value V.row V.Entry.row V.Entry.Origin.row V.Kept V.Entry.HistoryEntry self.entry result) }
        ensures value { result.now ≡ self.old.value }
    {
        &mut self.value
    }
}
