// A turn that has come.
use crate::kept::Kept;
use crate::view::ViewOf;
use atomic_table::Seat;
use std::marker::Model;

/// A turn: the value, out of the book, to be given back by [`crate::Book::finish`] or [`crate::Book::leave`]. It cannot be let
/// go otherwise.
pub struct Turn<V: Kept> {
    pub(crate) value: V,
    pub(crate) seat: Seat<Option<V>, ViewOf<V::Entry>>,
}

impl<V: Kept> Model for Turn<V> {
    ghost use Rattle.std.specs.Prelude.{◌≡◌, [], ◌∷◌, None};
    ghost use Rattle.chv_book.specs.declared.view.Stage.TheVariants.{Serves};
    ghost use Rattle.chv_defs_book.specs.Passes.{TurnView};
    ghost use Rattle.chv_book.specs.PassSeats.{held};

    ghost Value = { TurnView V V.Entry V.Entry.Origin };

    ghost view = { λ t. held t.seat.table_id t.seat.me.0 t.value };

    ghost invariant = { λ t. (t.seat.me.1 ≡ (0, None) ∷ []) × (t.seat.me.0.stage ≡ Serves) };
}

impl<V: Kept> Turn<V> {
    ghost use Rattle.std.specs.Prelude.{◌≡◌, [], ◌∷◌, None};
    ghost use Rattle.chv_book.specs.declared.view.Stage.TheVariants.{Serves};
    ghost use Rattle.chv_book.specs.PassSeats.{held};

    pub(crate) fn of(value: V, seat: Seat<Option<V>, ViewOf<V::Entry>>) -> Turn<V>
        requires { (seat.me.1 ≡ (0, None) ∷ []) × (seat.me.0.stage ≡ Serves) }
        ensures { result ≡ held seat.table_id seat.me.0 value }
    {
        Turn { value, seat }
    }

    pub(crate) fn into_parts(self) -> (V, Seat<Option<V>, ViewOf<V::Entry>>)
        ensures turn { self ≡ held result.1.table_id result.1.me.0 result.0 }
        ensures empty { result.1.me.1 ≡ (0, None) ∷ [] }
        ensures serves { result.1.me.0.stage ≡ Serves }
    {
        let Turn { value, seat } = self;
        (value, seat)
    }
}
