// The entries of the history.
ghost use Rattle.std.specs.Prelude.{◌≡◌, ◌+◌, ◌<◌, ◌≤◌, [], ◌∷◌, ◌++◌, vec_len, vec_capacity, OnOk};

use chv_defs_api::ControlEntry;
use std::alloc::AllocError;

/// Makes room for an entry, and for that of a Stop behind it.
pub fn make_room(history: &mut Vec<ControlEntry>) -> Result<(), AllocError>
    ensures items { history.new.items ≡ history.old.items }
    ensures len { vec_len history.new ≡ vec_len history.old }
    ensures ok { OnOk result (vec_len history.new + 2 ≤ vec_capacity history.new) }
    ensures capacity { vec_capacity history.old ≤ vec_capacity history.new }
{
    history.reserve(2)
}

/// Appends an entry, for which there is room.
pub fn put_entry(history: &mut Vec<ControlEntry>, entry: ControlEntry)
    requires { vec_len history.old < vec_capacity history.old }
    ensures items { history.new.items ≡ history.old.items ++ entry ∷ [] }
    ensures len { vec_len history.new ≡ vec_len history.old + 1 }
    ensures capacity { vec_capacity history.old ≤ vec_capacity history.new }
{
    history.push(entry).unwrap();
}
