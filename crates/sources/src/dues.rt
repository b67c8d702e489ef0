//! The dues of sources.

ghost use Rattle.std.specs.Prelude.{◌≡◌, ◌+◌, ◌≤◌, ◌++◌, option_to_list, vec_len, vec_capacity};

use due_index::DueNumber;
use emu_model::Due;

/// Appends a due, if there is one.
pub(crate) fn append(dues: &mut Vec<Due>, due: DueNumber)
    requires { vec_len dues.old + 1 ≤ vec_capacity dues.old }
    ensures items { dues.new.items ≡ dues.old.items ++ option_to_list due }
    ensures capacity { vec_capacity dues.new ≡ vec_capacity dues.old }
{
    if let Some(due) = due.due() {
        dues.push_reserved(due);
    }
}
