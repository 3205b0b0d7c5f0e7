//! Room that was made before, so that what is put there takes no memory.
ghost use Rattle.std.specs.Prelude.{◌≡◌, ◌<◌, ◌≤◌, ◌+◌, ◌++◌, ◌∷◌, [], vec_len, vec_capacity};

/// Puts an item where there is room for it.
pub(crate) fn put<T: Drop>(items: &mut Vec<T>, item: T)
    requires { vec_len items.old < vec_capacity items.old }
    ensures items { items.new.items ≡ items.old.items ++ item ∷ [] }
    ensures len { vec_len items.new ≡ vec_len items.old + 1 }
    ensures capacity { vec_capacity items.old ≤ vec_capacity items.new }
{
    match items.push(item) {
        Ok(()) => (),
        Err(_) => unreachable!(),
    }
}

/// Puts items where there is room for them.
pub(crate) fn put_all<T: Drop>(items: &mut Vec<T>, more: Vec<T>)
    requires { vec_len items.old + vec_len more ≤ vec_capacity items.old }
    ensures items { items.new.items ≡ items.old.items ++ more.items }
    ensures len { vec_len items.new ≡ vec_len items.old + vec_len more }
    ensures capacity { vec_capacity items.old ≤ vec_capacity items.new }
{
    for item in more {
        put(items, item);
    }
}
