//! A shelf of backends.
ghost use Rattle.std.specs.Prelude.{◌≡◌, ◌+◌, true, All, OnOk, length};
ghost use Rattle.backend_trait.specs.Store.{blank};

use backend_trait::Backend;
use pool_base::NoMemory;

/// Puts one more blank backend on the shelf.
pub fn put<B: Backend>(shelf: &mut Vec<B>, one: B) -> Result<(), NoMemory>
    requires blank_one { B.meaning one ≡ blank }
    requires honest_one { B.is_honest one ≡ true }
    requires prompt_one { B.is_prompt one ≡ true }
    requires steady_one { B.is_steady one ≡ true }
    requires blank_each { All (λ b. B.meaning b ≡ blank) shelf.old.items }
    requires honest { All (λ b. B.is_honest b ≡ true) shelf.old.items }
    requires prompt { All (λ b. B.is_prompt b ≡ true) shelf.old.items }
    requires steady { All (λ b. B.is_steady b ≡ true) shelf.old.items }
    ensures blank_each { OnOk result (All (λ b. B.meaning b ≡ blank) shelf.new.items) }
    ensures honest { OnOk result (All (λ b. B.is_honest b ≡ true) shelf.new.items) }
    ensures prompt { OnOk result (All (λ b. B.is_prompt b ≡ true) shelf.new.items) }
    ensures steady { OnOk result (All (λ b. B.is_steady b ≡ true) shelf.new.items) }
    ensures len { OnOk result (length shelf.new.items ≡ length shelf.old.items + 1) }
{
    shelf.push(one)?;
    Ok(())
}
