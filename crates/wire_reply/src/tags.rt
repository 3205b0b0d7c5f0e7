//! The tags of statements that are done.
ghost use Rattle.std.specs.Prelude.{◌≡◌, ◌≤◌, ◌++◌, ◌↔◌, length, IfOk, IfSome, IsSome, IsTrue};
ghost use Rattle.std.specs.Fmt.{decimal};
ghost use Rattle.wire_reply.specs.Tags.{tag_text, is_fixed};

use pool_base::{NoMemory, Text};
use session_orders::Tag;
use std::alloc::Global;

/// A verb and a count.
fn counted(alloc: Global, verb: &str, count: u64) -> Result<Text, NoMemory>
    requires { length verb.now ≤ 9 }
    ensures text { IfOk result (λ text. text ≡ verb.now ++ decimal count) }
    ensures short { IfOk result (λ text. length text ≤ 29) }
{
    Ok(Text::from_string(format!(in alloc; "{verb}{count}")?))
}

/// The tag of a statement, with its count where it has one.
///
/// Source: PostgreSQL, Frontend/Backend Protocol, "CommandComplete". House rule: `SHOW` and
/// `PGPOOL RECOVER` are the tags of those two.
pub fn tag_text(alloc: Global, tag: Tag) -> Result<Text, NoMemory>
    ensures text { IfOk result (λ text. text ≡ tag_text tag) }
    ensures short { IfOk result (λ text. length text ≤ 29) }
{
    match tag {
        Tag::Select(count) => counted(alloc, "SELECT ", count),
        Tag::Insert(count) => counted(alloc, "INSERT 0 ", count),
        Tag::Update(count) => counted(alloc, "UPDATE ", count),
        Tag::Delete(count) => counted(alloc, "DELETE ", count),
        Tag::Begin => Text::from_str(alloc, "BEGIN"),
        Tag::Commit => Text::from_str(alloc, "COMMIT"),
        Tag::Rollback => Text::from_str(alloc, "ROLLBACK"),
        Tag::Show => Text::from_str(alloc, "SHOW"),
        Tag::Recover => Text::from_str(alloc, "PGPOOL RECOVER"),
    }
}

/// The tag of a statement that has no count. It takes no memory.
pub fn fixed_tag(tag: Tag) -> Option<&'static str>
    ensures text { IfSome result (λ word. word.now ≡ tag_text tag) }
    ensures short { IfSome result (λ word. length word.now ≤ 29) }
    ensures there { IsSome result ↔ IsTrue (is_fixed tag) }
{
    match tag {
        Tag::Begin => Some("BEGIN"),
        Tag::Commit => Some("COMMIT"),
        Tag::Rollback => Some("ROLLBACK"),
        Tag::Show => Some("SHOW"),
        Tag::Recover => Some("PGPOOL RECOVER"),
        Tag::Select(_) | Tag::Insert(_) | Tag::Update(_) | Tag::Delete(_) => None,
    }
}
