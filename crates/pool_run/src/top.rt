//! The top call.
ghost use Rattle.std.specs.Prelude.{◌≡◌, ◌≢◌, ◌≤◌, ◌⊎◌, ℕ, Bool, List as Sequence, Some, None, All, true, length, map, false};
ghost use Rattle.pool_base.specs.Outside.{Rose, content};
ghost use Rattle.backend_trait.specs.Store.{blank};
ghost use Rattle.pool_command.specs.Command.{command_of};
ghost use Rattle.pool_command.specs.declared.command.Command.{Command};
ghost use Rattle.pool_command.specs.declared.command.Command.TheVariants.{Play};
ghost use Rattle.pool_run.specs.Texts.{config_name, schema_name};
ghost use Rattle.pool_run.specs.Ways.{SaysOneClient};
ghost use Rattle.pool_run.specs.Schemas.{IsRefusedSchema};
ghost use Rattle.pool_run.specs.Scripts.{IsRefusedScript};
ghost use Rattle.pool_run.specs.Journals.{PlayedAsOneStore};
ghost use Rattle.pool_run.specs.Replies.{RepliesAsOneStore};
ghost use Rattle.pool_run.specs.Ends.{outside, Returns, Played, TextIsRefused, IsRefusedText, ScriptIsRefused};

use crate::running::run;
use backend_trait::Backend;
use pool_base::{Files, Sink};
use std::alloc::Global;

/// Runs the command of the words: its output goes to `out`, and its status is the result.
pub fn pool_run<F: Files, O: Sink>(
    alloc: Global,
    words: &[&str],
    files: &mut F,
    out: &mut O,
    shelf: &mut Vec<Box<dyn Backend>>,
) -> u8
    // Boxes enough, each a blank store that is honest, prompt and steady.
    requires enough { 8 ≤ length shelf.old.items }
    requires blank_each { All (λ x. meaning x ≡ blank) shelf.old.items }
    requires honest { All (λ x. is_honest x ≡ true) shelf.old.items }
    requires prompt { All (λ x. is_prompt x ≡ true) shelf.old.items }
    requires steady { All (λ x. is_steady x ≡ true) shelf.old.items }

    // Each status comes with its cause, and with what was written.
    ensures ends { Returns (map (λ w. w.now) words.now) (F.contents files.old)
        (F.fault_count files.old) (F.fault_count files.new) result
        (outside (O.fault_count out.old) (O.fault_count out.new) (O.taken out.old)
        (O.taken out.new) (map (λ x. meaning x) shelf.old.items)
        (map (λ x. meaning x) shelf.new.items)) }

    // Status 0, where the script that the file contains is one client's single statements and takes
    // no serial number of the schema's tables: the transcript of one store, and each backend, the
    // first boxes, has the rows that it leaves.
    ensures played { result ≡ 0 → (config schema script text : Sequence ℕ)
        → command_of (map (λ w. w.now) words.now) ≡ Some (Play config schema script false)
        → F.contents files.old script ≡ content text
        → SaysOneClient (F.contents files.old schema) text
        → Played (F.contents files.old config) (F.contents files.old schema) text
        (outside (O.fault_count out.old) (O.fault_count out.new) (O.taken out.old) (O.taken out.new)
        (map (λ x. meaning x) shelf.old.items) (map (λ x. meaning x) shelf.new.items)) }
    // Status 0 or 6, where the journal is kept: behind the transcript of the script that the file
    // contains stands a journal, whose events are a schedule of the replicated world that the
    // configuration and the schema say, and so of one run of one store.
    ensures one_store { (result ≡ 0) ⊎ (result ≡ 6) → (config schema script : Sequence ℕ)
        → command_of (map (λ w. w.now) words.now) ≡ Some (Play config schema script true)
        → PlayedAsOneStore (F.contents files.old config) (F.contents files.old schema)
        (F.contents files.old script) (O.taken out.old) (O.taken out.new) }
    // Status 0 or 6, with its journal or without: what was written of the script that the file
    // contains is the transcript of such a schedule. Behind the echo of each line stands what each
    // client is told: what its wire puts out, led by what the lines have sent and by the replies of
    // the schedule; and the lines of detachments, attachments and closings. A journal tells this
    // very schedule. The first boxes have the stores to which it leads, and the status is 6 exactly
    // where it leaves no backend attached. Of one client's single statements `played` says it.
    ensures replies { (result ≡ 0) ⊎ (result ≡ 6) → (config schema script : Sequence ℕ)
        (journal : Bool)
        → command_of (map (λ w. w.now) words.now) ≡ Some (Play config schema script journal)
        → RepliesAsOneStore (F.contents files.old config) (F.contents files.old schema)
        (F.contents files.old script) journal result (map (λ x. meaning x) shelf.new.items)
        (O.taken out.old) (O.taken out.new) }
    // Status 1: exactly where the words are no command, unless its line could not be written or
    // memory was refused while they were read.
    ensures no_command { result ≡ 1 → command_of (map (λ w. w.now) words.now) ≡ None }
    ensures always { command_of (map (λ w. w.now) words.now) ≡ None → (result ≡ 1) ⊎ (((result ≡ 5)
        × Rose (O.fault_count out.old) (O.fault_count out.new)) ⊎ (result ≡ 7)) }
    // Status 2: exactly where the configuration that the command names is refused, or it stands and
    // the schema is refused; unless a text was not read, its line could not be written, or memory
    // was refused.
    ensures refused { result ≡ 2 → TextIsRefused (map (λ w. w.now) words.now)
        (F.contents files.old) (outside (O.fault_count out.old) (O.fault_count out.new)
        (O.taken out.old) (O.taken out.new) (map (λ x. meaning x) shelf.old.items)
        (map (λ x. meaning x) shelf.new.items)) }
    ensures accepted { result ≡ 2 → (command : Command) (text schema : Sequence ℕ)
        → command_of (map (λ w. w.now) words.now) ≡ Some command
        → F.contents files.old (config_name command) ≡ content text
        → F.contents files.old (schema_name command) ≡ content schema
        → IsRefusedText text ⊎ IsRefusedSchema schema }
    ensures refuses { (command : Command) (text : Sequence ℕ)
        → command_of (map (λ w. w.now) words.now) ≡ Some command
        → F.contents files.old (config_name command) ≡ content text → IsRefusedText text
        → (result ≡ 2) ⊎ (((result ≡ 4) × Rose (F.fault_count files.old) (F.fault_count files.new))
        ⊎ (((result ≡ 5) × Rose (O.fault_count out.old) (O.fault_count out.new))
        ⊎ (result ≡ 7))) }
    ensures schema_refuses { (command : Command) (text : Sequence ℕ)
        → command_of (map (λ w. w.now) words.now) ≡ Some command
        → F.contents files.old (schema_name command) ≡ content text → IsRefusedSchema text
        → (result ≡ 2) ⊎ (((result ≡ 4) × Rose (F.fault_count files.old) (F.fault_count files.new))
        ⊎ (((result ≡ 5) × Rose (O.fault_count out.old) (O.fault_count out.new))
        ⊎ (result ≡ 7))) }
    // Status 3: exactly where the script that the command names is refused, unless the
    // configuration or the schema is, a file was not read, its line could not be written, or
    // memory was refused.
    ensures script_refused { result ≡ 3 → ScriptIsRefused (map (λ w. w.now) words.now)
        (F.contents files.old) (outside (O.fault_count out.old) (O.fault_count out.new)
        (O.taken out.old) (O.taken out.new) (map (λ x. meaning x) shelf.old.items)
        (map (λ x. meaning x) shelf.new.items)) }
    ensures script_accepted { result ≡ 3 → (config schema script text : Sequence ℕ)
        (journal : Bool)
        → command_of (map (λ w. w.now) words.now) ≡ Some (Play config schema script journal)
        → F.contents files.old script ≡ content text → IsRefusedScript text }
    ensures script_refuses { (config schema script text : Sequence ℕ) (journal : Bool)
        → command_of (map (λ w. w.now) words.now) ≡ Some (Play config schema script journal)
        → F.contents files.old script ≡ content text → IsRefusedScript text
        → (result ≡ 3) ⊎ ((result ≡ 2)
        ⊎ (((result ≡ 4) × Rose (F.fault_count files.old) (F.fault_count files.new))
        ⊎ (((result ≡ 5) × Rose (O.fault_count out.old) (O.fault_count out.new))
        ⊎ (result ≡ 7)))) }
    // Statuses 1, 2, 3, 4 and 9: no box was touched.
    ensures untouched { result ≢ 0 → result ≢ 5 → result ≢ 6 → result ≢ 7 → result ≢ 10
        → map (λ x. meaning x) shelf.new.items ≡ map (λ x. meaning x) shelf.old.items }
    // Status 4 and 5: only where the count rose.
    ensures files { result ≡ 4 → Rose (F.fault_count files.old) (F.fault_count files.new) }
    ensures sink { result ≡ 5 → Rose (O.fault_count out.old) (O.fault_count out.new) }
{
    run(alloc, words, files, out, shelf)
}
