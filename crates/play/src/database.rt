//! What runs statements.
ghost use Rattle.std.specs.Prelude.{◌≡◌, ℕ, List, IfOk, OnOk, true, None};
ghost use Rattle.schema.specs.declared.catalogue.TableDef.{TableDef};
ghost use Rattle.backend_trait.specs.Rows.{Rows};
ghost use Rattle.backend_trait.specs.Alone.{IsEffect};
ghost use Rattle.backend_trait.specs.Runnable.{IsRunnable, is_of_run};
ghost use Rattle.classifier.specs.Classes.{lock_of};
ghost use Rattle.play.specs.Replies.{given_on, rows_after};

use backend_trait::{Answer, Checked};
use pool_base::NoMemory;

/// What runs one statement after another, each in a transaction of its own that is committed.
pub trait Database {
    /// The tables.
    ghost tables: { Self → List TableDef };

    /// The committed rows.
    ghost rows: { Self → Rows };

    /// How many copies of them it has.
    ghost copies: { Self → ℕ };

    /// Whether it is ready for a statement.
    ghost is_ready: { Self → Type 0 };

    /// Runs a statement that draws no serial numbers. After want of memory it may be ready no more.
    fn run(&mut self, statement: &Checked) -> Result<Answer, NoMemory>
        requires ready { is_ready self.old }
        requires runnable { IsRunnable (tables self.old) statement.now }
        requires draws_none { lock_of statement.now.body ≡ None }
        ensures answer { IfOk result
            (λ answer. IsEffect (given_on (tables self.old) (rows self.old) statement.now)
            answer) }
        ensures form { IfOk result (λ answer. is_of_run statement.now answer ≡ true) }
        ensures rows { IfOk result (λ answer. rows self.new
            ≡ rows_after (tables self.old) (rows self.old) statement.now) }
        ensures tables { OnOk result (tables self.new ≡ tables self.old) }
        ensures copies { OnOk result (copies self.new ≡ copies self.old) }
        ensures ready { OnOk result (is_ready self.new) };
}
