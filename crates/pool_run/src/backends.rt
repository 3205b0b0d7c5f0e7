//! The first backends of a shelf as what runs statements.
ghost use Rattle.std.specs.Prelude.{◌≡◌, true, None, IfOk, OnOk, map, take};
ghost use Rattle.backend_trait.specs.Alone.{given_on, IsEffect, rows_after};
ghost use Rattle.session_core.specs.Statements.{primary_rows, primary_tables};
ghost use Rattle.backend_trait.specs.Runnable.{IsRunnable, is_of_run};
ghost use Rattle.classifier.specs.Classes.{lock_of};
ghost use Rattle.pool_run.specs.Shelf.{AreBackends};

use backend_trait::{Answer, Backend, Checked};
use play::Database;
use pool_base::{NoMemory, SessionId};
use session_core::run_statement;
use write_path::Chain;

/// A shelf whose first boxes, `count` of them, run the statements of a session.
#[derive(Drop)]
pub struct Backends<B: Backend> {
    pub chain: Chain<Answer>,
    pub shelf: Vec<B>,
    pub count: usize,
    pub session: SessionId,
}

impl<B: Backend> Database for Backends<B> {
    ghost tables = { λ d. primary_tables (map B.meaning (take d.count d.shelf.items)) };

    ghost rows = { λ d. primary_rows (map B.meaning (take d.count d.shelf.items)) };

    ghost copies = { λ d. d.count };

    ghost is_ready = { λ d. AreBackends B.meaning B.is_honest B.is_prompt B.is_steady d.count
        (take d.count d.shelf.items) };

    #[tactic(auto, unfolding(play::specs::Replies::given_on, play::specs::Replies::rows_after))]
    fn run(&mut self, statement: &Checked) -> Result<Answer, NoMemory> {
        let shelf = self.shelf.as_mut_slice();
        run_over(&mut self.chain, shelf, self.count, self.session, statement)
    }
}

/// Runs a statement over the first backends of a shelf.
fn run_over<B: Backend>(
    chain: &mut Chain<Answer>,
    shelf: &mut [B],
    count: usize,
    s: SessionId,
    statement: &Checked,
) -> Result<Answer, NoMemory>
    requires backends { AreBackends B.meaning B.is_honest B.is_prompt B.is_steady count (take count
        shelf.old) }
    requires runnable { IsRunnable (primary_tables (map B.meaning (take count shelf.old)))
        statement.now }
    requires draws_none { lock_of statement.now.body ≡ None }
    ensures answer { IfOk result (λ answer. IsEffect (given_on (primary_tables (map B.meaning (take
        count shelf.old))) (primary_rows (map B.meaning (take count shelf.old))) statement.now)
        answer) }
    ensures form { IfOk result (λ answer. is_of_run statement.now answer ≡ true) }
    ensures rows { OnOk result (primary_rows (map B.meaning (take count shelf.new)) ≡ rows_after
        (primary_tables (map B.meaning (take count shelf.old)))
        (primary_rows (map B.meaning (take count shelf.old))) statement.now) }
    ensures tables { OnOk result (primary_tables (map B.meaning (take count shelf.new))
        ≡ primary_tables (map B.meaning (take count shelf.old))) }
    ensures ready { OnOk result (AreBackends B.meaning B.is_honest B.is_prompt B.is_steady count
        (take count shelf.new)) }
{
    run_statement(chain, &mut shelf[..count], s, statement)
}
