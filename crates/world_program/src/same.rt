//! Equal values.
ghost use Rattle.std.specs.Prelude.{◌≡◌};
ghost use Rattle.backend_trait.specs.declared.answer.Answer.TheVariants as answers;
ghost use Rattle.session_machine.specs.Answers.{is_same};
ghost use Rattle.world_program.specs.Deciding.{same_warning, same_outcome, same_cause};

use pool_base::{Code, List};
use session_machine::Cause;
use session_orders::Outcome;
use sql_eval::Row;

pub(crate) fn same_rows(x: &List<Row>, y: &List<Row>) -> bool
    ensures { result ≡ is_same (answers.Rows x.now) (answers.Rows y.now) }
{
    *x == *y
}

fn same_warning(x: Option<Code>, y: Option<Code>) -> bool
    ensures { result ≡ same_warning x y }
{
    match x {
        None => y.is_none(),
        Some(x) => match y {
            None => false,
            Some(y) => x == y,
        },
    }
}

pub(crate) fn same_outcome(x: &Outcome, y: &Outcome) -> bool
    ensures { result ≡ same_outcome x.now y.now }
{
    match x {
        Outcome::Rows { rows: a, tag: x } => match y {
            Outcome::Rows { rows: b, tag: y } => same_rows(a, b) && *x == *y,
            Outcome::Done { .. } | Outcome::Settled | Outcome::Nodes(_) | Outcome::Error { .. } =>
                false,
        },
        Outcome::Done { tag: a, warning: x } => match y {
            Outcome::Done { tag: b, warning: y } => *a == *b && same_warning(*x, *y),
            Outcome::Rows { .. } | Outcome::Settled | Outcome::Nodes(_) | Outcome::Error { .. } =>
                false,
        },
        Outcome::Settled => match y {
            Outcome::Settled => true,
            Outcome::Rows { .. }
            | Outcome::Done { .. }
            | Outcome::Nodes(_)
            | Outcome::Error { .. } => false,
        },
        Outcome::Nodes(a) => match y {
            Outcome::Nodes(b) => a.bits == b.bits,
            Outcome::Rows { .. }
            | Outcome::Done { .. }
            | Outcome::Settled
            | Outcome::Error { .. } => false,
        },
        Outcome::Error { code: a, name: x } => match y {
            Outcome::Error { code: b, name: y } => *a == *b && *x == *y,
            Outcome::Rows { .. } | Outcome::Done { .. } | Outcome::Settled | Outcome::Nodes(_) =>
                false,
        },
    }
}

pub(crate) fn same_cause(x: &Cause, y: &Cause) -> bool
    ensures { result ≡ same_cause x.now y.now }
{
    match x {
        Cause::Fault {
            before: a,
            after: x,
        } => match y {
            Cause::Fault {
                before: b,
                after: y,
            } => *a == *b && *x == *y,
            Cause::Differs { .. } => false,
        },
        Cause::Differs { kept: a, own: x } => match y {
            Cause::Differs { kept: b, own: y } => *a == *b && *x == *y,
            Cause::Fault { .. } => false,
        },
    }
}
