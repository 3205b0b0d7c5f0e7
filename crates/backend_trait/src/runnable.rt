//! Which statements a store can run.
ghost use Rattle.std.specs.Prelude.{◌↔◌, IsTrue};
ghost use Rattle.backend_trait.specs.Runnable.{IsRunnable};

use crate::draws::draws_few;
use crate::timeless::is_timeless_body;
use catalogue::{Catalogue, Checked};
use checked_sql::is_of;

/// Whether a store of these tables can run a statement: it is of the tables, and neither parameters
/// nor time functions are left in it, and it draws no more serial numbers than are counted.
pub fn is_runnable(catalogue: &Catalogue, checked: &Checked) -> bool
    ensures { IsTrue result ↔ IsRunnable catalogue.now checked.now }
{
    checked.kinds.is_empty()
        && is_timeless_body(&checked.body)
        && draws_few(&checked.body)
        && is_of(catalogue, checked)
}
