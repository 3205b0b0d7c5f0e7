//! What the statements of a copy answer and leave.
ghost use Rattle.std.specs.Prelude.{◌≡◌, ◌<◌, ℕ, ℤ, suc, length, List, Option, None};
ghost use Rattle.pg_values.specs.declared.value.Value.{Value};
ghost use Rattle.schema.specs.declared.catalogue.TableDef.{TableDef};
ghost use Rattle.schema.specs.Allowed.{AreAllowed};
ghost use Rattle.sql_eval.specs.declared.row.Row.{Row};
ghost use Rattle.classifier.specs.Classes.{lock_of};
ghost use Rattle.backend_trait.specs.Typed.{AreAllStored};
ghost use Rattle.backend_trait.specs.declared.request.Request.TheVariants.{Run};
ghost use Rattle.backend_trait.specs.declared.answer.Answer.{Answer};
ghost use Rattle.backend_trait.specs.declared.answer.Answer.TheVariants as answers;
ghost use Rattle.backend_trait.specs.Rows.{Rows};
ghost use Rattle.backend_trait.specs.Store.{Alive, Live, Store, acted, drawn, settled, view_of};
ghost use Rattle.backend_trait.specs.Runnable.{IsRunnable};
ghost use Rattle.online_recovery.specs.Copies.{all_rows_in, no_rows_in, row_in, row_into};
ghost use Rattle.recovery_laws.specs.Copied.{Grants, IsCopied, IsFilled, Leaves, rows_copied};

/// The statements of a copy can be run by a store of the tables: the rows of a table, the DELETE,
/// and the INSERT of each row that was read. The INSERT takes no lock first.
pub fn copies_can_be_run()
    ensures rows { (tables : List TableDef) (n : ℕ) → AreAllowed tables → n < length tables
        → IsRunnable tables (all_rows_in tables n) }
    ensures none { (tables : List TableDef) (n : ℕ) → n < length tables
        → IsRunnable tables (no_rows_in n) }
    ensures row { (tables : List TableDef) (n left : ℕ) (source : Rows) (rows : List Row)
        → n < length tables → AreAllStored tables source → rows ≡ rows_copied tables source n
        → left < length rows → IsRunnable tables (row_into tables n (row_in rows left)) }
    ensures unlocked { (tables : List TableDef) (n : ℕ) (values : List Value)
        → lock_of (row_into tables n values).body ≡ None }
{}

/// They draw no serial number, whatever they are answered.
pub fn copies_draw_no_numbers()
    ensures rows { (tables : List TableDef) (next : ℕ → Option ℤ) (n : ℕ)
        → drawn tables next (Run (all_rows_in tables n)) ≡ next }
    ensures none { (tables : List TableDef) (next : ℕ → Option ℤ) (n : ℕ)
        → drawn tables next (Run (no_rows_in n)) ≡ next }
    ensures row { (tables : List TableDef) (next : ℕ → Option ℤ) (n : ℕ) (values : List Value)
        → drawn tables next (Run (row_into tables n values)) ≡ next }
{}

/// A read answers the rows of the table that the transaction sees, and leaves all as it was.
pub fn reads_list_the_table()
    ensures answer { (st : Store) (s n : ℕ) (t : Live) (answer : Answer)
        → AreAllStored st.tables (view_of t)
        → Grants st s t (Run (all_rows_in st.tables n)) answer
        → answer ≡ answers.Rows (rows_copied st.tables (view_of t) n) }
    ensures left { (st : Store) (s n : ℕ) (t : Live) (answer : Answer)
        → AreAllStored st.tables (view_of t)
        → Grants st s t (Run (all_rows_in st.tables n)) answer
        → acted st s (Run (all_rows_in st.tables n)) answer ≡ settled st s (Alive t) }
{}

/// Behind the DELETE the transaction sees no row of the table: all rows that were read are still to
/// come. Of other tables it sees what it saw.
pub fn deletes_empty_the_table()
    ensures { (st : Store) (s n : ℕ) (t : Live) (answer : Answer) (rows : List Row)
        → Grants st s t (Run (no_rows_in n)) answer
        → Leaves st s t (IsFilled st.tables n rows (length rows) (view_of t))
        (acted st s (Run (no_rows_in n)) answer) }
{}

/// Behind the INSERT of the next row it sees one row more of those that were read.
pub fn inserts_fill_the_table()
    ensures { (st : Store) (s n left : ℕ) (t : Live) (answer : Answer) (source before : Rows)
        (rows : List Row) → AreAllStored st.tables source
        → rows ≡ rows_copied st.tables source n → left < length rows
        → IsFilled st.tables n rows (suc left) before (view_of t)
        → Grants st s t (Run (row_into st.tables n (row_in rows left))) answer
        → Leaves st s t (IsFilled st.tables n rows left before)
        (acted st s (Run (row_into st.tables n (row_in rows left))) answer) }
{}

/// Where no row is still to come, the table is as it is at the source. On the way all rows stand in
/// their tables.
pub fn full_tables_are_copied()
    ensures copied { (tables : List TableDef) (n : ℕ) (source before view : Rows)
        (rows : List Row) → AreAllStored tables source → rows ≡ rows_copied tables source n
        → IsFilled tables n rows 0 before view → IsCopied n source before view }
    ensures stored { (tables : List TableDef) (n left : ℕ) (source before view : Rows)
        (rows : List Row) → AreAllStored tables source → rows ≡ rows_copied tables source n
        → AreAllStored tables before → IsFilled tables n rows left before view
        → AreAllStored tables view }
{}
