//! What the rows of tables are: each law is a function that does nothing, and its clauses are the
//! law.
ghost use Rattle.row_laws.specs.Laws.{TablesHaveTheirForm};

/// Whatever was commanded after a header, the rows of each table have the form of a table: keys of 1
/// to 80 bytes, all of them distinct, and values of at most 65,535 bytes, without tab and newline.
pub fn tables_have_their_form()
    ensures form { TablesHaveTheirForm }
{}
