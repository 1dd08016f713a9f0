// Where texts leave the grammar, computed.
ghost use Rattle.std.specs.Prelude.{codes, drop};
ghost use Rattle.schema_spec.specs.Tokens.{tokens_of};
ghost use Rattle.misfit_laws.specs.Beginnings.{IsTableText, IsIndexText, LeavesBefore};

/// Some text of a table begins with the nine tokens up to a comma, and none with the closing bracket behind it. Some begins with all tokens of a text that ends in a list of columns. Some text of an index begins with the tokens up to a comma, and none with the bracket behind it.
pub fn worked_first_misfits()
    ensures comma { LeavesBefore IsTableText (codes "CREATE TABLE t1(a INTEGER PRIMARY KEY,)") (drop 9 (tokens_of (codes "CREATE TABLE t1(a INTEGER PRIMARY KEY,)"))) }
    ensures end { LeavesBefore IsTableText (codes "CREATE TABLE t(a, UNIQUE (a") (drop 9 (tokens_of (codes "CREATE TABLE t(a, UNIQUE (a"))) }
    ensures index { LeavesBefore IsIndexText (codes "CREATE INDEX i ON t(a,)") (drop 8 (tokens_of (codes "CREATE INDEX i ON t(a,)"))) }
{}
