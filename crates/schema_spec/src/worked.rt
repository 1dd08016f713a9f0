// The definitions, computed on small rows.
ghost use Rattle.std.specs.Prelude.{◌≡◌, codes, [], ◌∷◌, map, true, false};
ghost use Rattle.schema_spec.specs.declared.token.TokenKind.TheVariants.{Word, Quoted};
ghost use Rattle.schema_spec.specs.Tokens.{AreTokens};
ghost use Rattle.rbu_value.specs.declared.affinity.Affinity.TheVariants.{Integer, Text, Blob};
ghost use Rattle.rbu_value.specs.declared.order.Collation.TheVariants.{Binary, RTrim};
ghost use Rattle.schema_spec.specs.declared.schema.Clause.{Clause};
ghost use Rattle.schema_spec.specs.declared.schema.SqlFault.{SqlFault};
ghost use Rattle.schema_spec.specs.Texts.{MeansTable, MeansIndex, HasTableFault};
ghost use Rattle.schema_spec.specs.Stops.{table_stops, index_stops};

/// Tokens of small texts.
pub fn worked_tokens()
    ensures words { AreTokens (codes "a b") (record { kind = Word; start = 0; end = 1 } ∷ record { kind = Word; start = 2; end = 3 } ∷ []) }
    ensures quoted { AreTokens (codes "t'a''b'") (record { kind = Word; start = 0; end = 1 } ∷ record { kind = Quoted; start = 1; end = 7 } ∷ []) }
    ensures torn { ¬ (AreTokens (codes "ab") (record { kind = Word; start = 0; end = 1 } ∷ record { kind = Word; start = 1; end = 2 } ∷ [])) }
{}

/// Where texts of tables and of indexes leave the grammar, in bytes from 0; a text of the grammar leaves it nowhere.
pub fn worked_stops()
    ensures columns { map table_stops (codes "CREATE TABLE t1(a INTEGER PRIMARY KEY, b TEXT, c UNIQUE)" ∷ codes "CREATE TABLE t1(a INTEGER PRIMARY KEY,)" ∷ codes "create table \"a b\" ([c d] VARCHAR(10), `e` DECIMAL(10, -5) NOT NULL DEFAULT -1.5e3 COLLATE NOCASE)" ∷ codes "CREATE TABLE t(a NOT x)" ∷ codes "CREATE TABLE t(a DEFAULT)" ∷ codes "CREATE TABLE t(a CHECK (b)" ∷ codes "CREATE TABLE t(a 'x)" ∷ codes "CREATE TABLE t(a DEFAULT x'0f' NULL)" ∷ codes "CREATE TABLE t(a DEFAULT x'0')" ∷ codes "CREATE TABLE t(a VARCHAR(x))" ∷ codes "CREATE TABLE t(a INT REFERENCES u NOT NULL UNIQUE ON CONFLICT FAIL)" ∷ codes "CREATE TABLE t(a 12)" ∷ []) ≡ None ∷ Some 38 ∷ None ∷ Some 21 ∷ Some 24 ∷ Some 26 ∷ Some 17 ∷ None ∷ Some 26 ∷ Some 25 ∷ None ∷ Some 17 ∷ [] }
    ensures tables { map table_stops (codes "CREATE TABLE w(k TEXT PRIMARY KEY) WITHOUT ROWID" ∷ codes "CREATE TABLE t(a) x" ∷ codes "CREATE TABLE t(a" ∷ codes "CREATE TABLE t(a CONSTRAINT n CHECK (a > (0)), CONSTRAINT p PRIMARY KEY (a ASC), FOREIGN KEY (a) REFERENCES u (x, y) ON DELETE SET NULL MATCH FULL NOT DEFERRABLE INITIALLY DEFERRED)" ∷ codes "CREATE TABLE select(a)" ∷ codes "CREATE TABLE t(a, UNIQUE (a), b)" ∷ codes "CREATE INDEX i ON t(a)" ∷ codes "" ∷ codes "CREATE TABLE t(a AS (b + 1) STORED, c INT GENERATED ALWAYS AS (2)) STRICT, WITHOUT ROWID" ∷ codes "CREATE VIRTUAL TABLE v USING fts5(a, b)" ∷ codes "CREATE VIEW v(a) AS SELECT 1" ∷ codes "CREATE VIEW v AS" ∷ codes "CREATE TABLE t()" ∷ codes "CREATE TABLE t(a PRIMARY KEY DESC ON CONFLICT ABORT AUTOINCREMENT)" ∷ codes "CREATE TABLE t(a, PRIMARY (a))" ∷ codes "CREATE TEMP TABLE t(a)" ∷ codes "CREATE TABLE t.u(a)" ∷ codes "CREATE TABLE t(a, FOREIGN KEY (a DESC) REFERENCES u)" ∷ codes "CREATE TABLE t(a, FOREIGN KEY (a) REFERENCES u NOT NULL)" ∷ []) ≡ None ∷ Some 18 ∷ Some 16 ∷ None ∷ Some 13 ∷ Some 30 ∷ Some 7 ∷ Some 0 ∷ None ∷ None ∷ None ∷ Some 16 ∷ Some 15 ∷ None ∷ Some 26 ∷ Some 7 ∷ Some 14 ∷ Some 33 ∷ Some 51 ∷ [] }
    ensures indexes { map index_stops (codes "CREATE INDEX i ON t(a)" ∷ codes "CREATE UNIQUE INDEX \"i\" ON t(a COLLATE NOCASE DESC, b ASC)" ∷ codes "CREATE INDEX i ON t(lower(a), b + 1) WHERE b > 0" ∷ codes "CREATE INDEX i ON t()" ∷ codes "CREATE INDEX i ON t(a,)" ∷ codes "CREATE INDEX i ON t(a) x" ∷ codes "CREATE INDEX i ON t(a) WHERE" ∷ codes "CREATE TABLE t(a)" ∷ codes "CREATE UNIQUE TABLE t(a)" ∷ []) ≡ None ∷ None ∷ None ∷ Some 20 ∷ Some 22 ∷ Some 23 ∷ Some 28 ∷ Some 7 ∷ Some 14 ∷ [] }
{}

/// What small texts mean, and which fault others have.
pub fn worked_texts()
    ensures table { MeansTable (codes "CREATE TABLE t1(a INTEGER PRIMARY KEY, b TEXT, c UNIQUE)") (record { name = codes "t1"; columns = record { name = codes "a"; affinity = Integer; collation = Binary; not_null = false } ∷ record { name = codes "b"; affinity = Text; collation = Binary; not_null = false } ∷ record { name = codes "c"; affinity = Blob; collation = Binary; not_null = false } ∷ []; rowid_column = Some 0; key = 0 ∷ []; unique = ((2, Binary) ∷ []) ∷ [] }) }
    ensures index { MeansIndex (codes "CREATE UNIQUE INDEX i ON t1(c DESC, b COLLATE RTRIM)") (record { name = codes "t1"; columns = record { name = codes "a"; affinity = Integer; collation = Binary; not_null = false } ∷ record { name = codes "b"; affinity = Text; collation = Binary; not_null = false } ∷ record { name = codes "c"; affinity = Blob; collation = Binary; not_null = false } ∷ []; rowid_column = Some 0; key = 0 ∷ []; unique = ((2, Binary) ∷ []) ∷ [] }) (record { name = codes "i"; table = codes "t1"; unique = true; columns = (2, Binary, true) ∷ (1, RTrim, false) ∷ [] }) }
    ensures comma { HasTableFault (codes "CREATE TABLE t1(a INTEGER PRIMARY KEY,)") (SqlFault.SqlSyntax 38) }
    ensures without { HasTableFault (codes "CREATE TABLE w(k TEXT PRIMARY KEY) WITHOUT ROWID") (SqlFault.OutsideProfile Clause.Without) }
    ensures descends { HasTableFault (codes "CREATE TABLE t(a INTEGER PRIMARY KEY DESC)") (SqlFault.OutsideProfile Clause.Desc) }
    ensures on_rowid { HasTableFault (codes "CREATE TABLE t(a INTEGER, PRIMARY KEY (a DESC), UNIQUE (a))") (SqlFault.OutsideProfile Clause.Unique) }
    ensures twice { HasTableFault (codes "CREATE TABLE t(a TEXT UNIQUE PRIMARY KEY)") (SqlFault.OutsideProfile Clause.Primary) }
    ensures named_twice { HasTableFault (codes "CREATE TABLE t(a, \"A\")") (SqlFault.SqlSyntax 18) }
    ensures unknown { HasTableFault (codes "CREATE TABLE t(a, UNIQUE (b))") (SqlFault.SqlSyntax 26) }
{}
