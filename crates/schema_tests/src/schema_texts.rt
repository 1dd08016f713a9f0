// Texts of a schema.
use crate::ensure::ensure;
use rbu_value::{Affinity, Collation};
use schema_spec::{Clause, Column, Index, SqlFault, Table};
use schema_sql::{read_index, read_table};
use schema_tokens::{TokenKind, tokens};
use std::alloc::{AllocError, Global};
use std::test::Fail;

// Texts with their tokens, each behind a letter of its kind: a word, a number, what is in quotes or brackets, what nothing closes, a sign.
const TEXTS: [(&str, &str); 6] = [
    (
        "CREATE TABLE t1(a, b$_\u{e9})",
        "|wCREATE|wTABLE|wt1|s(|wa|s,|wb$_\u{e9}|s)",
    ),
    (
        "a--b\n'c'\"d\"\"e\"`f`[g\"]",
        "|wa|q'c'|q\"d\"\"e\"|q`f`|b[g\"]",
    ),
    ("/*a*/b/* */-/c", "|wb|s-|s/|wc"),
    (
        "1e+5 .5 1+2 x'0' a.5 0x1F",
        "|n1e+5|n.5|n1|s+|n2|wx|q'0'|wa|n.5|n0x1F",
    ),
    ("a 'b''", "|wa|u'b''"),
    ("[b /* */", "|u[b /* */"),
];

fn letter_of(kind: TokenKind) -> u8 {
    match kind {
        TokenKind::Word => b'w',
        TokenKind::Number => b'n',
        TokenKind::Quoted => b'q',
        TokenKind::Bracketed => b'b',
        TokenKind::Unclosed => b'u',
        TokenKind::Sign => b's',
        _ => b' ',
    }
}

// The tokens of a text as the rows above write them.
fn spelled(alloc: Global, text: &[u8]) -> Result<Vec<u8>, AllocError> {
    let mut line = Vec::new(alloc);
    for token in &tokens(alloc, text)? {
        line.push(b'|')?;
        line.push(letter_of(token.kind))?;
        let bytes = text.get(token.start..token.end).unwrap_or(b"?");
        line.extend_from_slice(bytes)?;
    }
    Ok(line)
}

fn is_spelled(alloc: Global, text: &str, line: &'static str) -> Result<(), Fail> {
    let tokens = spelled(alloc, text.as_bytes())?;
    ensure(tokens.as_slice() == line.as_bytes(), line)
}

#[test]
fn texts_are_cut_into_tokens(rt: HostRuntime) -> Result<(), Fail> {
    for (text, line) in TEXTS {
        is_spelled(rt.alloc(), text, line)?;
    }
    Ok(())
}

// Texts of tables, with what they mean: the name; each column's name, with the letters of its affinity and its collation, and ! where NOT NULL is said; the place of the rowid column; those of the PRIMARY KEY; and those of each automatic index, with collations.
const TABLES: [(&str, &str); 17] = [
    (
        "CREATE TABLE t1(a INTEGER PRIMARY KEY, b TEXT, c UNIQUE)",
        "t1|a:Ib,b:Tb,c:Bb|0|0|2b",
    ),
    (
        "create table \"a b\" ([c d] VARCHAR(10), `e` DECIMAL(10, -5) NOT NULL DEFAULT -1.5e3 COLLATE NOCASE, 'f''g' CLOB(+3))",
        "a b|c d:Tb,e:Nn!,f'g:Tb|-||",
    ),
    (
        "CREATE TABLE t(a INTEGER, b, PRIMARY KEY (a), UNIQUE (b COLLATE RTRIM, a ASC))",
        "t|a:Ib,b:Bb|0|0|1r0b",
    ),
    (
        "CREATE TABLE t(a INT PRIMARY KEY, b TEXT COLLATE NOCASE UNIQUE)",
        "t|a:Ib,b:Tn|-|0|0b,1n",
    ),
    (
        "CREATE TABLE t(a INTEGER PRIMARY KEY AUTOINCREMENT NOT NULL)",
        "t|a:Ib!|0|0|",
    ),
    (
        "CREATE TABLE t(a CHARINT, b BLOB, c STRING, d NATIVE CHARACTER(70), e xBLOBx, f NUMERIC, g FLOATING POINT)",
        "t|a:Ib,b:Bb,c:Nb,d:Tb,e:Bb,f:Nb,g:Ib|-||",
    ),
    (
        "CREATE TABLE t(a CONSTRAINT n NULL DEFAULT x'0f' CHECK (a > (0)), b DEFAULT (1 + 2) DEFAULT \"q\" DEFAULT NULL)",
        "t|a:Bb,b:Bb|-||",
    ),
    (
        "CREATE TABLE t(a, b REFERENCES u (x) ON DELETE SET NULL ON UPDATE NO ACTION MATCH FULL NOT DEFERRABLE INITIALLY DEFERRED NOT NULL)",
        "t|a:Bb,b:Bb!|-||",
    ),
    (
        "CREATE TABLE t(a, b, CONSTRAINT m FOREIGN KEY (a, b) REFERENCES v ON DELETE CASCADE DEFERRABLE, CHECK (b))",
        "t|a:Bb,b:Bb|-||",
    ),
    (
        "CREATE TABLE t(a DEFAULT +1 REFERENCES u ON DELETE RESTRICT ON UPDATE SET DEFAULT ON INSERT CASCADE DEFERRABLE INITIALLY IMMEDIATE, FOREIGN KEY (a COLLATE NOCASE ASC) REFERENCES u (a) MATCH f NOT DEFERRABLE)",
        "t|a:Bb|-||",
    ),
    ("CrEaTe/* c */TABLE t(a--x\n,b)", "t|a:Bb,b:Bb|-||"),
    (
        "CREATE TABLE t(k TEXT COLLATE RTRIM, v, PRIMARY KEY (v, k COLLATE NOCASE), UNIQUE (k))",
        "t|k:Tr,v:Bb|-|10|1b0n,0r",
    ),
    (
        "CREATE TABLE t(a INTEGER, PRIMARY KEY (a DESC))",
        "t|a:Ib|0|0|",
    ),
    (
        "CREATE TABLE t(a COLLATE NOCASE COLLATE RTRIM)",
        "t|a:Br|-||",
    ),
    ("CREATE TABLE t(a, UNIQUE (a, a))", "t|a:Bb|-||0b0b"),
    (
        "CREATE TABLE t(\"a\"\"b\", UNIQUE ([a\"b]))",
        "t|a\"b:Bb|-||0b",
    ),
    (
        "create table t(b, a integer primary key asc)",
        "t|b:Bb,a:Ib|1|1|",
    ),
];

// Texts of no table, with the offset of the first token that does not fit or names a column wrongly.
const NO_TABLES: [(&str, u64); 22] = [
    ("", 0),
    ("CREATE INDEX i ON t(a)", 7),
    ("CREATE TABLE select(a)", 13),
    ("CREATE TABLE t()", 15),
    ("CREATE TABLE t(a", 16),
    ("CREATE VIEW v AS", 16),
    ("CREATE TABLE t(a 12)", 17),
    ("CREATE TABLE t(a 'x)", 17),
    ("CREATE TABLE t(a) x", 18),
    ("CREATE TABLE t(a, \"A\")", 18),
    ("CREATE TABLE t(a, a, UNIQUE (b))", 18),
    ("CREATE TABLE t(a NOT x)", 21),
    ("CREATE TABLE t(a DEFAULT)", 24),
    ("CREATE TABLE t(a VARCHAR(x))", 25),
    ("CREATE TABLE t(a CHECK (b)", 26),
    ("CREATE TABLE t(a DEFAULT x'0')", 26),
    ("CREATE TABLE t(a, PRIMARY (a))", 26),
    ("CREATE TABLE t(a, UNIQUE (b))", 26),
    ("CREATE TABLE t(a, UNIQUE (a), b)", 30),
    ("CREATE TABLE t(a, FOREIGN KEY (z) REFERENCES u)", 31),
    ("CREATE TABLE t(a PRIMARY KEY, b PRIMARY KEY)", 32),
    ("CREATE TABLE t1(a INTEGER PRIMARY KEY,)", 38),
];

// Texts of tables, virtual tables and views that leave the grammar within each of its parts, with the offset of the first token that does not fit: names and types, constraints of a column, REFERENCES and its clauses, constraints of the table, what stands behind it, and the other statements.
const STOPS: [(&str, u64); 41] = [
    ("CREATE TABLE (a)", 13),
    ("CREATE TABLE t AS SELECT 1", 15),
    ("CREATE TABLE t(a VARCHAR(1 2))", 27),
    ("CREATE TABLE t(a VARCHAR(-b))", 26),
    ("CREATE TABLE t(a VARCHAR(1, 2, 3))", 29),
    ("CREATE TABLE t(a PRIMARY UNIQUE)", 25),
    ("CREATE TABLE t(a PRIMARY KEY ON DELETE)", 32),
    ("CREATE TABLE t(a UNIQUE ON CONFLICT STOP)", 36),
    ("CREATE TABLE t(a CONSTRAINT 12 NULL)", 28),
    ("CREATE TABLE t(a CONSTRAINT n, b)", 29),
    ("CREATE TABLE t(a COLLATE )", 25),
    ("CREATE TABLE t(a DEFAULT +b)", 26),
    ("CREATE TABLE t(a CHECK b)", 23),
    ("CREATE TABLE t(a REFERENCES (b))", 28),
    ("CREATE TABLE t(a REFERENCES u (x + 1))", 33),
    ("CREATE TABLE t(a REFERENCES u ON x)", 33),
    ("CREATE TABLE t(a REFERENCES u ON DELETE SET x)", 44),
    ("CREATE TABLE t(a REFERENCES u ON UPDATE NO x)", 43),
    ("CREATE TABLE t(a REFERENCES u ON INSERT x)", 40),
    ("CREATE TABLE t(a REFERENCES u MATCH 1)", 36),
    ("CREATE TABLE t(a REFERENCES u NOT x)", 34),
    ("CREATE TABLE t(a REFERENCES u DEFERRABLE INITIALLY x)", 51),
    ("CREATE TABLE t(a GENERATED AS (1))", 27),
    ("CREATE TABLE t(a GENERATED ALWAYS (1))", 34),
    ("CREATE TABLE t(a AS 1)", 20),
    ("CREATE TABLE t(a, CONSTRAINT n b)", 31),
    ("CREATE TABLE t(a, UNIQUE (a COLLATE ))", 36),
    ("CREATE TABLE t(a, UNIQUE (a b))", 28),
    ("CREATE TABLE t(a, FOREIGN (a) REFERENCES u)", 26),
    ("CREATE TABLE t(a, FOREIGN KEY (a DESC) REFERENCES u)", 33),
    ("CREATE TABLE t(a, FOREIGN KEY (a) ON DELETE CASCADE)", 34),
    (
        "CREATE TABLE t(a, FOREIGN KEY (a) REFERENCES u NOT NULL)",
        51,
    ),
    ("CREATE TABLE t(a) WITHOUT x", 26),
    ("CREATE TABLE t(a) STRICT, x", 26),
    ("CREATE TABLE t(a) STRICT WITHOUT ROWID", 25),
    ("CREATE VIEW v (a b) AS SELECT 1", 17),
    ("CREATE VIEW v SELECT 1", 14),
    ("CREATE VIEW v AS SELECT '1", 24),
    ("CREATE VIRTUAL VIEW v USING x", 15),
    ("CREATE VIRTUAL TABLE v", 22),
    ("CREATE VIRTUAL TABLE v USING x(a", 32),
];

// Texts of tables outside the profile, with the clause that is answered.
const OUTSIDE: [(&str, Clause); 22] = [
    (
        "CREATE TABLE w(k TEXT PRIMARY KEY) WITHOUT ROWID",
        Clause::Without,
    ),
    (
        "CREATE TABLE t(a INT PRIMARY KEY) STRICT, WITHOUT ROWID",
        Clause::Without,
    ),
    ("CREATE TABLE t(a, a) STRICT", Clause::Strict),
    (
        "CREATE TABLE t(a INT GENERATED ALWAYS AS (1))",
        Clause::Generated,
    ),
    (
        "CREATE TABLE t(a, b AS (a + 1) STORED, c GENERATED ALWAYS AS (2) VIRTUAL)",
        Clause::As,
    ),
    (
        "CREATE TABLE t(a INTEGER PRIMARY KEY DESC ON CONFLICT IGNORE)",
        Clause::On,
    ),
    (
        "CREATE TABLE t(a, UNIQUE (a DESC) ON CONFLICT FAIL)",
        Clause::On,
    ),
    ("CREATE TABLE t(a INTEGER PRIMARY KEY DESC)", Clause::Desc),
    ("CREATE TABLE t(a COLLATE x, UNIQUE (a DESC))", Clause::Desc),
    ("CREATE TABLE t(a DOUBLE COLLATE x)", Clause::Collate),
    ("CREATE TABLE t(a, UNIQUE (a COLLATE x))", Clause::Collate),
    ("CREATE TABLE t(a FLOAT UNIQUE UNIQUE)", Clause::Real),
    ("CREATE TABLE t(a, b REAL)", Clause::Real),
    (
        "CREATE TABLE t(a INTEGER PRIMARY KEY UNIQUE)",
        Clause::Unique,
    ),
    (
        "CREATE TABLE t(a INTEGER, UNIQUE (a DESC), PRIMARY KEY (a))",
        Clause::Unique,
    ),
    ("CREATE TABLE t(a UNIQUE, UNIQUE (\"A\"))", Clause::Unique),
    ("CREATE TABLE t(a TEXT UNIQUE PRIMARY KEY)", Clause::Primary),
    (
        "CREATE TABLE t(a, b, UNIQUE (a, b), PRIMARY KEY (a, b))",
        Clause::Primary,
    ),
    (
        "CREATE TABLE t(a, b, UNIQUE (b), PRIMARY KEY (B), UNIQUE (b))",
        Clause::Primary,
    ),
    ("CREATE VIRTUAL TABLE v USING fts5(a, b)", Clause::Virtual),
    ("CREATE VIRTUAL TABLE v USING fts5", Clause::Virtual),
    ("CREATE VIEW v(a) AS SELECT 1", Clause::View),
];

// The table of the indexes below.
const INDEXED: &str = "CREATE TABLE t1(a INTEGER PRIMARY KEY, b TEXT COLLATE NOCASE, c UNIQUE)";

// Texts of its indexes, with what they mean: the name, the table's, u for UNIQUE, and each column's place with the letter of its collation, and d where it descends.
const INDEXES: [(&str, &str); 3] = [
    ("CREATE INDEX i ON t1(b)", "i|t1||1n"),
    (
        "CREATE UNIQUE INDEX \"i j\" ON t1(c DESC, b COLLATE RTRIM ASC, a)",
        "i j|t1|u|2bd1r0b",
    ),
    ("create index i on [t1](\"B\" collate binary)", "i|t1||1b"),
];

const NO_INDEXES: [(&str, u64); 15] = [
    ("CREATE TABLE t(a)", 7),
    ("CREATE UNIQUE TABLE t(a)", 14),
    ("CREATE INDEX i ON t1()", 21),
    ("CREATE INDEX i ON t1(z)", 21),
    ("CREATE INDEX i ON t1(a,)", 23),
    ("CREATE INDEX i ON t1(a, z, y)", 24),
    ("CREATE INDEX i ON t1(a) x", 24),
    ("CREATE INDEX i ON t1(a) WHERE", 29),
    ("CREATE INDEX ON t1(a)", 13),
    ("CREATE INDEX i t1(a)", 15),
    ("CREATE INDEX i ON t1 USING x(a)", 21),
    ("CREATE INDEX i ON t1(a", 22),
    ("CREATE INDEX i ON t1((a + b", 27),
    ("CREATE INDEX i ON t1(a + 'b)", 25),
    ("CREATE INDEX i ON t1(a) WITH x", 24),
];

const OUTSIDE_INDEXES: [(&str, Clause); 5] = [
    ("CREATE INDEX i ON t1(a COLLATE x)", Clause::Collate),
    (
        "CREATE INDEX i ON t1(a COLLATE x, b + 1) WHERE c",
        Clause::Collate,
    ),
    ("CREATE INDEX i ON t1(z) WHERE b > 0", Clause::Where),
    ("CREATE INDEX i ON t1(a + 1) WHERE b", Clause::Where),
    ("CREATE INDEX i ON t1(lower(b), z)", Clause::Expression),
];

fn affinity_letter(affinity: Affinity) -> u8 {
    match affinity {
        Affinity::Integer => b'I',
        Affinity::Text => b'T',
        Affinity::Blob => b'B',
        Affinity::Real => b'R',
        Affinity::Numeric => b'N',
    }
}

fn collation_letter(collation: Collation) -> u8 {
    match collation {
        Collation::Binary => b'b',
        Collation::NoCase => b'n',
        Collation::RTrim => b'r',
    }
}

// The digit of a place below 10.
fn digit(place: u32) -> u8 {
    match u8::try_from(place) {
        Ok(place) => b'0'.saturating_add(place),
        Err(_) => b'?',
    }
}

fn push_columns(line: &mut Vec<u8>, columns: &[Column]) -> Result<(), AllocError> {
    let mut first = true;
    for column in columns {
        if !first {
            line.push(b',')?;
        }
        first = false;
        line.extend_from_slice(column.name.as_slice())?;
        line.push(b':')?;
        line.push(affinity_letter(column.affinity))?;
        line.push(collation_letter(column.collation))?;
        if column.not_null {
            line.push(b'!')?;
        }
    }
    Ok(())
}

fn push_places(line: &mut Vec<u8>, places: &[u32]) -> Result<(), AllocError> {
    for place in places {
        line.push(digit(*place))?;
    }
    Ok(())
}

fn push_listed(line: &mut Vec<u8>, columns: &[(u32, Collation)]) -> Result<(), AllocError> {
    for (place, collation) in columns {
        line.push(digit(*place))?;
        line.push(collation_letter(*collation))?;
    }
    Ok(())
}

fn push_unique(line: &mut Vec<u8>, table: &Table) -> Result<(), AllocError> {
    let mut first = true;
    for columns in table.unique.as_slice() {
        if !first {
            line.push(b',')?;
        }
        first = false;
        push_listed(line, columns.as_slice())?;
    }
    Ok(())
}

// A table as the rows above write it.
fn push_table(line: &mut Vec<u8>, table: &Table) -> Result<(), AllocError> {
    line.extend_from_slice(table.name.as_slice())?;
    line.push(b'|')?;
    push_columns(line, table.columns.as_slice())?;
    line.push(b'|')?;
    line.push(match table.rowid_column {
        Some(place) => digit(place),
        None => b'-',
    })?;
    line.push(b'|')?;
    push_places(line, table.key.as_slice())?;
    line.push(b'|')?;
    push_unique(line, table)
}

fn is_table(alloc: Global, table: &Table, line: &str) -> Result<bool, AllocError> {
    let mut read = Vec::new(alloc);
    push_table(&mut read, table)?;
    Ok(read.as_slice() == line.as_bytes())
}

/// The columns of an index as the rows above write them.
pub fn push_index_columns(line: &mut Vec<u8>, index: &Index) -> Result<(), AllocError> {
    for (place, collation, descends) in index.columns.as_slice() {
        line.push(digit(*place))?;
        line.push(collation_letter(*collation))?;
        if *descends {
            line.push(b'd')?;
        }
    }
    Ok(())
}

// An index as the rows above write it.
fn push_index(line: &mut Vec<u8>, index: &Index) -> Result<(), AllocError> {
    line.extend_from_slice(index.name.as_slice())?;
    line.push(b'|')?;
    line.extend_from_slice(index.table.as_slice())?;
    line.extend_from_slice(if index.unique { b"|u|" } else { b"||" })?;
    push_index_columns(line, index)
}

fn is_index(alloc: Global, index: &Index, line: &str) -> Result<bool, AllocError> {
    let mut read = Vec::new(alloc);
    push_index(&mut read, index)?;
    Ok(read.as_slice() == line.as_bytes())
}

fn table_is_read(alloc: Global, text: &str, line: &'static str) -> Result<(), Fail> {
    let table = read_table(alloc, text.as_bytes())?;
    ensure(is_table(alloc, &table, line)?, line)
}

fn table_has_fault(alloc: Global, text: &'static str, fault: SqlFault) -> Result<(), Fail> {
    let is_fault = read_table(alloc, text.as_bytes()).is_err_and(|other| other == fault);
    ensure(is_fault, text)
}

#[test]
fn texts_of_tables_are_read(rt: HostRuntime) -> Result<(), Fail> {
    for (text, line) in TABLES {
        table_is_read(rt.alloc(), text, line)?;
    }
    for (text, offset) in NO_TABLES {
        table_has_fault(rt.alloc(), text, SqlFault::SqlSyntax { offset })?;
    }
    for (text, clause) in OUTSIDE {
        table_has_fault(rt.alloc(), text, SqlFault::OutsideProfile { clause })?;
    }
    Ok(())
}

#[test]
fn texts_stop_within_each_part(rt: HostRuntime) -> Result<(), Fail> {
    for (text, offset) in STOPS {
        table_has_fault(rt.alloc(), text, SqlFault::SqlSyntax { offset })?;
    }
    Ok(())
}

fn index_is_read(alloc: Global, text: &str, table: &Table, line: &'static str) -> Result<(), Fail> {
    let index = read_index(alloc, text.as_bytes(), table)?;
    ensure(is_index(alloc, &index, line)?, line)
}

fn index_has_fault(
    alloc: Global,
    text: &'static str,
    table: &Table,
    fault: SqlFault,
) -> Result<(), Fail> {
    let is_fault = read_index(alloc, text.as_bytes(), table).is_err_and(|other| other == fault);
    ensure(is_fault, text)
}

fn indexes_are_read(alloc: Global, table: &Table) -> Result<(), Fail> {
    for (text, line) in INDEXES {
        index_is_read(alloc, text, table, line)?;
    }
    for (text, offset) in NO_INDEXES {
        index_has_fault(alloc, text, table, SqlFault::SqlSyntax { offset })?;
    }
    for (text, clause) in OUTSIDE_INDEXES {
        index_has_fault(alloc, text, table, SqlFault::OutsideProfile { clause })?;
    }
    Ok(())
}

#[test]
fn texts_of_indexes_are_read(rt: HostRuntime) -> Result<(), Fail> {
    let table = read_table(rt.alloc(), INDEXED.as_bytes())?;
    indexes_are_read(rt.alloc(), &table)
}
