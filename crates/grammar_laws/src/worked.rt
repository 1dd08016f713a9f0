// The definitions, computed on small rows.
ghost use Rattle.std.specs.Prelude.{◌≡◌, codes, drop, take};
ghost use Rattle.schema_spec.specs.Tokens.{tokens_of};
ghost use Rattle.schema_spec.specs.Fronts.{Stops};
ghost use Rattle.schema_spec.specs.TableGrammar.{table_statement};
ghost use Rattle.grammar_laws.specs.Misfits.{BeginAlike};
ghost use Rattle.grammar_laws.specs.Lexemes.{IsLexeme};
ghost use Rattle.schema_spec.specs.declared.token.TokenKind.TheVariants.{Quoted, Sign, Word};

/// Two texts begin with the same ten tokens, and both leave the grammar at the last of these, at byte 38. Where one of two texts has a blob, and the other spaces in it, they begin alike only up to its `X`.
pub fn worked_misfits()
    ensures alike { BeginAlike (codes "CREATE TABLE t1(a INTEGER PRIMARY KEY,)") (codes "CREATE TABLE t1(a INTEGER PRIMARY KEY,) b TEXT, c UNIQUE)") (take 10 (tokens_of (codes "CREATE TABLE t1(a INTEGER PRIMARY KEY,)"))) (drop 10 (tokens_of (codes "CREATE TABLE t1(a INTEGER PRIMARY KEY,)"))) (drop 10 (tokens_of (codes "CREATE TABLE t1(a INTEGER PRIMARY KEY,) b TEXT, c UNIQUE)"))) }
    ensures stops { table_statement (codes "CREATE TABLE t1(a INTEGER PRIMARY KEY,)") (tokens_of (codes "CREATE TABLE t1(a INTEGER PRIMARY KEY,)")) ≡ Stops (drop 9 (tokens_of (codes "CREATE TABLE t1(a INTEGER PRIMARY KEY,)"))) }
    ensures other { table_statement (codes "CREATE TABLE t1(a INTEGER PRIMARY KEY,) b TEXT, c UNIQUE)") (tokens_of (codes "CREATE TABLE t1(a INTEGER PRIMARY KEY,) b TEXT, c UNIQUE)")) ≡ Stops (drop 9 (tokens_of (codes "CREATE TABLE t1(a INTEGER PRIMARY KEY,) b TEXT, c UNIQUE)"))) }
    ensures blob { BeginAlike (codes "CREATE TABLE t(a DEFAULT x'0f')") (codes "CREATE TABLE t(a DEFAULT x '0f')") (take 7 (tokens_of (codes "CREATE TABLE t(a DEFAULT x'0f')"))) (drop 7 (tokens_of (codes "CREATE TABLE t(a DEFAULT x'0f')"))) (drop 7 (tokens_of (codes "CREATE TABLE t(a DEFAULT x '0f')"))) }
    ensures apart { ¬ (take 8 (tokens_of (codes "CREATE TABLE t(a DEFAULT x'0f')")) ≡ take 8 (tokens_of (codes "CREATE TABLE t(a DEFAULT x '0f')"))) }
{}

/// A word, a bracket and a name in quotes are lexemes; an open quote is none that can stand before others, and two words are not one.
pub fn worked_lexemes()
    ensures word { IsLexeme (record { kind = Word; bytes = codes "KEY" }) }
    ensures bracket { IsLexeme (record { kind = Sign; bytes = codes ")" }) }
    ensures quoted { IsLexeme (record { kind = Quoted; bytes = codes "'a b'" }) }
    ensures open { ¬ (IsLexeme (record { kind = Quoted; bytes = codes "'a" })) }
    ensures two { ¬ (IsLexeme (record { kind = Word; bytes = codes "a b" })) }
{}
