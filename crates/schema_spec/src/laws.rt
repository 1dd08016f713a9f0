// What holds of every text.
ghost use Rattle.std.specs.Prelude.{◌≡◌, ℕ, Bool, List, ◌∷◌, ◌++◌, Some, None};
ghost use Rattle.schema_spec.specs.declared.token.Token.{Token};
ghost use Rattle.schema_spec.specs.Tokens.{AreTokens, past, past_quoted};
ghost use Rattle.schema_spec.specs.Parts.{IsRun, NotFirst, IsClosedOrNot, doubled};
ghost use Rattle.common_spec.specs.Reading.{OrFault};
ghost use Rattle.common_spec.specs.ReadingLaws.{IsOne};
ghost use Rattle.schema_spec.specs.declared.schema.Table.{Table};
ghost use Rattle.schema_spec.specs.Tokens.{tokens_of};
ghost use Rattle.schema_spec.specs.Texts.{MeansTable, HasTableFault, MeansIndex, HasIndexFault};

/// A text has one list of tokens. A part that goes on has all bytes by which it does. A part in quotes is a text in which each quote stands doubled, and the quote behind it; where nothing closes it, it is such a text to the end.
pub fn token_parts()
    ensures one { (text : List ℕ) (a b : List Token) → AreTokens text a → AreTokens text b → a ≡ b }
    ensures runs { (p : ℕ → ℕ → Bool) (before : ℕ) (run rest : List ℕ) → IsRun p before run rest → past p before (run ++ rest) ≡ rest }
    ensures quoted { (quote : ℕ) (content rest : List ℕ) → NotFirst quote rest → past_quoted quote (doubled quote content ++ (quote ∷ rest)) ≡ Some rest }
    ensures unclosed { (quote : ℕ) (content : List ℕ) → past_quoted quote (doubled quote content) ≡ None }
    ensures either { (quote : ℕ) (text : List ℕ) → IsClosedOrNot quote text }
{}

/// A text has tokens, which can be computed. It means one table or has one fault, and never both; so it is with an index over the columns of a table.
pub fn text_answers()
    ensures tokens { (text : List ℕ) → AreTokens text (tokens_of text) }
    ensures table { (text : List ℕ) → IsOne (OrFault (MeansTable text) (HasTableFault text)) }
    ensures index { (text : List ℕ) (table : Table) → IsOne (OrFault (MeansIndex text table) (HasIndexFault text table)) }
{}
