// Laws about the tokens of schema texts.
ghost use Rattle.std.specs.Prelude.{◌≡◌, ℕ, List, ◌++◌};
ghost use Rattle.schema_spec.specs.declared.token.Token.{Token};
ghost use Rattle.schema_spec.specs.Tokens.{tokens_of};
ghost use Rattle.grammar_laws.specs.Lexemes.{Lexeme, IsLexeme, IsClosed, GoesOn};
ghost use Rattle.std.specs.List.{AllByRecursion};

/// A text can go on behind each of its tokens, where no quote stands open before it, with any lexemes: some text begins with the same tokens and the same bytes, and has these lexemes as the tokens behind them.
pub fn texts_go_on_behind_their_tokens()
    ensures { (text : List ℕ) (front behind : List Token) (lexemes : List Lexeme) → tokens_of text ≡ front ++ behind → AllByRecursion IsClosed front → AllByRecursion IsLexeme lexemes → GoesOn text front behind lexemes }
{}
