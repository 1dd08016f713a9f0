// Laws about the grammar of schema texts.
ghost use Rattle.std.specs.Prelude.{◌≡◌, ◌↔◌, ℕ, List, [], ◌∷◌, ◌++◌};
ghost use Rattle.common_spec.specs.ReadingLaws.{IsOne};
ghost use Rattle.schema_spec.specs.declared.token.Token.{Token};
ghost use Rattle.schema_spec.specs.declared.schema.Table.{Table};
ghost use Rattle.schema_spec.specs.declared.schema.SqlFault.{SqlFault};
ghost use Rattle.schema_spec.specs.Tokens.{tokens_of};
ghost use Rattle.schema_spec.specs.Fronts.{Stops};
ghost use Rattle.schema_spec.specs.TableGrammar.{table_statement, index_statement};
ghost use Rattle.schema_spec.specs.Texts.{HasTableFault, HasIndexFault};
ghost use Rattle.grammar_laws.specs.Misfits.{BeginAlike};
ghost use Rattle.misfit_laws.specs.Beginnings.{IsTableText, IsIndexText, LeavesBefore, LeavesAt};

/// Whatever stands behind the token at which a text leaves the grammar does not matter: each text that begins with the same tokens up to that one, and with it, leaves the grammar there. So it has that fault, whatever else it says.
pub fn what_stands_behind_a_stop_does_not_matter()
    ensures table { (text other : List ℕ) (front : List Token) (misfit : Token) (behind others : List Token) → BeginAlike text other (front ++ (misfit ∷ [])) behind others
        → table_statement text (tokens_of text) ≡ Stops (misfit ∷ behind) → table_statement other (tokens_of other) ≡ Stops (misfit ∷ others) }
    ensures index { (text other : List ℕ) (front : List Token) (misfit : Token) (behind others : List Token) → BeginAlike text other (front ++ (misfit ∷ [])) behind others
        → index_statement text (tokens_of text) ≡ Stops (misfit ∷ behind) → index_statement other (tokens_of other) ≡ Stops (misfit ∷ others) }
    ensures table_fault { (text other : List ℕ) (front : List Token) (misfit : Token) (behind others : List Token) → BeginAlike text other (front ++ (misfit ∷ [])) behind others
        → table_statement text (tokens_of text) ≡ Stops (misfit ∷ behind) → HasTableFault other (SqlFault.SqlSyntax misfit.start) }
    ensures index_fault { (text other : List ℕ) (front : List Token) (misfit : Token) (behind others : List Token) → BeginAlike text other (front ++ (misfit ∷ [])) behind others
        → index_statement text (tokens_of text) ≡ Stops (misfit ∷ behind) → (table : Table) → HasIndexFault other table (SqlFault.SqlSyntax misfit.start) }
{}

/// A text of a table, a virtual table or a view is read up to its first misfit: the first token such that no text of the grammar begins with the tokens up to it. Some text of the grammar begins with the tokens before it, and has the same bytes up to their end. Where the text ends too early, some text of the grammar begins with all of its tokens. A text that is not of the grammar has one such place, and its fault of syntax is there and nowhere else. So it is with the text of an index.
pub fn a_stop_is_the_first_misfit()
    ensures table { (text : List ℕ) (rest : List Token) → (table_statement text (tokens_of text) ≡ Stops rest) ↔ LeavesBefore IsTableText text rest }
    ensures index { (text : List ℕ) (rest : List Token) → (index_statement text (tokens_of text) ≡ Stops rest) ↔ LeavesBefore IsIndexText text rest }
    ensures table_once { (text : List ℕ) → ¬ IsTableText text → ((rest : List Token) × LeavesBefore IsTableText text rest) × IsOne (LeavesBefore IsTableText text) }
    ensures index_once { (text : List ℕ) → ¬ IsIndexText text → ((rest : List Token) × LeavesBefore IsIndexText text rest) × IsOne (LeavesBefore IsIndexText text) }
    ensures table_fault { (text : List ℕ) → ¬ IsTableText text → (offset : ℕ) → HasTableFault text (SqlFault.SqlSyntax offset) ↔ LeavesAt IsTableText text offset }
    ensures index_fault { (text : List ℕ) → ¬ IsIndexText text → (table : Table) (offset : ℕ) → HasIndexFault text table (SqlFault.SqlSyntax offset) ↔ LeavesAt IsIndexText text offset }
{}
