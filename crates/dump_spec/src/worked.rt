// Printed rows, as SQLite's documents and formats have them, and what dumps of a database that SQLite wrote answer.
ghost use Rattle.std.specs.Prelude.{◌≡◌, ◌∷◌, ◌++◌, [], pos, negsuc, codes, Ok, Err};
ghost use Rattle.refusal.specs.declared.Refusal.TheVariants.{NoTarget, TargetRecord};
ghost use Rattle.rbu_value.specs.declared.value.Value.TheVariants.{Null, Int, Text, Blob};
ghost use Rattle.tree_spec.specs.Trees.{member};
ghost use Rattle.database_spec.specs.Walks.{Finds, Ends, Holds};
ghost use Rattle.database_spec.specs.LittleTarget.{row_cell, target_base, target_sizes, target_table};
ghost use Rattle.dump_spec.specs.Printing.{row_line, value_text};
ghost use Rattle.dump_spec.specs.TableDumps.{IsRowsAnswer, IsTableAnswer};

use database_spec::worked_target;

/// A line of each kind of value.
pub fn worked_lines()
    ensures null { value_text Null ≡ codes "NULL" }
    ensures integer { value_text (Int (negsuc 6)) ≡ codes "-7" }
    ensures quotes { value_text (Text (codes "it's")) ≡ codes "'it''s'" }
    ensures blob { value_text (Blob (0 ∷ 255 ∷ 39 ∷ [])) ≡ codes "x'00ff27'" }
    ensures row { row_line (pos 3) (Null ∷ Text (codes "drei") ∷ []) ≡ codes "3|NULL|'drei'\n" }
{}

/// Dumps of a database with a table `t1(a INTEGER PRIMARY KEY, b TEXT, c UNIQUE)` of three rows: of the table in letters of either case, and of another name;
/// and of what is found where the record of row 2 has two values.
pub fn worked_dumps()
    ensures table { IsTableAnswer target_sizes target_base (codes "T1") (Ok (codes "1|1|'one'|10\n2|2|'two'|20\n3|3|'three'|30\n")) }
    ensures none { IsTableAnswer target_sizes target_base (codes "t9") (Err (NoTarget (codes "t9"))) }
    ensures short { IsRowsAnswer (codes "t1") target_table (Finds 2 ∷ Ends 2 1 ∷ Holds 2 (member (row_cell 2 (3 ∷ 0 ∷ 15 ∷ 120 ∷ []))) ∷ []) (Err (TargetRecord (codes "t1") (pos 2) 25)) }
{
    worked_target();
}
