// What a check answers of a database that SQLite wrote.
ghost use Rattle.std.specs.Prelude.{◌≡◌, ◌∷◌, [], pos, codes, Ok, Err};
ghost use Rattle.database_spec.specs.LittleTarget.{target_base, target_sizes};
ghost use Rattle.check_spec.specs.Checks.{IsSoundAnswer, sound_line};

use database_spec::worked_target;

/// A database with a table `t1(a INTEGER PRIMARY KEY, b TEXT, c UNIQUE)` of three rows has three pages, each the root of a tree, and is sound.
pub fn worked_checks()
    ensures line { sound_line 3 4 ≡ codes "sound 3 4\n" }
    ensures sound { IsSoundAnswer target_sizes target_base (Ok (codes "sound 3 3\n")) }
{
    worked_target();
}
