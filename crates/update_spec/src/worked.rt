// The definitions, computed on answers and numbers that were worked out apart from them.
ghost use Rattle.std.specs.Prelude.{◌≡◌, negsuc, pos, [], ◌∷◌, ◌++◌, Some, None, replicate, codes};
ghost use Rattle.file_spec.specs.declared.FileName.{FileName};
ghost use Rattle.file_spec.specs.declared.FileName.TheVariants.{Target, Oal, Wal};
ghost use Rattle.file_spec.specs.Files.{with_file};
ghost use Rattle.file_spec.specs.declared.DiskCall.TheVariants.{Rename};
ghost use Rattle.refusal.specs.declared.Part.TheVariants as part;
ghost use Rattle.refusal.specs.declared.Rule.TheVariants as rule;
ghost use Rattle.refusal.specs.declared.Measure.TheVariants as measure;
ghost use Rattle.refusal.specs.declared.Refusal.TheVariants.{NotYet, NotADatabase, BadPage, ChainBroken, TargetFull, TreeDamaged, OutsideProfile, ControlLength, TooMuch};
ghost use Rattle.update_spec.specs.declared.Answer.TheVariants.{Usage, Ended, Printed, Fault, NoMemory};
ghost use Rattle.update_spec.specs.declared.Outcome.TheVariants.{Done, KeyPresent, Refused};
ghost use Rattle.update_spec.specs.Text.{answer_text, answer_status};
ghost use Rattle.update_spec.specs.View.{IsView, KeepsView};
ghost use Rattle.update_spec.specs.Words.{AsksCheck, AsksDump, AsksMore, IsUsage};
ghost use Rattle.format_spec.specs.PageMap.{pages_of};
ghost use Rattle.format_spec.specs.LittleLog.{little_page, little_log};

use format_spec::worked_log;

/// The texts of answers.
pub fn worked_lines()
    ensures done { answer_text (Ended Done) ≡ codes "done\n" }
    ensures refused { answer_text (Ended (Refused (NotYet part.Target))) ≡ codes "refused 1 NotYet target\n" }
    ensures plain { answer_text (Ended (Refused NotADatabase)) ≡ codes "refused 30 NotADatabase\n" }
    ensures page { answer_text (Ended (Refused (BadPage rule.Cells))) ≡ codes "refused 40 BadPage cells\n" }
    ensures chain { answer_text (Ended (Refused (ChainBroken 7))) ≡ codes "refused 45 ChainBroken 7\n" }
    ensures full { answer_text (Ended (Refused (TargetFull 3 4))) ≡ codes "refused 51 TargetFull 3 4\n" }
    ensures tree { answer_text (Ended (Refused (TreeDamaged 2 rule.Depth))) ≡ codes "refused 55 TreeDamaged 2 depth\n" }
    ensures profile { answer_text (Ended (Refused (OutsideProfile (codes "w") (codes "WITHOUT")))) ≡ codes "refused 61 OutsideProfile w WITHOUT\n" }
    ensures control { answer_text (Ended (Refused (ControlLength (codes "data_t1") (negsuc 4) 2 3))) ≡ codes "refused 81 ControlLength data_t1 -5 2 3\n" }
    ensures much { answer_text (Ended (Refused (TooMuch measure.Rows 8 7))) ≡ codes "refused 93 TooMuch rows 8 7\n" }
    ensures constraint { answer_text (Ended (KeyPresent (codes "t1") (negsuc 4))) ≡ codes "constraint key-present t1 -5\n" }
    ensures printed { answer_text (Printed (codes "1|NULL\n")) ≡ codes "1|NULL\n" }
    ensures usage { answer_text Usage ≡ codes "usage\n" }
    ensures memory { answer_text NoMemory ≡ codes "no memory\n" }
    ensures fault { answer_text (Fault Oal Rename) ≡ codes "fault Oal Rename\n" }
{}

/// The statuses of answers.
pub fn worked_statuses()
    ensures done { answer_status (Ended Done) ≡ 0 }
    ensures usage { answer_status Usage ≡ 2 }
    ensures constraint { answer_status (Ended (KeyPresent (codes "t1") (pos 1))) ≡ 3 }
    ensures refused { answer_status (Ended (Refused (NotYet part.Room))) ≡ 4 }
    ensures fault { answer_status (Fault Oal Rename) ≡ 6 }
    ensures memory { answer_status NoMemory ≡ 7 }
    ensures printed { answer_status (Printed []) ≡ 0 }
{}

/// What words ask for: the dump of a table, the check, a command that is not built, and nothing where a dump has no name.
pub fn worked_words()
    ensures table { AsksDump (codes "dump" ∷ codes "t1" ∷ []) }
    ensures check { AsksCheck (codes "check" ∷ []) }
    ensures state { AsksMore (codes "state" ∷ []) }
    ensures nameless { IsUsage (codes "dump" ∷ []) }
{}

/// What a reader sees of a target of one page with a byte behind it, alone, and under a log that SQLite wrote, whose frame is its second page.
pub fn worked_view()
    ensures alone { let first = replicate 16 0 ++ 2 ∷ 0 ∷ replicate 494 0 in
        IsView (with_file (λ (name : FileName). None) Target (Some (first ++ 1 ∷ []))) (pages_of 512 1 first) }
    ensures logged { let first = replicate 16 0 ++ 2 ∷ 0 ∷ replicate 494 0 in
        IsView (with_file (with_file (λ (name : FileName). None) Target (Some first)) Wal (Some little_log)) (pages_of 512 2 (first ++ little_page)) }
    ensures hidden { KeepsView (with_file (λ (name : FileName). None) Target (Some (1 ∷ []))) (with_file (with_file (λ (name : FileName). None) Target (Some (1 ∷ []))) Oal (Some little_log)) }
{
    worked_log();
}
