// Laws about the definitions.
ghost use Rattle.std.specs.Prelude.{◌≡◌, ℕ, List, None};
ghost use Rattle.file_spec.specs.declared.FileName.TheVariants.{Target, Wal};
ghost use Rattle.file_spec.specs.Files.{Files};
ghost use Rattle.file_spec.specs.Records.{Record, at_rest, shown_files};
ghost use Rattle.file_spec.specs.Steps.{AfterCrash};
ghost use Rattle.file_spec.specs.Trails.{Trail};
ghost use Rattle.format_spec.specs.PageMap.{PageMap, SamePages};
ghost use Rattle.update_spec.specs.Crashes.{HasShownFile, HasShownNames, ImagesKeepView};
ghost use Rattle.update_spec.specs.View.{IsView};
ghost use Rattle.update_spec.specs.Words.{AsksQuestion, AsksUpdate};

/// A reader of the files sees one list of pages, as far as they matter; and whatever has those is what it sees.
pub fn view_is_one()
    ensures one { (files : Files) (a b : PageMap) → IsView files a → IsView files b → SamePages a b }
    ensures same { (files : Files) (a b : PageMap) → IsView files a → SamePages a b → IsView files b }
{}

/// Which disks show a reader one database whatever a crash leaves: one at rest, one that has crashed, and one whose names
/// and target are stable, where it shows no log, as an update that is done leaves it.
pub fn images_keep_view()
    ensures rest { (files : Files) → ImagesKeepView (at_rest files) }
    ensures crash { (a b : Trail) → AfterCrash a b → ImagesKeepView b.now.at }
    ensures stable { (r : Record) → HasShownNames r → HasShownFile Target r → shown_files r Wal ≡ None → ImagesKeepView r }
{}

/// Words ask for one thing: none ask for the update and a question, and they ask one question, a dump of one name or the
/// check. That words of neither are those of something that is not built, or of no command, is said by the definitions.
pub fn words_ask_for_one_thing()
    ensures apart { (words : List (List ℕ)) → AsksUpdate words → ¬ AsksQuestion words }
    ensures question { (words : List (List ℕ)) (a b : AsksQuestion words) → a.0 ≡ b.0 }
{}
