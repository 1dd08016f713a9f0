// Laws about steps of a pass over an index.
ghost use Rattle.std.specs.Prelude.{◌≡◌, ◌++◌, ◌∷◌, ◌⊎◌, ℕ, suc, IsTrue, List, None, Some, [], false, map};
ghost use Rattle.rbu_value.specs.declared.value.Value.{Value};
ghost use Rattle.schema_spec.specs.declared.schema.Index.{Index};
ghost use Rattle.tree_spec.specs.Trees.{Member};
ghost use Rattle.database_spec.specs.Keys.{has_null};
ghost use Rattle.database_spec.specs.Rows.{TableRow};
ghost use Rattle.prepared_spec.specs.declared.violation.Change.{Change};
ghost use Rattle.prepared_spec.specs.declared.violation.Change.TheVariants.{Remove, Add};
ghost use Rattle.prepared_spec.specs.declared.violation.Violation.TheVariants.{NotUnique};
ghost use Rattle.prepared_spec.specs.Outcomes.{IsIndexAfter, IsMid, format_in};
ghost use Rattle.prepared_spec.specs.Plans.{IndexPlan, TablePlan};
ghost use Rattle.rbu_rows.specs.declared.prepared.Batch.{Batch};
ghost use Rattle.database_spec.specs.declared.catalog.Catalog.{Catalog};
ghost use Rattle.database_spec.specs.Databases.{Database, list_at};
ghost use Rattle.index_steps.specs.Databases.{HasRoot, IsDue, with_list};
ghost use Rattle.prepared_spec.specs.StepFaults.{IsChangeFault};
ghost use Rattle.key_order.specs.declared.order.KeyOrder.{KeyOrder};
ghost use Rattle.key_order.specs.Orders.{HasEqual, IsEntry, IsRising};
ghost use Rattle.key_order.specs.ProjectionsLaws.{IsOrderOf};
ghost use Rattle.index_steps.specs.IndexSteps.{AreChangesOf, AreFaultless, IsColumnsOrderOf, IsStepped, change_record};

/// The canonical record of a change's entry is an entry of its index.
pub fn changes_have_entries()
    ensures { (format : ℕ) (index : Index) (old_rows new_rows : List TableRow) (old : List Member) (done : List Change) (change : Change) (left : List Change) (order : KeyOrder)
        → AreChangesOf format index old_rows new_rows old (done ++ change ∷ left) → IsOrderOf order index → IsEntry order (change_record format change) }
{}

/// The list of an index behind some of its changes strictly rises.
pub fn indexes_midway_rise()
    ensures { (format : ℕ) (index : Index) (old_rows new_rows : List TableRow) (old : List Member) (done : List Change) (change : Change) (left : List Change) (order : KeyOrder) (now : List Member)
        → AreChangesOf format index old_rows new_rows old (done ++ change ∷ left) → IsOrderOf order index → IsIndexAfter format index done old now → IsRising order now }
{}

/// An entry that is to be removed stands in the list, and one that is to be added does not.
pub fn steps_find_what_they_change()
    ensures removed { (format : ℕ) (index : Index) (old_rows new_rows : List TableRow) (old : List Member) (done : List Change) (entry : List Value) (left : List Change) (order : KeyOrder) (now : List Member)
        → AreChangesOf format index old_rows new_rows old (done ++ Remove entry ∷ left) → IsOrderOf order index → IsIndexAfter format index done old now → HasEqual order (change_record format (Remove entry)) now }
    ensures added { (format : ℕ) (index : Index) (old_rows new_rows : List TableRow) (old : List Member) (done : List Change) (entry : List Value) (left : List Change) (order : KeyOrder) (now : List Member)
        → AreChangesOf format index old_rows new_rows old (done ++ Add entry ∷ left) → IsOrderOf order index → IsIndexAfter format index done old now → ¬ HasEqual order (change_record format (Add entry)) now }
{}

/// A step over an index behind some of its changes brings it behind one more.
pub fn steps_lead_on()
    ensures { (format : ℕ) (index : Index) (old_rows new_rows : List TableRow) (old : List Member) (done : List Change) (change : Change) (left : List Change) (order : KeyOrder) (now new : List Member)
        → AreChangesOf format index old_rows new_rows old (done ++ change ∷ left) → IsOrderOf order index → IsIndexAfter format index done old now
        → IsStepped format order change now new → IsRising order new → IsIndexAfter format index (done ++ change ∷ []) old new }
{}

/// Behind changes without a fault an addition has one exactly where the index is unique, no NULL is among the columns of the entry, and one that agrees in these stands in the list.
pub fn additions_meet_their_faults()
    ensures fault { (format : ℕ) (index : Index) (old_rows new_rows : List TableRow) (old : List Member) (done : List Change) (entry : List Value) (left : List Change) (alike : KeyOrder) (now : List Member)
        → AreChangesOf format index old_rows new_rows old (done ++ Add entry ∷ left) → IsColumnsOrderOf alike index → IsIndexAfter format index done old now → AreFaultless index old_rows new_rows done
        → IsTrue index.unique → has_null index entry ≡ false → HasEqual alike (change_record format (Add entry)) now → IsChangeFault index old_rows new_rows (Add entry) (Some (NotUnique index.name entry)) }
    ensures none { (format : ℕ) (index : Index) (old_rows new_rows : List TableRow) (old : List Member) (done : List Change) (entry : List Value) (left : List Change) (alike : KeyOrder) (now : List Member)
        → AreChangesOf format index old_rows new_rows old (done ++ Add entry ∷ left) → IsColumnsOrderOf alike index → IsIndexAfter format index done old now
        → (¬ IsTrue index.unique) ⊎ ((¬ (has_null index entry ≡ false)) ⊎ (¬ HasEqual alike (change_record format (Add entry)) now)) → IsChangeFault index old_rows new_rows (Add entry) None }
{}

/// A database midway has at the root of the index of which a change is due its list behind the changes that are done; with the list behind one change more in its place it is the database behind one step more.
pub fn steps_of_indexes_lead_databases_on()
    ensures stands { (catalog : Catalog) (old mid : Database) (groups : List (List Batch)) (n : ℕ) (is : IsMid catalog old groups n mid) (plan : TablePlan) (index : IndexPlan) (done : List Change) (change : Change) (left : List Change)
        → IsDue is.plans n plan index done change left → HasRoot old.lists index.root → IsIndexAfter (format_in old) index.index done (list_at old.lists index.root) (list_at mid.lists index.root) }
    ensures leads { (catalog : Catalog) (old mid : Database) (groups : List (List Batch)) (n : ℕ) (is : IsMid catalog old groups n mid) (plan : TablePlan) (index : IndexPlan) (done : List Change) (change : Change) (left : List Change) (members : List Member) (next : Database)
        → IsDue is.plans n plan index done change left → HasRoot old.lists index.root → IsIndexAfter (format_in old) index.index (done ++ change ∷ []) (list_at old.lists index.root) members
        → next.header ≡ mid.header → next.lists ≡ map (with_list index.root members) mid.lists → IsMid catalog old groups (suc n) next }
{}
