// Laws about entries that agree in the columns of an index.
ghost use Rattle.std.specs.Prelude.{◌≡◌, ◌⊎◌, ℕ, List, false, true};
ghost use Rattle.rbu_value.specs.declared.value.Value.{Value};
ghost use Rattle.format_spec.specs.Record.{IsRecord};
ghost use Rattle.schema_spec.specs.declared.schema.Index.{Index};
ghost use Rattle.tree_spec.specs.Trees.{Member};
ghost use Rattle.database_spec.specs.Keys.{has_null, order_of};
ghost use Rattle.key_order.specs.declared.order.KeyOrder.{KeyOrder};
ghost use Rattle.key_order.specs.Orders.{HasEqual, IsEntry, IsRising};
ghost use Rattle.index_lookup.specs.Alikes.{TellsAlike, with_rowid};

/// An index whose list rises by its own order, its columns and then the rowid, can be asked by the columns alone, for each of its entries.
pub fn indexes_can_be_asked_by_their_columns()
    ensures rises { (order alike : KeyOrder) (members : List Member) → order.columns ≡ alike.columns → order.rowid_last ≡ true → IsRising order members → IsRising (with_rowid alike) members }
    ensures entry { (order alike : KeyOrder) (bytes : List ℕ) → order.columns ≡ alike.columns → order.rowid_last ≡ true → IsEntry order bytes → IsEntry alike bytes }
{}

/// Of an entry whose values are known `true` says that no NULL is among the columns of the index and that an equal one stands in the list, and `false` that not both are so.
pub fn answers_speak_of_values()
    ensures found { (alike : KeyOrder) (index : Index) (payload : List ℕ) (entry : List Value) (members : List Member) → alike.columns ≡ order_of index → IsRecord payload entry
        → TellsAlike alike payload members true → (has_null index entry ≡ false) × HasEqual alike payload members }
    ensures missed { (alike : KeyOrder) (index : Index) (payload : List ℕ) (entry : List Value) (members : List Member) → alike.columns ≡ order_of index → IsRecord payload entry
        → TellsAlike alike payload members false → (¬ (has_null index entry ≡ false)) ⊎ (¬ HasEqual alike payload members) }
{}
