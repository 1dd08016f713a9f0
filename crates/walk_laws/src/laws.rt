// Laws about what is found in stores.
ghost use Rattle.std.specs.Prelude.{◌⊎◌, ℕ, List};
ghost use Rattle.rbu_value.specs.declared.value.Value.{Value};
ghost use Rattle.format_spec.specs.declared.PageKind.{PageKind};
ghost use Rattle.format_spec.specs.Record.{IsRecord};
ghost use Rattle.page_layout.specs.Views.{IsRefused};
ghost use Rattle.refusal.specs.declared.Rule.{Rule};
ghost use Rattle.schema_spec.specs.declared.schema.Table.{Table};
ghost use Rattle.tree_spec.specs.declared.TreeKind.{TreeKind};
ghost use Rattle.tree_spec.specs.Standing.{Sizes, Paged};
ghost use Rattle.tree_spec.specs.Trees.{Member};
ghost use Rattle.database_spec.specs.declared.catalog.Entry.{Entry};
ghost use Rattle.database_spec.specs.Rows.{TableRow, IsPlain};
ghost use Rattle.database_spec.specs.Walks.{Finding, Seen, IsAccepted, IsList, IsWalk, StopsAt};

/// Each page is accepted, or refused for a reason, whatever its bytes are.
pub fn pages_are_accepted_or_refused()
    ensures { (sizes : Sizes) (base : Paged) (number : ℕ)
        → ((rule : Rule) × IsRefused (base.pages number) number sizes.usable rule) ⊎ ((kind : PageKind) × (cells : List Seen) × (right : ℕ) × IsAccepted sizes base number kind cells right) }
{}

/// A walk over the tree at a root finds something, whatever the pages hold; and a cursor comes to the end of a tree, or meets something.
pub fn stores_have_walks()
    ensures walks { (sizes : Sizes) (base : Paged) (kind : TreeKind) (root : ℕ) → (findings : List Finding) × IsWalk sizes base kind root findings }
    ensures ends { (sizes : Sizes) (base : Paged) (kind : TreeKind) (root : ℕ)
        → ((members : List Member) × IsList sizes base kind root members) ⊎ ((stop : ℕ × Rule) × StopsAt sizes base kind root stop) }
{}

/// Bytes are a record or none, and so a table is plain or it is not.
pub fn tables_are_plain_or_not()
    ensures records { (bytes : List ℕ) → ((values : List Value) × IsRecord bytes values) ⊎ ((values : List Value) × IsRecord bytes values → ⊥) }
    ensures tables { (sizes : Sizes) (base : Paged) (entry : Entry)
        → ((table : Table) × (rows : List TableRow) × IsPlain sizes base entry table rows) ⊎ ((table : Table) × (rows : List TableRow) × IsPlain sizes base entry table rows → ⊥) }
{}
