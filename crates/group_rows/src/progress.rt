// What a group has come to, step by step.
ghost use Rattle.std.specs.Prelude.{◌≡◌, ◌≤ℤ◌, pos, suc, List, [], ◌∷◌, true, false, cond, length, map, IfOk, OnOk};
ghost use Rattle.std.specs.List.{AllByRecursion};
ghost use Rattle.rbu_rows.specs.declared.prepared.Prepared.{Prepared as AnyPrepared};
ghost use Rattle.prepared_spec.specs.RowKeys.{key_collations as key_collations_of, IsInKeyOrder};
ghost use Rattle.prepared_spec.specs.StepFaults.{is_spent};
ghost use Rattle.row_steps.specs.RowSteps.{fault_where};
ghost use Rattle.compared_keys.specs.Keys.{HasKey};
ghost use Rattle.group_rows.specs.KeyedRows.{Holds};
ghost use Rattle.group_rows.specs.Runs.{any_row, changed, dues_of, left_of, makes as makes_of, seen, seen_due};

use crate::keyed::KeyedRows;
use crate::ordered::{Keyed, ordered_rows};
use owned_list::OwnedList;
use rbu_rows::Prepared;
use rbu_value::{Collation, Value};
use row_steps::{made_row, makes_row, met_values, row_fault};
use schema_spec::Table;
use std::alloc::{AllocError, Global};

/// A prepared row whose step is due, and the rows that it meets.
#[derive(Drop)]
pub(crate) struct Due<'a> {
    prepared: &'a Prepared,
    found: Vec<(i64, OwnedList<Value>)>,
}

/// What a group has come to.
#[derive(Drop)]
pub(crate) struct Progress {
    /// The rows as they stand.
    pub(crate) rows: KeyedRows,
    /// The rowids of the rows that were met, in no order.
    pub(crate) met: Vec<i64>,
    /// Those of the rows that were made.
    pub(crate) made: Vec<i64>,
    /// Of each prepared row in the order of the steps, whether it made a row.
    pub(crate) marks: Vec<bool>,
    // Whether a step had a fault.
    stopped: bool,
}

fn has_row(rows: &[(i64, OwnedList<Value>)]) -> bool
    ensures { result ≡ any_row rows.now }
{
    match rows {
        [] => false,
        [_, ..] => true,
    }
}

// Whether a prepared row that meets these rows makes one.
fn makes(prepared: &Prepared, found: &[(i64, OwnedList<Value>)]) -> bool
    ensures { result ≡ makes_of prepared.now found.now }
{
    makes_row(&prepared.control) && !has_row(found)
}

// What becomes of a row that a prepared row meets.
fn changed_row(
    alloc: Global,
    table: &Table,
    row: &(i64, OwnedList<Value>),
    prepared: &Prepared,
) -> Result<Option<(i64, OwnedList<Value>)>, AllocError>
    ensures { IfOk result (λ after. after ≡ changed table.now prepared.now row.now) }
{
    match met_values(alloc, table, row, prepared)? {
        Some(values) => Ok(Some((row.0, values))),
        None => Ok(None),
    }
}

// Takes out the rows that each prepared row of a batch meets.
fn find_dues<'a>(
    alloc: Global,
    rows: &mut KeyedRows,
    table: &Table,
    ordered: &[Keyed<'a>],
) -> Result<Vec<Due<'a>>, AllocError>
    ensures { IfOk result (λ dues. (all : List _) → Holds table.now rows.old all
        → (map seen_due dues.items ≡ dues_of table.now all (map seen ordered.now)) × Holds table.now rows.new (left_of table.now all (map seen ordered.now))) }
{
    let mut dues = Vec::new(alloc);
    let mut left = ordered;
    while let [keyed, rest @ ..] = left {
        let found = rows.take(alloc, &keyed.key);
        dues.push(Due {
            prepared: keyed.row,
            found,
        })?;
        left = rest;
    }
    Ok(dues)
}

impl Progress {
    ghost use Rattle.group_rows.specs.Runs.{Run, Stands, all_stepped, batch_run, batch_taken, begun, done, is_over, noted, passed_over, skipped, stepped, with_changed, with_made};

    /// The start of a group over these rows.
    pub(crate) fn begin(
        alloc: Global,
        table: &Table,
        collations: &[Collation],
        rows: &[(i64, OwnedList<Value>)],
    ) -> Result<Progress, AllocError>
        requires collated { collations.now ≡ key_collations_of table.now }
        ensures { IfOk result (λ progress. Stands table.now progress (begun rows.now)) }
    {
        let mut kept = KeyedRows::new(alloc);
        kept.put_copies(alloc, table, collations, rows)?;
        Ok(Progress {
            rows: kept,
            met: Vec::new(alloc),
            made: Vec::new(alloc),
            marks: Vec::new(alloc),
            stopped: false,
        })
    }

    // Notes whether a prepared row makes a row.
    fn note(&mut self, mark: bool) -> Result<(), AllocError>
        ensures stands { OnOk result ((table : _) (run : Run) → Stands table self.old run → Stands table self.new (noted mark run)) }
        ensures made { self.new.made ≡ self.old.made }
    {
        self.marks.push(mark)?;
        Ok(())
    }

    // Passes over a prepared row whose step is not reached: the rows that it would meet stay.
    fn pass_over(
        &mut self,
        alloc: Global,
        table: &Table,
        collations: &[Collation],
        found: Vec<(i64, OwnedList<Value>)>,
    ) -> Result<(), AllocError>
        requires collated { collations.now ≡ key_collations_of table.now }
        ensures { OnOk result ((run : Run) → Stands table.now self.old run → Stands table.now self.new (passed_over found.items run)) }
    {
        self.stopped = true;
        self.marks.push(false)?;
        self.rows.put_all(alloc, table, collations, found)?;
        Ok(())
    }

    // Makes the row of a prepared row that meets none.
    fn make(
        &mut self,
        alloc: Global,
        table: &Table,
        collations: &[Collation],
        g: &i64,
        prepared: &Prepared,
    ) -> Result<(), AllocError>
        requires from { pos 0 ≤ℤ g.now }
        requires collated { collations.now ≡ key_collations_of table.now }
        requires fits { is_spent table.now g.now (suc (length self.old.made.items)) ≡ false }
        ensures { OnOk result ((run : Run) → Stands table.now self.old run → Stands table.now self.new (with_made table.now g.now prepared.now run)) }
    {
        let row = made_row(alloc, table, g, self.made.len() as u64, prepared)?;
        self.made.push(row.0)?;
        self.rows.put(alloc, table, collations, row)?;
        Ok(())
    }

    // Makes it where there is one to be made.
    fn make_where(
        &mut self,
        alloc: Global,
        table: &Table,
        collations: &[Collation],
        g: &i64,
        prepared: &Prepared,
        mark: bool,
    ) -> Result<(), AllocError>
        requires from { pos 0 ≤ℤ g.now }
        requires collated { collations.now ≡ key_collations_of table.now }
        requires fits { mark ≡ true → is_spent table.now g.now (suc (length self.old.made.items)) ≡ false }
        ensures { OnOk result ((run : Run) → Stands table.now self.old run → Stands table.now self.new (cond mark (with_made table.now g.now prepared.now run) run)) }
    {
        if mark {
            self.make(alloc, table, collations, g, prepared)?;
        }
        Ok(())
    }

    // Changes a row that a prepared row meets.
    fn change(
        &mut self,
        alloc: Global,
        table: &Table,
        collations: &[Collation],
        prepared: &Prepared,
        row: &(i64, OwnedList<Value>),
    ) -> Result<(), AllocError>
        requires collated { collations.now ≡ key_collations_of table.now }
        ensures { OnOk result ((run : Run) → Stands table.now self.old run → Stands table.now self.new (with_changed table.now prepared.now (row.now ∷ []) run)) }
    {
        self.met.push(row.0)?;
        match changed_row(alloc, table, row, prepared)? {
            Some(after) => self.rows.put(alloc, table, collations, after)?,
            None => {}
        }
        Ok(())
    }

    // Changes all rows that a prepared row meets.
    fn change_all(
        &mut self,
        alloc: Global,
        table: &Table,
        collations: &[Collation],
        prepared: &Prepared,
        found: &[(i64, OwnedList<Value>)],
    ) -> Result<(), AllocError>
        requires collated { collations.now ≡ key_collations_of table.now }
        ensures { OnOk result ((run : Run) → Stands table.now self.old run → Stands table.now self.new (with_changed table.now prepared.now found.now run)) }
    {
        let mut left = found;
        while let [row, rest @ ..] = left {
            self.change(alloc, table, collations, prepared, row)?;
            left = rest;
        }
        Ok(())
    }

    // The step of a prepared row that has no fault.
    fn finish(
        &mut self,
        alloc: Global,
        table: &Table,
        collations: &[Collation],
        g: &i64,
        prepared: &Prepared,
        found: &[(i64, OwnedList<Value>)],
    ) -> Result<(), AllocError>
        requires from { pos 0 ≤ℤ g.now }
        requires collated { collations.now ≡ key_collations_of table.now }
        requires fits { makes_of prepared.now found.now ≡ true → is_spent table.now g.now (suc (length self.old.made.items)) ≡ false }
        ensures { OnOk result ((run : Run) → Stands table.now self.old run → Stands table.now self.new (done table.now g.now prepared.now found.now run)) }
    {
        let mark = makes(prepared, found);
        self.note(mark)?;
        self.make_where(alloc, table, collations, g, prepared, mark)?;
        self.change_all(alloc, table, collations, prepared, found)?;
        Ok(())
    }

    // Whether the step of a prepared row that meets such rows is not reached, or has a fault.
    fn ends_at(
        &self,
        alloc: Global,
        table: &Table,
        g: &i64,
        prepared: &Prepared,
        found: &[(i64, OwnedList<Value>)],
    ) -> Result<bool, AllocError>
        requires from { pos 0 ≤ℤ g.now }
        ensures ends { IfOk result (λ over. (run : Run) → Stands table.now self.now run → over ≡ is_over table.now g.now prepared.now found.now run) }
        ensures fits { IfOk result (λ over. over ≡ false → makes_of prepared.now found.now ≡ true → is_spent table.now g.now (suc (length self.now.made.items)) ≡ false) }
    {
        if self.stopped {
            return Ok(true);
        }
        let fault = row_fault(
            alloc,
            b"",
            table,
            g,
            self.made.len() as u64,
            has_row(found),
            prepared,
        )?;
        Ok(fault.is_some())
    }

    // The step of a prepared row.
    fn step(
        &mut self,
        alloc: Global,
        table: &Table,
        collations: &[Collation],
        g: &i64,
        due: Due<'_>,
    ) -> Result<(), AllocError>
        requires from { pos 0 ≤ℤ g.now }
        requires collated { collations.now ≡ key_collations_of table.now }
        ensures { OnOk result ((run : Run) → Stands table.now self.old run → Stands table.now self.new (stepped table.now g.now (seen_due due.entry) run)) }
    {
        let Due { prepared, found } = due;
        if self.ends_at(alloc, table, g, prepared, found.as_slice())? {
            self.pass_over(alloc, table, collations, found)?;
            return Ok(());
        }
        self.finish(alloc, table, collations, g, prepared, found.as_slice())?;
        Ok(())
    }

    // The steps of a batch.
    fn step_all(
        &mut self,
        alloc: Global,
        table: &Table,
        collations: &[Collation],
        g: &i64,
        dues: Vec<Due<'_>>,
    ) -> Result<(), AllocError>
        requires from { pos 0 ≤ℤ g.now }
        requires collated { collations.now ≡ key_collations_of table.now }
        ensures { OnOk result ((run : Run) → Stands table.now self.old run → Stands table.now self.new (all_stepped table.now g.now (map seen_due dues.entry.items) run)) }
    {
        for due in dues {
            self.step(alloc, table, collations, g, due)?;
        }
        Ok(())
    }

    // Goes through a batch whose rows are in key order.
    fn run_batch(
        &mut self,
        alloc: Global,
        table: &Table,
        collations: &[Collation],
        g: &i64,
        ordered: &[Keyed<'_>],
    ) -> Result<(), AllocError>
        requires from { pos 0 ≤ℤ g.now }
        requires collated { collations.now ≡ key_collations_of table.now }
        ensures { OnOk result ((run : Run) → Stands table.now self.old run → Stands table.now self.new (batch_run table.now g.now (map seen ordered.now) run)) }
    {
        let dues = find_dues(alloc, &mut self.rows, table, ordered)?;
        self.step_all(alloc, table, collations, g, dues)?;
        Ok(())
    }

    // Notes of the rows of a batch behind a fault that none makes a row.
    fn skip(&mut self, rows: &[Prepared]) -> Result<(), AllocError>
        ensures { OnOk result ((table : _) (run : Run) → Stands table self.old run → Stands table self.new (skipped (length rows.now) run)) }
    {
        let mut left = rows;
        while let [_, rest @ ..] = left {
            self.note(false)?;
            left = rest;
        }
        Ok(())
    }

    /// Goes through a batch.
    pub(crate) fn take_batch(
        &mut self,
        alloc: Global,
        table: &Table,
        collations: &[Collation],
        g: &i64,
        rows: &[Prepared],
    ) -> Result<(), AllocError>
        requires from { pos 0 ≤ℤ g.now }
        requires collated { collations.now ≡ key_collations_of table.now }
        ensures { OnOk result ((run : Run) (ordered : List AnyPrepared) → Stands table.now self.old run → IsInKeyOrder table.now rows.now ordered → AllByRecursion (HasKey table.now) rows.now
            → Stands table.now self.new (batch_taken table.now g.now ordered run)) }
    {
        if self.stopped {
            self.skip(rows)?;
            return Ok(());
        }
        let ordered = ordered_rows(alloc, collations, rows)?;
        self.run_batch(alloc, table, collations, g, ordered.as_slice())?;
        Ok(())
    }
}
