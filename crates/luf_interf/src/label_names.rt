// New names of labels, by their numbers: for each the least that no label before it keeps from it.
ghost use Rattle.std.specs.Prelude.{◌≡◌, ◌<◌, ◌↔◌, [], replicate, IfOk, IsTrue};
ghost use Rattle.std.specs.List.{All};
ghost use Rattle.luf_scope.specs.Local.{Spelling};
ghost use Rattle.luf_interf.specs.inner.LabelNames.{LabelsLie, AreLabelNames};
ghost use Rattle.luf_interf.specs.inner.LabelNumbers.{IsBarredNumber, IsAdded, IsPicked, AreLeastNumbers};

use crate::Memory;
use crate::label_rows::{LabelRow, label_rows};
use crate::maxima::Maxima;
use luf_name::{is_barred, nth};
use luf_scope::Occurrence;
use std::alloc::Global;

// The numbers of the new names, by the numbers of the labels. Time is near linear in the occurrences, and memory is linear
// in the labels and in the functions up to the last one that has a label.
pub fn label_names(alloc: Global, os: &[Occurrence]) -> Result<Vec<u32>, Memory>
    requires { LabelsLie os.now }
    ensures { (spelled : Spelling) → IfOk result (λ numbers. AreLabelNames spelled os.now numbers.items) }
{
    let rows = label_rows(alloc, os)?;
    numbers_of(alloc, rows.as_slice(), classes_of(rows.as_slice()))
}

// One more than the greatest class.
fn classes_of(rows: &[LabelRow]) -> usize
    ensures { All (λ row. row.class < result) rows.now }
{
    let mut classes = 0;
    for row in rows {
        classes = classes.max(row.class as usize + 1);
    }
    classes
}

// Each function has a table: at a number stands how much less than `u32::MAX` the greatest end is of a block whose label
// has that number, and 0 at a barred one. So a number is free for a block from a place on where the table has at least
// what is left from that place to `u32::MAX`.
fn numbers_of(alloc: Global, rows: &[LabelRow], classes: usize) -> Result<Vec<u32>, Memory>
    requires classes { All (λ row. row.class < classes) rows.now }
    requires blocks { All (λ row. row.from < row.to) rows.now }
    ensures { IfOk result (λ numbers. AreLeastNumbers rows.now numbers.items) }
{
    let mut tables = tables_of(alloc, classes)?;
    let mut numbers = Vec::new(alloc);
    for row in rows {
        let number = pick(&mut tables[row.class as usize], *row)?;
        numbers.push(number)?;
    }
    Ok(numbers)
}

fn tables_of(alloc: Global, classes: usize) -> Result<Vec<Maxima>, Memory>
    ensures { IfOk result (λ tables. tables.items ≡ replicate classes []) }
{
    let mut tables = Vec::new(alloc);
    for _ in 0..classes {
        tables.push(Maxima::new(alloc))?;
    }
    Ok(tables)
}

// The least number that is free for a label, which the table has from then on.
fn pick(table: &mut Maxima, row: LabelRow) -> Result<u32, Memory>
    requires { row.from < row.to }
    ensures { IfOk result (λ k. IsPicked table.old row k table.new) }
{
    let end = u32::MAX - row.to;
    let Some(place) = table.first(u32::MAX - row.from) else {
        return add_free(table, end);
    };
    let Ok(number) = u32::try_from(place) else {
        return Err(Memory);
    };
    table.set(place, end);
    Ok(number)
}

// The next number that is not barred. Numbers that are too many have no room.
fn add_free(table: &mut Maxima, end: u32) -> Result<u32, Memory>
    ensures { IfOk result (λ k. IsAdded table.old end k table.new) }
{
    let Ok(next) = u32::try_from(table.len()) else {
        return Err(Memory);
    };
    for place in next..u32::MAX {
        if !is_barred_number(place) {
            table.push(end)?;
            return Ok(place);
        }
        table.push(0)?;
    }
    Err(Memory)
}

fn is_barred_number(number: u32) -> bool
    ensures { IsTrue result ↔ IsBarredNumber number }
{
    let name = nth(number);
    is_barred(name.as_slice())
}
