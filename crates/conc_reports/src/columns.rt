ghost use Rattle.std.specs.Prelude.{◌≡◌, ◌<◌, IfSome, Some, length};
ghost use Rattle.std.specs.Option.{option_map};
ghost use Rattle.conc_types.specs.Kept.{AreAmounts, IsNumbering, cell_of};
ghost use Rattle.conc_base_law.specs.Numbers.{whole_number};
ghost use Rattle.conc_reports.specs.Columns as spec;
ghost use Rattle.conc_reports.specs.Columns.{cell_in, cells_at, place_named};

use crate::numbers::whole_number;
use conc_types::{Amounts, NOT_KEPT, Name, Numbering, Table};

/// Where a column stands in a table, from 0, if the table has it.
#[derive(Clone, Copy)]
pub struct Place {
    pub index: Option<usize>,
}

/// The place of the column with this name.
pub fn place_of(table: &Table, name: &[u8]) -> Place
    ensures { result.index ≡ place_named table.now name.now }
{
    Place {
        index: table
            .columns()
            .iter()
            .position(|column| name == column.as_slice()),
    }
}

/// The place of a column, if one is named.
pub fn place_if_named(table: &Table, name: &Option<Name>) -> Option<Place>
    ensures { option_map (λ place. place.index) result ≡ spec.place_if_named table.now name.now }
{
    match name {
        Some(name) => Some(place_of(table, name.as_bytes())),
        None => None,
    }
}

/// The cell of a row, from 0, at a place; empty where there is none.
pub fn cell_at(table: &Table, row: usize, place: Place) -> &[u8]
    requires { row < length table.now.rows }
    ensures { result.now ≡ cell_in place.index (cells_at table.now row) }
{
    match place.index {
        Some(column) => {
            if column < table.columns().len() {
                table.cell(row, column)
            } else {
                &[]
            }
        }
        None => &[],
    }
}

/// The number in the cell of a row, from 0, at a place: 0 where no place is asked for, and None
/// where the cell is no whole number.
pub fn value_at(table: &Table, row: usize, place: Option<Place>) -> Option<i64>
    requires { row < length table.now.rows }
    ensures { result ≡ spec.value_at table.now row place }
{
    match place {
        Some(place) => whole_number(cell_at(table, row, place)),
        None => Some(0),
    }
}

/// The cell of a row, from 0, at a place, if one is asked for.
pub fn key_at(table: &Table, row: usize, place: Option<Place>) -> Option<&[u8]>
    requires { row < length table.now.rows }
    ensures { option_map (λ key. key.now) result
        ≡ option_map (λ p. cell_in p.index (cells_at table.now row)) place }
{
    match place {
        Some(place) => Some(cell_at(table, row, place)),
        None => None,
    }
}

/// The column at a place, where the table has it.
pub fn known_column(table: &Table, place: Place) -> Option<usize>
    ensures known { IfSome result (λ column. place.index ≡ Some column) }
    ensures within { IfSome result (λ column. column < length table.now.columns) }
{
    match place.index {
        Some(column) if column < table.columns().len() => Some(column),
        _ => None,
    }
}

/// The whole number of a row's cell, from 0, where they are kept.
pub fn kept_number(table: &Table, row: usize, amounts: &Amounts) -> Option<i64>
    requires row { row < length table.now.rows }
    requires column { amounts.now.column < length table.now.columns }
    requires stand { AreAmounts table.now.rows amounts.now }
    ensures { result ≡ whole_number (cell_of table.now.rows row amounts.now.column) }
{
    let value = amounts.values[row];
    if value == NOT_KEPT {
        whole_number(table.cell(row, amounts.column))
    } else {
        Some(i64::from(value))
    }
}

/// The numbers of the rows of the column at a place, if they are kept.
pub fn numbering_at(table: &Table, place: Place) -> Option<&Numbering>
    ensures stands { IfSome result (λ n. IsNumbering table.now.rows n.now) }
    ensures place { IfSome result (λ n. place.index ≡ Some n.now.column) }
    ensures within { IfSome result (λ n. n.now.column < length table.now.columns) }
{
    match known_column(table, place) {
        Some(column) => table.numbering(column),
        None => None,
    }
}

/// The whole numbers of the column at a place, if one is asked for and they are kept.
pub fn amounts_at(table: &Table, place: Option<Place>) -> Option<&Amounts>
    ensures stand { IfSome result (λ a. AreAmounts table.now.rows a.now) }
    ensures place { IfSome result (λ a. option_map (λ p. p.index) place
        ≡ Some (Some a.now.column)) }
    ensures within { IfSome result (λ a. a.now.column < length table.now.columns) }
{
    match place {
        Some(place) => match known_column(table, place) {
            Some(column) => table.amounts(column),
            None => None,
        },
        None => None,
    }
}

/// The number in the cell of a row, from 0, at a place, as `value_at` gives it, by what is kept of its
/// column.
pub fn kept_value_at(
    table: &Table,
    row: usize,
    place: Option<Place>,
    amounts: Option<&Amounts>,
) -> Option<i64>
    requires row { row < length table.now.rows }
    requires stand { IfSome amounts (λ a. AreAmounts table.now.rows a.now) }
    requires place { IfSome amounts (λ a. option_map (λ p. p.index) place
        ≡ Some (Some a.now.column)) }
    requires within { IfSome amounts (λ a. a.now.column < length table.now.columns) }
    ensures { result ≡ spec.value_at table.now row place }
{
    match amounts {
        Some(amounts) => kept_number(table, row, amounts),
        None => value_at(table, row, place),
    }
}
