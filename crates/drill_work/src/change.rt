//! One change.
ghost use Rattle.std.specs.Prelude.{◌≡◌, ◌<◌, ◌≤◌, ◌+◌, length, IfOk, slice_index_or};
ghost use Rattle.drill_work.specs.Changes.{letter_of, made, inserted, no_item, altered, change, all_made, changes};

use crate::chance::Chance;
use crate::plain::{Item, Items, Letter, Plain, Statement, Statements};
use shape_base::{OutOfMemory, Seq};
use std::alloc::Global;

fn letter_of(number: u64) -> Letter
    ensures { result ≡ letter_of number }
{
    match number {
        0 => Letter::K,
        _ => Letter::M,
    }
}

/// The row in a place.
fn item_at(rows: &Items, place: u64) -> Item
    requires { place < length rows.now }
    ensures { result ≡ slice_index_or rows.now place no_item }
{
    *rows.at(place)
}

/// Inserts a row.
fn insert(chance: &mut Chance, plain: &mut Plain) -> Result<Statement, OutOfMemory>
    requires { plain.old.fresh < 4294967296 }
    ensures makes { IfOk result (λ statement. inserted chance.old.state plain.old ≡ made statement plain.new chance.new.state) }
    ensures ids { plain.new.fresh ≤ plain.old.fresh + 1 }
{
    let n = chance.next(100);
    let letter = letter_of(chance.next(2));
    let item = Item {
        id: plain.fresh,
        n,
        letter,
    };
    plain.rows.push(item)?;
    plain.fresh += 1;
    Ok(Statement::Insert(item))
}

/// Deletes a row, gives it a new id, or another number.
#[tactic(auto, unfolding(crate::specs::Changes::altered))]
fn alter(chance: &mut Chance, plain: &mut Plain) -> Statement
    requires some { 0 < length plain.old.rows }
    requires bound { plain.old.fresh < 4294967296 }
    ensures makes { altered chance.old.state plain.old ≡ made result plain.new chance.new.state }
    ensures ids { plain.new.fresh ≤ plain.old.fresh + 1 }
{
    let place = chance.next(plain.rows.len());
    let old = item_at(&plain.rows, place);
    match chance.next(4) {
        0 => {
            plain.rows.remove(place);
            Statement::Delete(old)
        }
        1 => {
            let id = plain.fresh;
            let new = Item { id, ..old };
            plain.rows.set(place, new);
            plain.fresh += 1;
            Statement::Update { old, new }
        }
        _ => {
            let n = chance.next(100);
            let new = Item { n, ..old };
            plain.rows.set(place, new);
            Statement::Update { old, new }
        }
    }
}

/// Makes one change.
#[tactic(auto, unfolding(crate::specs::Changes::change))]
fn change(chance: &mut Chance, plain: &mut Plain) -> Result<Statement, OutOfMemory>
    requires { plain.old.fresh < 4294967296 }
    ensures makes { IfOk result (λ statement. change chance.old.state plain.old ≡ made statement plain.new chance.new.state) }
    ensures ids { plain.new.fresh ≤ plain.old.fresh + 1 }
{
    if plain.rows.len() == 0 {
        return insert(chance, plain);
    }
    if chance.next(3) == 0 {
        return insert(chance, plain);
    }
    Ok(alter(chance, plain))
}

/// Makes so many changes, one after the other.
pub fn changes(
    alloc: Global,
    chance: &mut Chance,
    plain: &mut Plain,
    count: u64,
) -> Result<Statements, OutOfMemory>
    requires { plain.old.fresh + count ≤ 4294967296 }
    ensures makes { IfOk result (λ statements. changes count chance.old.state plain.old ≡ all_made statements plain.new chance.new.state) }
    ensures ids { plain.new.fresh ≤ plain.old.fresh + count }
{
    let mut statements = Seq::new(alloc);
    for _ in 0..count {
        let statement = change(chance, plain)?;
        statements.push(statement)?;
    }
    Ok(statements)
}
