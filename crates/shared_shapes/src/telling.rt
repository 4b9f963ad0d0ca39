//! What one caller tells another of shapes.
ghost use Rattle.std.specs.Prelude.{◌≡◌, [], ℕ, List, IfSome, IfNone, OnOk, OnErr};
ghost use Rattle.std.specs.FinMap as fin;
ghost use Rattle.shared_shapes.specs.Events.{Noted};
ghost use Rattle.shared_shapes.specs.Seats.{AreSeats};
ghost use Rattle.shared_shapes.specs.Sharing.{AreTold, Fits};
ghost use Rattle.shared_shapes.specs.Asking.{AreOn, Admits};

use crate::numbered::Numbered;
use crate::seat::Seat;
use crate::seats::admit;
use shape_base::{OutOfMemory, RowTest};
use std::alloc::Global;

/// Tells what is to be told of one number.
fn tell_at<T: RowTest>(
    seats: &mut Numbered<Seat<T>>,
    told: &mut Numbered<Seat<T>>,
    number: u64,
) -> Result<(), OutOfMemory>
    requires { IfSome (fin.get told.old number) (λ s. (s.pass.own ≡ []) × IfSome (fin.get seats.old number) (λ t. t.pass.lock ≡ s.pass.lock)) }
    ensures rest { told.new ≡ fin.remove told.old number }
    ensures tells { OnOk result (IfSome (fin.get told.old number) (Admits seats.old seats.new number)) }
    ensures none { IfNone (fin.get told.old number) (seats.new ≡ seats.old) }
    ensures same { OnErr result (seats.new ≡ seats.old) }
{
    let Some(visitor) = told.take(number) else {
        return Ok(());
    };
    admit(seats, number, visitor)
}

/// The seats have then seen what those have of which is told. At Err some of them.
pub(crate) fn tell_all<T: RowTest>(
    alloc: Global,
    seats: &mut Numbered<Seat<T>>,
    told: Numbered<Seat<T>>,
) -> Result<(), OutOfMemory>
    requires { Fits told seats.old }
    ensures on { AreOn seats.old seats.new }
    ensures told { OnOk result (AreTold told seats.new) }
    ensures known { (es : List (Noted T)) → AreSeats es seats.old → AreSeats es told → AreSeats es seats.new }
{
    let mut told = told;
    let numbers = told.numbers(alloc)?;
    for i in 0..numbers.len() {
        tell_at(seats, &mut told, numbers[i])?;
    }
    Ok(())
}
