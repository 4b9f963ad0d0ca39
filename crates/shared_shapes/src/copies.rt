//! Copies of the seats of one caller, for another.
ghost use Rattle.std.specs.Prelude.{◌≡◌, [], IsSome, IsSomeAnd, IfOk};
ghost use Rattle.std.specs.FinMap as fin;
ghost use Rattle.shared_shapes.specs.Seats.{AtSeat};
ghost use Rattle.shared_shapes.specs.Sharing.{IsSame, IsCopy, AreEach};

use crate::numbered::Numbered;
use crate::seat::Seat;
use shape_base::{OutOfMemory, RowTest};
use std::alloc::Global;

/// A copy of the seat of a number.
fn copy_at<T: RowTest>(seats: &mut Numbered<Seat<T>>, number: u64) -> Result<Seat<T>, OutOfMemory>
    requires { IsSome (fin.get seats.old number) }
    ensures same { AtSeat seats.old seats.new number IsSame }
    ensures copy { IfOk result (λ t. IsSomeAnd (fin.get seats.old number) (λ s. IsCopy s t)) }
{
    let Some(seat) = seats.get_mut(number) else {
        unreachable!()
    };
    seat.copy()
}

/// A copy of each seat.
pub(crate) fn copy_all<T: RowTest>(
    alloc: Global,
    seats: &mut Numbered<Seat<T>>,
) -> Result<Numbered<Seat<T>>, OutOfMemory>
    ensures same { AreEach IsSame seats.old seats.new }
    ensures copies { IfOk result (AreEach IsCopy seats.old) }
{
    let numbers = seats.numbers(alloc)?;
    let mut copies = Numbered::new(alloc);
    for i in 0..numbers.len() {
        let number = numbers[i];
        let seat = copy_at(seats, number)?;
        copies.insert(number, seat)?;
    }
    Ok(copies)
}
