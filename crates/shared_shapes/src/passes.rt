//! What one caller has of the registry and of the shapes that it registered or asked.
use crate::board::Board;
use crate::lent::Lent;
use crate::numbered::Numbered;
use crate::seat::Seat;
use front_lock::Note;
use shape_base::RowTest;

/// A pass of the registry, with a pass of each shape that its holder registered or asked. It may go to another thread. Contracts see what it knows of each.
#[derive(Drop)]
pub struct RegPass<T: RowTest> {
    pub(crate) reg: Lent<Board<T>>,
    pub(crate) seats: Numbered<Seat<T>>,
}

/// What a pass has seen, for another to learn: of the registry, and of each shape that it has a pass of. It may go to another thread.
#[derive(Drop)]
pub struct RegNote<T: RowTest> {
    pub(crate) reg: Note<Board<T>>,
    pub(crate) seats: Numbered<Seat<T>>,
}
