//! One shape that threads share: a `shape_state::Shape` under a `FrontLock`.
//!
//! Each call takes the lock once and adds one event of the shape's history (`shape_json`'s `ShapeHistory`), or none. It is given a pass and gives it back, and its
//! contract is by the history that the pass has seen then.
#![tactic(auto)]

mod calls;
mod fate;
mod feeding;
mod locked;
mod marks;
mod start;
mod step;

pub use calls::{Looked, begin, drop_shape, finish, look};
pub use fate::Fate;
pub use feeding::{FedShape, feed};
pub use locked::Locked;
pub use start::ShapeStart;
pub use step::ShapeStep;
