//! What ranks need and execute in all chains of a program: slices. Equal chains have equal ones, which are made once;
//! the messages that chains send are counted.
mod copies;
mod levels;
mod lists;
mod making;
mod messages;
mod shapes;
mod sliced;

pub use levels::Level;
pub use making::slices;
pub use messages::contains;
pub use shapes::Shape;
pub use sliced::{LevelAt, Slices};
