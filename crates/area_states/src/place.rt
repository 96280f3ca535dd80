//! Where an area stands, and what calls on it need of its definition.

use ci_space::Shape;
use fp_model::{List, SegDef};

/// An area of the installation. Its data set is its number among all areas, behind the log and the checkpoints.
#[derive(Drop)]
pub struct Place {
    /// Its database.
    pub dedb: u8,

    /// Its number there.
    pub number: u8,

    /// The number in the database of its first anchor.
    pub first_anchor: u32,

    /// Where its parts stand.
    pub shape: Shape,

    /// How many sequential dependents it holds at most; 0 where it has no sequential part.
    pub capacity: u32,

    /// The segment types of its database.
    pub segments: List<SegDef>,
}
