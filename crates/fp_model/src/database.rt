//! What the databases hold: segments, and no intervals, pointers or slots.
ghost use Rattle.std.specs.Prelude.{◌≡◌, IfOk};

use fp_lists::{Bytes, List};
use std::alloc::AllocError;

/// A direct dependent with all below it.
#[derive(PartialEq, Eq, Drop)]
pub struct Node {
    pub bytes: Bytes,
    /// One list for each direct child type, in order of definition, keys ascending.
    pub children: List<List<Node>>,
}

/// A sequential dependent.
#[derive(Clone, PartialEq, Eq, Drop)]
pub struct SeqItem {
    /// Its number in its area, in order of entry, from 1.
    pub serial: u64,
    pub bytes: Bytes,
}

/// A root segment with all below it.
#[derive(PartialEq, Eq, Drop)]
pub struct Root {
    pub bytes: Bytes,
    /// One list for each direct child type, in order of definition, keys ascending.
    pub children: List<List<Node>>,
    /// Its sequential dependents, newest first, with serials from the area's `begin` on.
    pub seqs: List<SeqItem>,
}

/// The ends of the sequential part of an area.
#[derive(Clone, Copy, PartialEq, Eq)]
pub struct AreaEnds {
    /// The least serial that may still be kept; `end` where none is.
    pub begin: u64,
    /// The serial that the next sequential dependent gets.
    pub end: u64,
}

/// The state of a data entry database.
#[derive(Drop)]
pub struct Dedb {
    /// The roots of each anchor, keys ascending, through the areas in order.
    pub anchors: List<List<Root>>,
    /// The ends of each area.
    pub areas: List<AreaEnds>,
}

/// The state of a main storage database.
#[derive(Drop)]
pub struct Msdb {
    /// Keys ascending.
    pub segments: List<Bytes>,
}

/// The state of all databases.
#[derive(Drop)]
pub struct Db {
    pub msdbs: List<Msdb>,
    pub dedbs: List<Dedb>,
}

impl Node {
    /// The same segment once more, with all below it. Fails only for want of memory.
    #[cycle(copies)]
    pub fn copy(&self) -> Result<Node, AllocError>
        ensures { IfOk result (λ n. n ≡ self.now) }
    {
        let children = copy_children(&self.children)?;
        let bytes = self.bytes.copy()?;
        Ok(Node { bytes, children })
    }
}

#[cycle(copies)]
fn copy_children(groups: &List<List<Node>>) -> Result<List<List<Node>>, AllocError>
    ensures { IfOk result (λ copies. copies ≡ groups.now) }
{
    let mut children = groups.empty_like();
    for group in groups.as_slice() {
        let mut row = group.empty_like();
        for child in group.as_slice() {
            row.push(child.copy()?)?;
        }
        children.push(row)?;
    }
    Ok(children)
}

impl Root {
    /// The same root once more, with all below it. Fails only for want of memory.
    pub fn copy(&self) -> Result<Root, AllocError>
        ensures { IfOk result (λ root. root ≡ self.now) }
    {
        let children = copy_children(&self.children)?;
        let bytes = self.bytes.copy()?;
        let seqs = self.seqs.clone()?;
        Ok(Root {
            bytes,
            children,
            seqs,
        })
    }
}
