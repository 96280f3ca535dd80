//! Which intervals have an item since the mark: a flag for each, up to the last that has one.

ghost use Rattle.std.specs.Prelude.{◌≡◌, ◌<◌, ◌≤◌, ◌-◌, ◌||◌, ◌&&◌, ◌==◌, ◌∷◌, [], ℕ, List as ListOf, false, length, Some, OnOk, IfOk};
ghost use Rattle.fp_model.specs.State.{first_area_set};
ghost use Rattle.fp_model.specs.declared.log.Item.{Item as ItemOf};
ghost use Rattle.area_staging.specs.Items.{flag_at, is_imaged, HasFlag};
ghost use Rattle.area_staging.specs.Flags.{AreFlagged, AreNoted, IsFlagged};

use fp_model::{Item, List};
use std::alloc::{AllocError, Global};

/// The number of the first area's data set: the log and the checkpoints come before.
const FIRST_AREA: u16 = 3;

/// So many areas, none of whose intervals has an item.
pub fn none_imaged(alloc: Global, count: usize) -> Result<Vec<List<bool>>, AllocError>
    ensures none { IfOk result (λ imaged. (set ci : ℕ) → is_imaged imaged.items set ci ≡ false) }
    ensures count { IfOk result (λ imaged. length imaged.items ≡ count) }
{
    let mut imaged = Vec::new(alloc);
    while imaged.len() < count {
        imaged.push(List::new(alloc))?;
    }
    Ok(imaged)
}

/// The flag of an interval.
fn flag_at(flags: &List<bool>, ci: u64) -> bool
    ensures { result ≡ flag_at (Some flags.now) ci }
{
    match flags.get(ci as usize) {
        Some(flag) => *flag,
        None => false,
    }
}

/// Whether an interval of an area has an item since the mark.
pub fn is_imaged(imaged: &[List<bool>], set: u16, ci: u64) -> bool
    requires { first_area_set ≤ set }
    ensures { result ≡ is_imaged imaged.now set ci }
{
    let number = usize::from(set - FIRST_AREA);
    if number < imaged.len() {
        flag_at(&imaged[number], ci)
    } else {
        false
    }
}

/// Makes room for the flag of an interval.
fn grow(flags: &mut List<bool>, ci: u64) -> Result<(), AllocError>
    ensures same { (k : ℕ) → flag_at (Some flags.new) k ≡ flag_at (Some flags.old) k }
    ensures longer { length flags.old ≤ length flags.new }
    ensures room { OnOk result (ci < length flags.new) }
{
    let count = ci as usize;
    while flags.len() <= count {
        flags.push(false)?;
    }
    Ok(())
}

/// Makes room for the flag of an interval of an area. Which intervals have an item stays.
pub fn make_room(imaged: &mut Vec<List<bool>>, set: u16, ci: u64) -> Result<(), AllocError>
    requires area { first_area_set ≤ set }
    requires within { set - first_area_set < length imaged.old.items }
    ensures same { (s k : ℕ) → is_imaged imaged.new.items s k ≡ is_imaged imaged.old.items s k }
    ensures room { OnOk result (HasFlag imaged.new.items set ci) }
    ensures kept { (s k : ℕ) → HasFlag imaged.old.items s k → HasFlag imaged.new.items s k }
    ensures count { length imaged.new.items ≡ length imaged.old.items }
{
    grow(&mut imaged[usize::from(set - FIRST_AREA)], ci)
}

/// An interval of an area has an item.
#[tactic(auto, using(crate::proofs::Flags::flag_noted, crate::proofs::Flags::still_flagged))]
fn note_image(imaged: &mut Vec<List<bool>>, set: u16, ci: u64)
    requires area { first_area_set ≤ set }
    requires room { HasFlag imaged.old.items set ci }
    ensures noted { (s k : ℕ) → is_imaged imaged.new.items s k
        ≡ ((s == set && k == ci) || is_imaged imaged.old.items s k) }
    ensures room { (s k : ℕ) → HasFlag imaged.old.items s k → HasFlag imaged.new.items s k }
    ensures count { length imaged.new.items ≡ length imaged.old.items }
{
    *imaged[usize::from(set - FIRST_AREA)].item_mut(ci as usize) = true;
}

/// The interval that an item names has one.
#[tactic(auto, using(crate::proofs::Flags::all_flagged))]
fn note_item(imaged: &mut Vec<List<bool>>, item: &Item)
    requires { IsFlagged imaged.old.items item.now }
    ensures noted { AreNoted (item.now ∷ []) imaged.old.items imaged.new.items }
    ensures room { (items : ListOf ItemOf) → AreFlagged imaged.old.items items → AreFlagged imaged.new.items items }
    ensures count { length imaged.new.items ≡ length imaged.old.items }
{
    match item {
        Item::Segment { .. } => {}
        Item::Image { set, ci, .. } => note_image(imaged, *set, *ci),
        Item::Range { set, ci, .. } => note_image(imaged, *set, *ci),
    }
}

/// The intervals that these items name have one.
pub fn note_all(imaged: &mut Vec<List<bool>>, items: &[Item])
    requires { AreFlagged imaged.old.items items.now }
    ensures noted { AreNoted items.now imaged.old.items imaged.new.items }
    ensures count { length imaged.new.items ≡ length imaged.old.items }
{
    for item in items {
        note_item(imaged, item);
    }
}

/// No interval has an item.
pub fn clear(imaged: &mut Vec<List<bool>>)
    ensures none { (set ci : ℕ) → is_imaged imaged.new.items set ci ≡ false }
    ensures count { length imaged.new.items ≡ length imaged.old.items }
{
    for number in 0..imaged.len() {
        let none = imaged[number].empty_like();
        imaged[number] = none;
    }
}
