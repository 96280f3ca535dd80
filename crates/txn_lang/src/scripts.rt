//! Scripts that were read, found by name.
ghost use Rattle.std.specs.Prelude.{◌≡◌, ◌∷◌, [], ◌≤◌, ◌<◌, length, map, IfOk, IfErr, Some, None, slice_get, is_some};
ghost use Rattle.std.specs.BTreeMap.{get};
ghost use Rattle.fp_model.specs.Asking.{cost, script_of};
ghost use Rattle.txn_lang.specs.Grammar.{scripts_fault};
ghost use Rattle.txn_lang.specs.inside.Building.{fault_of_script};
ghost use Rattle.txn_lang.specs.Building.{Refuses};
ghost use Rattle.txn_lang.specs.Numbers.{Indexes, name_cmp};

use crate::fault::ScriptFault;
use fp_model::{Bytes, List, Name, Script};
use std::alloc::Global;
use std::collections::BTreeMap;

// A script costs at most this much.
const DEAREST: u64 = 10_000;

// Refuses a script whose name an earlier one has, and then one that costs too much.
fn check_script(
    seen: &BTreeMap<Name, u32>,
    script: &Script,
    script_cost: u64,
) -> Result<(), ScriptFault>
    requires { script_cost ≡ cost script.now.statements }
    ensures ok { IfOk result (λ x. fault_of_script (is_some (get name_cmp seen.now script.now.name)) script.now ≡
        None) }
    ensures err { IfErr result (λ e. fault_of_script (is_some (get name_cmp seen.now script.now.name)) script.now ≡ Some
        e) }
{
    if seen.get(&script.name).is_some() {
        return Err(ScriptFault::Twice(script.name));
    }
    if script_cost > DEAREST {
        return Err(ScriptFault::TooDear(script.name, script_cost));
    }
    Ok(())
}

/// The numbers of scripts by their names, where no name comes twice and none costs too much.
pub(crate) fn number_scripts(
    alloc: Global,
    scripts: &[Script],
    costs: &[u64],
) -> Result<BTreeMap<Name, u32>, ScriptFault>
    requires costs { costs.now ≡ map (λ s. cost s.statements) scripts.now }
    requires few { length scripts.now ≤ 1000000 }
    ensures fair { IfOk result (λ m. scripts_fault [] scripts.now ≡ None) }
    ensures indexed { IfOk result (λ m. Indexes m scripts.now) }
    ensures err { IfErr result (λ e. Refuses e (scripts_fault [] scripts.now ≡ Some e)) }
{
    let mut numbers = BTreeMap::new(alloc);
    for (place, script) in scripts.iter().enumerate() {
        check_script(&numbers, script, costs[place])?;
        numbers.insert(script.name, place as u32)?;
    }
    Ok(numbers)
}

/// Scripts, with the text that they were read from.
#[derive(Drop)]
pub struct Scripts {
    text: Bytes,
    scripts: List<Script>,
    /// The number of each script by its name.
    numbers: BTreeMap<Name, u32>,
    ghost indexed: { Indexes numbers scripts },
}

impl Scripts {
    ghost use Rattle.std.specs.Prelude.{option_and_then};
    ghost use Rattle.txn_lang.specs.Numbers.{place_of};

    pub(crate) fn new(text: Bytes, scripts: List<Script>, numbers: BTreeMap<Name, u32>) -> Scripts
        requires { Indexes numbers scripts }
        ensures scripts { result.scripts ≡ scripts }
        ensures text { result.text ≡ text }
    {
        Scripts {
            text,
            scripts,
            numbers,
        }
    }

    /// The number of the script of a name, counted from 0. None exactly where no script has that name.
    pub fn find(&self, tran: &Name) -> Option<u32>
        ensures number { result ≡ place_of self.now.scripts tran.now }
        ensures script { option_and_then (slice_get self.now.scripts) result ≡ script_of self.now.scripts tran.now }
    {
        self.numbers.get(tran).copied()
    }

    /// The script of a number.
    pub fn script(&self, number: u32) -> &Script
        requires { number < length self.now.scripts }
        ensures { slice_get self.now.scripts number ≡ Some result.now }
    {
        &self.scripts.as_slice()[number as usize]
    }

    /// The text that the scripts were read from.
    pub fn text(&self) -> &[u8]
        ensures { result.now ≡ self.now.text }
    {
        self.text.as_slice()
    }
}
