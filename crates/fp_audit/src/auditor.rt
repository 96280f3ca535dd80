//! The auditor: one entry of the log after another.
ghost use Rattle.fp_exits.specs.Kinds.{kinds_of};
ghost use Rattle.fp_model.specs.History.{History, beginning};
ghost use Rattle.fp_model.specs.Product.{rules_of};
ghost use Rattle.fp_model.specs.State.{start};
ghost use Rattle.fp_audit.specs.Setup.{CanAudit, AreSpread};
ghost use Rattle.std.specs.Prelude.{◌≡◌, IfOk, IsErr, Ok, OnErr, false, true};

use crate::loading::first_pasts;
use crate::requests::Requests;
use crate::so_far::SoFar;
use crate::verdict::Verdict;
use fp_exits::Exits;
use fp_model::{Defs, Entry};
use past_anchors::Anchors;
use std::alloc::{AllocError, Global};
use std::marker::Model;
use txn_lang::Scripts;

/// Reads the entries of a log from its front, one after another, and says of each whether it is legal behind those
/// before it. Contracts see an `Audit`, which stands at the history that the entries make (`IsAt`).
#[derive(Drop)]
pub struct Auditor<'a> {
    so_far: SoFar<'a>,
    verdict: Verdict,
}

impl<'a> Model for Auditor<'a> {
    ghost use Rattle.fp_audit.specs.Audit.{Audit};
    ghost use Rattle.fp_audit.specs.Setup.{CanAudit, AreReady, IfLegal};
    ghost use Rattle.fp_model.specs.contracts.database.Node as node;
    ghost use Rattle.fp_model.specs.contracts.scripts.Statement as statement;
    ghost use Rattle.std.specs.Coded.{codes};

    ghost Value = { Audit };

    ghost coded = { Prim.hlevel (codes, statement.the_row.coded, node.the_row.coded) };

    ghost view = { λ a. record {
      defs = a.so_far.defs.now;
      scripts = a.so_far.scripts.now.scripts;
      format = a.so_far.requests.format;
      lasts = a.so_far.requests.lasts.entries;
      place = a.so_far.place;
      pasts = a.so_far.pasts.items;
      dedbs = a.so_far.anchors;
      verdict = a.verdict;
    } };

    ghost invariant = { λ a. CanAudit a.so_far.defs.now a.so_far.scripts.now.scripts
        × IfLegal a.verdict (AreReady a.so_far.defs.now a.so_far.place a.so_far.pasts.items a.so_far.anchors) };
}

impl<'a> Auditor<'a> {
    ghost use Rattle.fp_audit.specs.Standing.{ComesNever, HasStopped, IsAt, IsSpent, StandsBehind, rules_in};

    /// Before the first entry of a log whose front has this format. It fails only for want of memory.
    ///
    /// Condition: definitions that were read, and scripts that were read under them.
    pub fn new(
        alloc: Global,
        defs: &'a Defs,
        scripts: &'a Scripts,
        format: u8,
    ) -> Result<Auditor<'a>, AllocError>
        requires can { CanAudit defs.now scripts.now.scripts }

        // It stands where no entry came, by the rules of these.
        ensures begins { IfOk result (λ auditor. IsAt auditor (beginning format (start defs.now))) }
        ensures rules { IfOk result (λ auditor. rules_in auditor ≡ rules_of defs.now scripts.now.scripts) }
        ensures defs { IfOk result (λ auditor. auditor.defs ≡ defs.now) }
    {
        Ok(Auditor {
            so_far: SoFar {
                alloc,
                defs,
                scripts,
                requests: Requests::new(alloc, format),
                place: 0,
                pasts: first_pasts(alloc, defs)?,
                anchors: Anchors::new(alloc, defs)?,
            },
            verdict: Verdict::Legal,
        })
    }

    /// Whether the entry is legal behind those before it. Behind one that isn't it answers false for good. It fails
    /// only for want of memory, and then for good. The exits spread the keys of data entry databases.
    ///
    /// Condition: the exits that the definitions name.
    pub fn next(&mut self, exits: &Exits, e: &Entry) -> Result<bool, AllocError>
        requires spread { AreSpread self.old.defs (kinds_of exits.now) }

        // True comes where the entry may come, and false exactly where it may not.
        ensures legal { (h : History) → IsAt self.old h
            → IfOk result (λ legal. legal ≡ true → StandsBehind self.new e.now h) }
        ensures illegal { (h : History) → IsAt self.old h
            → IfOk result (λ legal. legal ≡ false → ComesNever (rules_in self.old) h e.now) }

        // How it goes on behind an entry that isn't legal, and behind want of memory.
        ensures stops { IfOk result (λ legal. legal ≡ false → HasStopped self.new) }
        ensures for_good { HasStopped self.old → result ≡ Ok false }
        ensures spends { OnErr result (IsSpent self.new) }
        ensures spent { IsSpent self.old → IsErr result }

        // The rules stay, and the definitions.
        ensures rules { rules_in self.new ≡ rules_in self.old }
        ensures defs { self.new.defs ≡ self.old.defs }
    {
        match self.verdict {
            Verdict::Legal => {}
            Verdict::Illegal => return Ok(false),
            Verdict::Spent => return Err(AllocError),
        }
        match self.so_far.take(exits, e) {
            Ok(true) => Ok(true),
            Ok(false) => {
                self.verdict = Verdict::Illegal;
                Ok(false)
            }
            Err(error) => {
                self.verdict = Verdict::Spent;
                Err(error)
            }
        }
    }
}
