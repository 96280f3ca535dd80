//! What a program knows: its variables, and what its calls were answered.
ghost use Rattle.std.specs.Prelude.{◌≡◌, [], OnErr, OnOk, List};
ghost use Rattle.fp_model.specs.declared.calls.Answer.{Answer};
ghost use Rattle.fp_model.specs.declared.definitions.Defs.{Defs};
ghost use Rattle.fp_model.specs.Operands.{at_top, setting_of, with_setting};
ghost use Rattle.fp_model.specs.Texts.{same_text, trimmed};
ghost use Rattle.txn_machine.specs.inside.Alike.{AreAlike, AreTwins};
ghost use Rattle.txn_machine.specs.Fit.{AreShown, IsShownSegment};
ghost use Rattle.txn_machine.specs.inside.Fit.{FitsLesson};
ghost use Rattle.txn_machine.specs.Knowing.{HasPlace, env_of, segment_on, segments_of};
ghost use Rattle.txn_machine.specs.inside.Knowing.{showing, taught};

use crate::shown::{Gets, Shown};
use fp_model::{Answer, Bytes, Name};
use std::alloc::{AllocError, Global};
use std::collections::BTreeMap;

/// What the answer to a call is good for, beside its status.
#[derive(Clone, Copy)]
pub(crate) enum Lesson {
    /// A segment of a database.
    Segment(u8),
    /// The letters of a field call.
    Letters,
    Nothing,
}

/// What a program knows.
#[derive(Drop)]
pub(crate) struct Known {
    pub(crate) alloc: Global,
    /// The variables that were set.
    pub(crate) settings: BTreeMap<Name, Bytes>,
    /// The status of the last call. None before the first.
    pub(crate) status: Option<[u8; 2]>,
    /// The letters of the last field call.
    pub(crate) letters: Bytes,
    /// The segments that were shown. None before the first.
    pub(crate) gets: Option<Gets>,
}

// Whether a status says that all is well.
fn is_blank(status: &[u8; 2]) -> bool
    ensures { result ≡ same_text (trimmed status.now) [] }
{
    let [first, second] = status;
    *first == b' ' && *second == b' '
}

impl Known {
    /// At the beginning. Takes no memory.
    pub(crate) fn new(alloc: Global) -> Known
        ensures { (answers : List Answer) → env_of result answers ≡ at_top answers }
    {
        Known {
            alloc,
            settings: BTreeMap::new(alloc),
            status: None,
            letters: Bytes::new(alloc),
            gets: None,
        }
    }

    /// The text of a variable; one that was not set is empty.
    pub(crate) fn setting(&self, name: &Name) -> &[u8]
        ensures { result.now ≡ setting_of name.now.0 (env_of self.now []) }
    {
        match self.settings.get(name) {
            Some(text) => text.as_slice(),
            None => &[],
        }
    }

    /// Sets a variable. After want of memory all is as before.
    pub(crate) fn set(&mut self, name: Name, text: Bytes) -> Result<(), AllocError>
        ensures ok { (answers : List Answer) → OnOk result
            (AreAlike (with_setting name.0 text (env_of self.old answers)) (env_of self.new answers)) }
        ensures err { (answers : List Answer) → OnErr result (env_of self.new answers ≡ env_of self.old answers) }
        ensures gets { self.new.gets ≡ self.old.gets }
    {
        let _ = self.settings.insert(name, text)?;
        Ok(())
    }

    /// Makes room for what a get may show. Nothing else changes.
    pub(crate) fn make_place(&mut self) -> Result<(), AllocError>
        ensures place { OnOk result (HasPlace self.new.gets) }
        ensures same { (answers : List Answer) → env_of self.new answers ≡ env_of self.old answers }
        ensures shown { segments_of self.new.gets ≡ segments_of self.old.gets }
    {
        if let Some(gets) = &mut self.gets {
            gets.make_place()?;
        }
        Ok(())
    }

    // A segment that a get on a database showed. Takes no memory.
    fn show(&mut self, db: u8, shown: Shown)
        requires { HasPlace self.old.gets }
        ensures shows { (answers : List Answer) → AreTwins (showing (segment_on db shown) (env_of self.old answers))
            (env_of self.new answers) }
        ensures fit { (defs : Defs) → AreShown defs self.old.gets → IsShownSegment defs (segment_on db shown)
            → AreShown defs self.new.gets }
    {
        let gets = Gets::show(self.gets.take(), self.alloc, db, shown);
        self.gets = Some(gets);
    }

    /// Takes in the answer to a call. Takes no memory.
    pub(crate) fn learn(&mut self, lesson: Lesson, answer: Answer)
        requires { HasPlace self.old.gets }
        ensures learns { (answers : List Answer)
            → AreTwins (taught lesson answer (record (env_of self.old answers) { status = answer.status }))
            (env_of self.new answers) }
        ensures fit { (defs : Defs) → AreShown defs self.old.gets → FitsLesson defs lesson answer
            → AreShown defs self.new.gets }
    {
        let Answer {
            status,
            segment,
            bytes,
            letters,
        } = answer;
        let found = is_blank(&status);
        self.status = Some(status);
        match lesson {
            Lesson::Segment(db) if found => self.show(db, Shown { segment, bytes }),
            Lesson::Letters => self.letters = letters,
            _ => {}
        }
    }
}
