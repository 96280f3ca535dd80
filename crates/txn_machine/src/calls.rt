//! Calls: what the statements that make them ask.
ghost use Rattle.std.specs.Prelude.{◌≡◌, ◌<◌, ◌≤◌, [], List, IfErr, IfOk, MatchOption, None, OnOk, Some, length, option_map};
ghost use Rattle.std.specs.List.{AllByRecursion};
ghost use Rattle.fp_model.specs.declared.calls.Call.TheVariants as call;
ghost use Rattle.fp_model.specs.declared.calls.Message.{Message as MessageOf};
ghost use Rattle.fp_model.specs.declared.definitions.Defs.{Defs};
ghost use Rattle.fp_model.specs.Fsas.{Fsa as Argument, IsFsa, list_text};
ghost use Rattle.fp_model.specs.Operands.{filled, fsas_given, fld_call, get_call, isrt_call, new_type, repl_call, shown_on, ssa_of, ssas_of};
ghost use Rattle.fp_model.specs.Values.{layout_of};
ghost use Rattle.fld_calls.specs.Forms.{lent_form_of};
ghost use Rattle.txn_values.specs.Giving.{Gives};
ghost use Rattle.txn_values.specs.inside.Giving.{PutsIn};
ghost use Rattle.txn_machine.specs.inside.Filling.{fsa_given, with_fsa_text, with_value};
ghost use Rattle.txn_machine.specs.Knowing.{env_of, segment_on};

use crate::known::Known;
use crate::shown::Shown;
use fld_calls::{LentFsa, append_fsa};
use fp_model::{
    Bytes, Call, Defs, FieldDef, FieldText, FsaText, Get, List, Message, Name, Operand, Ssa,
    SsaText,
};
use txn_values::{Layout, Stop, empty_segment, field_of, fill_field, layout_of};

// Room for the bytes of a field search argument; one with a long operand takes more.
const FSA_ROOM: usize = 32;

// The number of the type that the last argument names; 0 where there is none.
fn new_type(ssas: &[SsaText]) -> u8
    ensures { (defs : Defs) (message : MessageOf) → result ≡ new_type defs message ssas.now }
{
    match ssas {
        [.., last] => last.segment,
        [] => 0,
    }
}

// The segment type that an insert names.
fn new_layout<'a>(defs: &'a Defs, db: u8, ssas: &[SsaText]) -> Result<Layout<'a>, Stop>
    ensures ok { (message : MessageOf) → IfOk result
        (λ layout. layout_of defs.now db (new_type defs.now message ssas.now)
        ≡ Some (record { fields = layout.fields.now; has_key = layout.has_key })) }
    ensures none { (message : MessageOf)
        → IfErr result (λ e. layout_of defs.now db (new_type defs.now message ssas.now) ≡ None) }
{
    layout_of(defs, db, new_type(ssas))
}

// A field search argument that has no answer yet.
fn unanswered(field: Name, op: u8, operand: &[u8]) -> LentFsa<'_>
    requires { length operand.now ≤ 1024 }
    ensures form { lent_form_of result ≡ record { field = field.0; status = 32; op = op; operand = operand.now } }
    ensures short { length result.operand.now < 65536 }
    ensures spelled { IsFsa (lent_form_of result) }
{
    LentFsa {
        field,
        status: b' ',
        op,
        operand,
    }
}

impl Known {
    // A segment search argument with its key worked out.
    fn ssa_of(&self, defs: &Defs, message: &Message, db: u8, ssa: &SsaText) -> Result<Ssa, Stop>
        ensures { Gives result (ssa_of defs.now message.now (env_of self.now []) db ssa.now) }
    {
        let key = match &ssa.key {
            Some(operand) => Some(self.key_text(defs, message, db, ssa.segment, operand)?),
            None => None,
        };
        Ok(Ssa {
            segment: ssa.segment,
            key,
        })
    }

    // Segment search arguments with their keys.
    fn ssas_of(
        &self,
        defs: &Defs,
        message: &Message,
        db: u8,
        ssas: &[SsaText],
    ) -> Result<List<Ssa>, Stop>
        ensures { Gives result (ssas_of defs.now message.now (env_of self.now []) db ssas.now) }
    {
        let mut found = List::new(self.alloc);
        for ssa in ssas {
            found.push(self.ssa_of(defs, message, db, ssa)?)?;
        }
        Ok(found)
    }

    // Adds a field search argument, with its operand worked out, to the bytes of a list.
    fn append_given(
        &self,
        defs: &Defs,
        message: &Message,
        fsa: &FsaText,
        last: bool,
        text: &mut Bytes,
    ) -> Result<(), Stop>
        ensures gives { PutsIn result text.new (option_map (with_fsa_text last text.old)
            (fsa_given defs.now message.now (env_of self.now []) fsa.now)) }
        ensures spelled { OnOk result ((given : Argument)
            → fsa_given defs.now message.now (env_of self.now []) fsa.now ≡ Some given → IsFsa given) }
    {
        let operand = self.text_of(defs, message, &fsa.operand)?;
        let given = unanswered(fsa.field, fsa.op, operand.as_slice());
        append_fsa(text, &given, last)?;
        Ok(())
    }

    // The bytes of field search arguments with their operands.
    fn fsa_texts(&self, defs: &Defs, message: &Message, fsas: &[FsaText]) -> Result<Bytes, Stop>
        ensures gives { Gives result (option_map list_text
            (fsas_given defs.now message.now (env_of self.now []) fsas.now)) }
        ensures spelled { OnOk result ((list : List Argument)
            → fsas_given defs.now message.now (env_of self.now []) fsas.now ≡ Some list
            → AllByRecursion IsFsa list) }
    {
        let mut text = Bytes::with_capacity(self.alloc, fsas.len().saturating_mul(FSA_ROOM))?;
        let mut left = fsas.len();
        for fsa in fsas {
            left -= 1;
            self.append_given(defs, message, fsa, left == 0, &mut text)?;
        }
        Ok(text)
    }

    // A segment with one value put into its field.
    fn with_value(
        &self,
        defs: &Defs,
        message: &Message,
        fields: &[FieldDef],
        value: &FieldText,
        segment: Bytes,
    ) -> Result<Bytes, Stop>
        ensures { Gives result (with_value defs.now message.now (env_of self.now []) fields.now value.now
            segment) }
    {
        let field = field_of(fields, &value.field)?;
        let text = self.text_of(defs, message, &value.value)?;
        fill_field(self.alloc, &field, text.as_slice(), segment)
    }

    // A segment with values put into its fields.
    #[tactic(auto, using(crate::proofs::FilledLemmas::filled_none, crate::proofs::FilledLemmas::filled_more))]
    fn filled(
        &self,
        defs: &Defs,
        message: &Message,
        fields: &[FieldDef],
        values: &[FieldText],
        segment: Bytes,
    ) -> Result<Bytes, Stop>
        ensures { Gives result (filled defs.now message.now (env_of self.now []) fields.now values.now segment) }
    {
        let mut segment = segment;
        for value in values {
            segment = self.with_value(defs, message, fields, value, segment)?;
        }
        Ok(segment)
    }

    /// A get.
    pub(crate) fn get_call(
        &self,
        defs: &Defs,
        message: &Message,
        get: Get,
        hold: bool,
        db: u8,
        ssas: &List<SsaText>,
    ) -> Result<Call, Stop>
        ensures { Gives result (get_call defs.now message.now (env_of self.now []) (call.Get get hold db) db
            ssas.now) }
    {
        let ssas = self.ssas_of(defs, message, db, ssas.as_slice())?;
        Ok(Call::Get {
            get,
            hold,
            db,
            ssas,
        })
    }

    /// A field call.
    pub(crate) fn fld_call(
        &self,
        defs: &Defs,
        message: &Message,
        db: u8,
        key: &Operand,
        fsas: &List<FsaText>,
    ) -> Result<Call, Stop>
        ensures gives { Gives result (fld_call defs.now message.now (env_of self.now []) db key.now fsas.now) }
        ensures spelled { IfOk result (λ asked. (list : List Argument)
            → fsas_given defs.now message.now (env_of self.now []) fsas.now ≡ Some list
            → AllByRecursion IsFsa list) }
    {
        let key = self.key_text(defs, message, db, 0, key)?;
        let fsas = self.fsa_texts(defs, message, fsas.as_slice())?;
        Ok(Call::Fld { db, key, fsas })
    }

    /// An insert.
    pub(crate) fn isrt_call(
        &self,
        defs: &Defs,
        message: &Message,
        db: u8,
        ssas: &List<SsaText>,
        fields: &List<FieldText>,
    ) -> Result<Call, Stop>
        ensures { Gives result (isrt_call defs.now message.now (env_of self.now []) db ssas.now fields.now) }
    {
        let found = self.ssas_of(defs, message, db, ssas.as_slice())?;
        let layout = new_layout(defs, db, ssas.as_slice())?;
        let segment = empty_segment(self.alloc, layout.fields)?;
        let bytes = self.filled(defs, message, layout.fields, fields.as_slice(), segment)?;
        Ok(Call::Isrt {
            db,
            ssas: found,
            bytes,
        })
    }

    /// A replacement.
    pub(crate) fn repl_call(
        &self,
        defs: &Defs,
        message: &Message,
        db: u8,
        fields: &List<FieldText>,
    ) -> Result<Call, Stop>
        ensures { Gives result (repl_call defs.now message.now (env_of self.now []) db fields.now) }
    {
        let Some(shown) = self.shown_on(db) else {
            return Err(Stop::NoValue);
        };
        let layout = layout_of(defs, db, shown.segment)?;
        let bytes = shown.bytes.copy()?;
        let bytes = self.filled(defs, message, layout.fields, fields.as_slice(), bytes)?;
        Ok(Call::Repl { db, bytes })
    }

    // The segment that the last successful get on a database showed.
    fn shown_on(&self, db: u8) -> Option<&Shown>
        ensures { MatchOption result (shown_on db (env_of self.now []) ≡ None)
            (λ shown. shown_on db (env_of self.now []) ≡ Some (segment_on db shown.now)) }
    {
        match &self.gets {
            Some(gets) => gets.on(db),
            None => None,
        }
    }
}
