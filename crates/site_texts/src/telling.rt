//! A text that is sent in large parts, however small the pieces are that it is made of.
ghost use Rattle.fp_lists.specs.Continued.{IsContinued};
ghost use Rattle.fp_site.specs.Disk.{Disk};
ghost use Rattle.fp_site.specs.Site.{ReadsNothing};
ghost use Rattle.fp_lists.specs.Faults.{Counts};
ghost use Rattle.site_texts.specs.Sent.{HasSent, HasSentPart};
ghost use Rattle.site_texts.specs.inside.Sent.{IsTold};
ghost use Rattle.std.specs.Prelude.{◌≡◌, ◌≤◌, ◌++◌, ℕ, [], OnOk};

use fp_model::Bytes;
use fp_site::{Failed, Site};
use std::alloc::Global;

// How many bytes are held back before they are sent.
const PART: usize = 65_536;

// Sends what is held back.
pub(crate) fn send_held<T: Site>(
    alloc: Global,
    site: &mut T,
    held: &mut Bytes,
) -> Result<(), Failed>
    ensures sent { T.told site.old → OnOk result (HasSent (T.disk site.old) (T.disk site.new) held.old) }
    ensures part { T.told site.old → HasSentPart (T.disk site.old) (T.disk site.new) held.old }
    ensures held { OnOk result (held.new ≡ []) }
    ensures cause { Counts (T.faults site.old) (T.faults site.new) result }
    ensures reads { ReadsNothing (T.tells_reads site.old) (T.tells_reads site.new) (T.bytes_read site.old)
        (T.bytes_read site.new) }
    ensures site { IsContinued T.told T.faults T.holds T.keeps site.old site.new }
{
    site.send(held.as_slice())?;
    *held = Bytes::new(alloc);
    Ok(())
}

// Sends what is held back, where it is a large part.
pub(crate) fn send_large<T: Site>(
    alloc: Global,
    site: &mut T,
    held: &mut Bytes,
) -> Result<(), Failed>
    ensures told_all { T.told site.old
        → OnOk result (IsTold (T.disk site.old) (T.disk site.new) held.old held.new []) }
    ensures part { T.told site.old → HasSentPart (T.disk site.old) (T.disk site.new) held.old }
    ensures cause { Counts (T.faults site.old) (T.faults site.new) result }
    ensures reads { ReadsNothing (T.tells_reads site.old) (T.tells_reads site.new) (T.bytes_read site.old)
        (T.bytes_read site.new) }
    ensures site { IsContinued T.told T.faults T.holds T.keeps site.old site.new }
{
    if held.len() < PART {
        return Ok(());
    }
    send_held(alloc, site, held)
}
