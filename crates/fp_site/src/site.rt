//! The storage that everything else writes to, and the output that it sends to.
ghost use Rattle.std.specs.Prelude.{◌≡◌, ◌+◌, ◌≤◌, ◌^◌, ◌++◌, ℕ, IfOk, OnErr, OnOk, length, take};
ghost use Rattle.fp_site.specs.Disk.{Disk, written, read_range, Broken, IsDurable, Tears, Syncs, Sends, Elapses, Stays, Leaves, IsLawful};
ghost use Rattle.fp_site.specs.Site.{ReadsNothing};
ghost use Rattle.fp_lists.specs.Continued.{IsContinued};
ghost use Rattle.fp_lists.specs.Faults.{Counts};

/// A call that failed. It comes only where the site's count of faults rose in that call, or stands at its last
/// value, 2^64 - 1.
#[derive(Clone, Copy, Debug, PartialEq, Eq)]
pub struct Failed;

/// Data sets, numbered from 0, and an output. Data set 0 is the log, 1 and 2 are the checkpoints, 3 and on the
/// areas. A data set that was never written has no bytes; none ends past 2^62.
///
/// # The disk model
///
/// Between two syncs of a data set that answered Ok, a crash may leave any bytes in each range written and past the
/// length at the last sync, and any length between that length and the end of the longest write. The other bytes
/// stay. After a sync that answered Ok, a crash leaves what a read gives. Of the bytes sent, a crash between calls
/// leaves all, and one within a `send` a prefix of its text.
///
/// # What contracts say
///
/// A site that is `told` says in `disk` what its data sets hold and what a crash now, or at some moment since an
/// earlier one, may leave. Each call says how the new disk follows from the old one, so that a site in memory, one
/// over another site and one that keeps copies meet the same contract. A site over files is not told, and its
/// calls promise only that they end and that a fault is counted.
pub trait Site {
    /// Whether it tells what its data sets hold and what a crash may leave. Once told, it stays so.
    ghost told: { Self → Type 0 };

    /// What it tells.
    ghost disk: { Self → Disk };

    /// Whether the number of bytes read of a data set is told. Once it is not, it stays so.
    ghost tells_reads: { Self → ℕ → Type 0 };

    /// The number of bytes read of a data set.
    ghost bytes_read: { Self → ℕ → ℕ };

    /// How often a call has failed.
    ghost faults: { Self → ℕ };

    /// The name of the reference that it holds, if it holds one. It stays.
    ghost holds: { Self → ℕ };

    /// What is known of a site since it was the first one, beyond what it tells. Every call keeps it.
    ghost keeps: { Self → Self → Type 0 };

    /// The length of a data set, in bytes.
    fn size(&mut self, set: u16) -> Result<u64, Failed>
        ensures value { told self.old → IfOk result (λ n. n ≡ length ((disk self.old).contents set)) }
        ensures bound { IfOk result (λ n. n ≤ 2 ^ 62) }
        ensures cause { Counts (faults self.old) (faults self.new) result }

        // Nothing changes, and nothing is read.
        ensures stays { told self.old → Stays (disk self.old) (disk self.new) }
        ensures reads { ReadsNothing (tells_reads self.old) (tells_reads self.new) (bytes_read self.old)
            (bytes_read self.new) }
        ensures site { IsContinued told faults holds keeps self.old self.new };

    /// Asks whether a data set may grow to `end` bytes. Nothing changes.
    fn reach(&mut self, set: u16, end: u64) -> Result<(), Failed>
        requires { end ≤ 2 ^ 62 }
        ensures cause { Counts (faults self.old) (faults self.new) result }
        ensures stays { told self.old → Stays (disk self.old) (disk self.new) }
        ensures reads { ReadsNothing (tells_reads self.old) (tells_reads self.new) (bytes_read self.old)
            (bytes_read self.new) }
        ensures site { IsContinued told faults holds keeps self.old self.new };

    /// Fills `into` with the bytes from offset `at` on. Bytes past the end read as 0. After `Failed`, `into` may
    /// hold any bytes.
    fn read_at(&mut self, set: u16, at: u64, into: &mut [u8]) -> Result<(), Failed>
        ensures value { told self.old →
            OnOk result (into.new ≡ read_range ((disk self.old).contents set) at (length into.old)) }
        ensures cause { Counts (faults self.old) (faults self.new) result }

        // The bytes read are counted. At `Failed` some of them may be.
        ensures count { tells_reads self.new set →
            OnOk result (bytes_read self.new set ≡ bytes_read self.old set + length into.old) }
        ensures at_most { tells_reads self.new set → bytes_read self.new set ≤ bytes_read self.old set + length
            into.old }
        ensures reads { (k : ℕ) → tells_reads self.new k → tells_reads self.old k }
        ensures others { (k : ℕ) → (k ≡ set → ⊥) → tells_reads self.new k
            → bytes_read self.new k ≡ bytes_read self.old k }

        // Nothing changes.
        ensures stays { told self.old → Stays (disk self.old) (disk self.new) }
        ensures site { IsContinued told faults holds keeps self.old self.new };

    /// Writes `from` at offset `at`, and lengthens the data set where needed, with zeros up to `at`. After `Failed`
    /// the range may hold any bytes.
    fn write_at(&mut self, set: u16, at: u64, from: &[u8]) -> Result<(), Failed>
        requires { at + length from.now ≤ 2 ^ 62 }
        ensures wrote { told self.old →
            OnOk result ((disk self.new).contents set ≡ written ((disk self.old).contents set) at from.now) }
        ensures broke { told self.old →
            OnErr result (Broken at (length from.now) ((disk self.old).contents set) ((disk self.new).contents set)) }
        ensures cause { Counts (faults self.old) (faults self.new) result }

        // No other data set changes, and nothing is sent.
        ensures leaves { told self.old → Leaves set (disk self.old) (disk self.new) }
        ensures reads { ReadsNothing (tells_reads self.old) (tells_reads self.new) (bytes_read self.old)
            (bytes_read self.new) }
        ensures site { IsContinued told faults holds keeps self.old self.new }

        // A crash at any moment of the call leaves of this data set an earlier image with the range torn.
        ensures crash { told self.old →
            Elapses (disk self.old) (disk self.new) (Tears (disk self.old) set at (length from.now)) };

    /// Makes the data set durable: after Ok, every crash leaves what a read gives.
    fn sync(&mut self, set: u16) -> Result<(), Failed>
        ensures durable { told self.old → OnOk result (IsDurable (disk self.new) set) }
        ensures same { told self.old → (disk self.new).contents set ≡ (disk self.old).contents set }
        ensures cause { Counts (faults self.old) (faults self.new) result }

        // No other data set changes, and nothing is sent.
        ensures leaves { told self.old → Leaves set (disk self.old) (disk self.new) }
        ensures reads { ReadsNothing (tells_reads self.old) (tells_reads self.new) (bytes_read self.old)
            (bytes_read self.new) }
        ensures site { IsContinued told faults holds keeps self.old self.new }

        // A crash at any moment of the call leaves this data set alike where all earlier images were alike.
        ensures crash { told self.old → Elapses (disk self.old) (disk self.new) (Syncs (disk self.old) set) };

    /// Appends `text` to the bytes sent. After `Failed` a prefix of it is appended.
    fn send(&mut self, text: &[u8]) -> Result<(), Failed>
        ensures sent { told self.old → OnOk result ((disk self.new).sent ≡ (disk self.old).sent ++ text.now) }
        ensures part { told self.old →
            OnErr result ((n : ℕ) × ((disk self.new).sent ≡ (disk self.old).sent ++ take n text.now)) }
        ensures cause { Counts (faults self.old) (faults self.new) result }

        // No data set changes.
        ensures same { told self.old → (disk self.new).contents ≡ (disk self.old).contents }
        ensures reads { ReadsNothing (tells_reads self.old) (tells_reads self.new) (bytes_read self.old)
            (bytes_read self.new) }
        ensures site { IsContinued told faults holds keeps self.old self.new }

        // A crash at any moment of the call leaves a prefix of the text sent.
        ensures crash { told self.old → Elapses (disk self.old) (disk self.new) (Sends (disk self.old) text.now) };

    /// A site keeps what is known of it, seen from itself,
    ghost keeps_itself: { (site : Self) → keeps site site };

    /// and what one stretch of calls keeps, the next keeps too.
    ghost keeps_on: { (a b c : Self) → keeps a b → keeps b c → keeps a c };

    /// What holds of each disk that is told.
    ghost lawful: { (site : Self) → told site → IsLawful (disk site) };
}
