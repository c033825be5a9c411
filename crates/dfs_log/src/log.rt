ghost use Rattle.std.specs.Prelude.{◌≡◌, ◌≤◌, ◌^◌, ◌↔◌, ◌<◌, ◌+◌, ◌++◌, ℕ, length, take, true, IsFalse, IsTrue, IsErrOf, IfOk, OnOk, OnErr};
ghost use Rattle.dfs_host.specs.Disk.{IsSettled};
ghost use Rattle.dfs_host.specs.Fault.{HasFaultCause};
ghost use Rattle.dfs_host.specs.Host.{Told, bytes_of, Only, HasDiskCause};
ghost use Rattle.dfs_log.specs.Logs.{IsLog, LogStands, begun, log_header};

use dfs_host::{Failed, Fault, Host};
use std::marker::Model;

/// The writer of a job's log, seen as the log's file, length and limit, whether the writer is spent, and the size of the piece
/// that it last refused. A spent writer appends no more.
#[derive(Drop)]
pub struct LogWriter {
    file: u32,
    len: u64,
    limit: u64,
    spent: bool,
    refused: u64,
}

impl Model for LogWriter {
    ghost use Rattle.dfs_log.specs.Logs.{LogState, IsLog};

    ghost Value = { LogState };

    ghost view = { λ log. record { file = log.file; len = log.len; limit = log.limit; spent = log.spent; refused = log.refused } };

    ghost invariant = { λ log. IsLog (record { file = log.file; len = log.len; limit = log.limit; spent = log.spent; refused = log.refused }) };
}

const HEADER_LEN: u64 = 12;

// The header of a job's log.
fn header(job: u32) -> [u8; 12]
    ensures { result ≡ log_header job }
{
    let mut header = *b"DFSLOG01\0\0\0\0";
    header[8..].copy_from_slice(&job.to_be_bytes());
    header
}

impl LogWriter {
    /// Begins the log of a job anew, in the file of the job's number: 12 bytes and nothing else. `limit` is the greatest length
    /// in bytes that the log may have.
    pub fn start<H: Host>(host: &mut H, job: u32, limit: u64) -> Result<LogWriter, Failed>
        requires job { 1 ≤ job }
        requires least { 4096 ≤ limit }
        requires greatest { limit ≤ 2 ^ 63 }

        ensures log { IfOk result (λ log. log ≡ begun job limit) }
        ensures stands { Told (H.state host.old) (IfOk result (λ log. LogStands (H.state host.new) log)) }
        ensures bytes { Told (H.state host.old) (OnOk result (bytes_of (H.state host.new) job ≡ log_header job)) }
        ensures only { Only job (H.state host.old) (H.state host.new) }
        ensures cause { HasDiskCause (H.state host.old) (H.state host.new) result }
        ensures reads { (H.state host.new).reads ≡ (H.state host.old).reads }
        ensures sound { IfOk result IsLog }
    {
        host.cut(job, 0)?;
        host.write_at(job, 0, &header(job))?;
        Ok(LogWriter {
            file: job,
            len: HEADER_LEN,
            limit,
            spent: false,
            refused: 0,
        })
    }

    /// The file of the log, which is the number of its job.
    pub fn file(&self) -> u32
        ensures file { result ≡ self.now.file }
        ensures sound { IsLog self.now }
    {
        self.file
    }

    /// How many bytes the log has.
    pub fn len(&self) -> u64
        ensures len { result ≡ self.now.len }
        ensures sound { IsLog self.now }
    {
        self.len
    }

    /// Appends the bytes, and answers their place. It answers `LogFull` or `Disk` alone, and after either the writer is spent.
    pub fn append<H: Host>(&mut self, host: &mut H, bytes: &[u8]) -> Result<u64, Fault>
        requires live { IsFalse self.old.spent }
        requires stands { Told (H.state host.old) (LogStands (H.state host.old) self.old) }

        ensures place { IfOk result (λ at. at ≡ self.old.len) }
        ensures longer { OnOk result (self.new ≡ record self.old { len = self.old.len + length bytes.now }) }
        ensures stands { Told (H.state host.old) (OnOk result (LogStands (H.state host.new) self.new)) }
        ensures appended { Told (H.state host.old) (OnOk result (bytes_of (H.state host.new) self.old.file ≡ bytes_of (H.state host.old) self.old.file ++ bytes.now)) }

        // What stood before stays, also where the write failed.
        ensures before { Told (H.state host.old) (take self.old.len (bytes_of (H.state host.new) self.old.file) ≡ bytes_of (H.state host.old) self.old.file) }

        ensures full { IsErrOf result Fault.LogFull ↔ (self.old.limit < self.old.len + length bytes.now) }
        ensures fits { OnOk result (self.old.len + length bytes.now ≤ self.old.limit) }
        ensures nothing_written { IsErrOf result Fault.LogFull → H.state host.new ≡ H.state host.old }
        ensures never_memory { IsErrOf result Fault.NoMemory → ⊥ }
        ensures never_changed { (file at : ℕ) → IsErrOf result (Fault.Changed file at) → ⊥ }
        ensures only { Only self.old.file (H.state host.old) (H.state host.new) }
        ensures cause { HasFaultCause (H.state host.old) (H.state host.new) result }
        ensures reads { (H.state host.new).reads ≡ (H.state host.old).reads }

        // After a refusal the writer is spent and has the piece's size; after a failed write it is spent.
        ensures refused { IsErrOf result Fault.LogFull → self.new ≡ record self.old { spent = true; refused = length bytes.now } }
        ensures failed { IsErrOf result Fault.Disk → self.new ≡ record self.old { spent = true } }
        ensures none_refused { (IsErrOf result Fault.LogFull → ⊥) → self.new.refused ≡ 0 }
        ensures live { OnOk result (IsFalse self.new.spent) }
        ensures spent { OnErr result (IsTrue self.new.spent) }
        ensures same { (self.new.file ≡ self.old.file) × (self.new.limit ≡ self.old.limit) }
        ensures sound { IsLog self.new }
    {
        let at = self.len;
        if bytes.len() as u64 > self.limit - at {
            self.spent = true;
            self.refused = bytes.len() as u64;
            return Err(Fault::LogFull);
        }
        match host.write_at(self.file, at, bytes) {
            Ok(()) => {
                self.len += bytes.len() as u64;
                Ok(at)
            }
            Err(_) => {
                self.spent = true;
                Err(Fault::Disk)
            }
        }
    }

    /// Ends the writer, for a caller that stopped short of what it was to append.
    pub fn spend(&mut self)
        ensures spent { self.new ≡ record self.old { spent = true } }
        ensures sound { IsLog self.new }
    {
        self.spent = true;
    }

    /// Settles the log: what it has survives a crash. After `Failed` the writer is spent.
    pub fn seal<H: Host>(&mut self, host: &mut H) -> Result<(), Failed>
        requires live { IsFalse self.old.spent }
        requires stands { Told (H.state host.old) (LogStands (H.state host.old) self.old) }

        ensures sealed { OnOk result (self.new ≡ self.old) }
        ensures stands { Told (H.state host.old) (OnOk result (LogStands (H.state host.new) self.new)) }
        ensures settled { Told (H.state host.old) (OnOk result (IsSettled ((H.state host.new).disk.files self.old.file))) }
        ensures bytes { Told (H.state host.old) (bytes_of (H.state host.new) self.old.file ≡ bytes_of (H.state host.old) self.old.file) }
        ensures only { Only self.old.file (H.state host.old) (H.state host.new) }
        ensures cause { HasDiskCause (H.state host.old) (H.state host.new) result }
        ensures reads { (H.state host.new).reads ≡ (H.state host.old).reads }
        ensures failed { OnErr result (self.new ≡ record self.old { spent = true }) }
        ensures sound { IsLog self.new }
    {
        match host.sync(self.file) {
            Ok(()) => Ok(()),
            Err(_) => {
                self.spent = true;
                Err(Failed)
            }
        }
    }
}
