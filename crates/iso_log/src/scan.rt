// The next record of a log, found in the bytes that are read ahead.
ghost use Rattle.std.specs.{Prelude.{◌≡◌, ◌+◌, ◌^◌, ◌≤◌, ◌<◌, None, Some, ℕ, List, drop, length, slice_index, take, IfErr, IfOk, IfSome, IsErrOf, IsTrue, OnOk}, Option.ForSome};
ghost use Rattle.iso_model.specs.Geometry.{is_valid};
ghost use Rattle.commit_gate.specs.Gate.{IsClosed, IsOpen};
ghost use Rattle.iso_format.specs.{Faults.{offset_of, test_number}, Records.{fault_of, record_window}};
ghost use Rattle.iso_log.specs.{Cause.OnlyReads, Scan.{IsDamaged, IsFirst, IsFound, IsTestBefore, StandAt}};

use crate::ahead::ReadAhead;
use crate::log_error::LogError;
use iso_disk::Disk;
use iso_format::{FormatError, read_record, record_window};
use iso_model::Geometry;

// How many bytes of a record come before its parts.
const HEAD: u32 = 20;

// The answer where a record at this place fails a test.
fn damaged(gate: u64, fault: FormatError) -> LogError
    requires { gate + offset_of fault < 2 ^ 64 }
    ensures { result ≡ LogError.Damaged (gate + offset_of fault) (test_number fault) }
{
    LogError::Damaged {
        at: gate + fault.offset(),
        cause: fault.number(),
    }
}

// Tests the record that these bytes begin with, which has `size` of them.
#[inline(always)]
fn test_front(
    ahead: &ReadAhead,
    size: u32,
    geometry: &Geometry,
    number: u64,
) -> Result<(), FormatError>
    requires head { 20 ≤ length ahead.now }
    requires opens { slice_index ahead.now 0 ≡ 1 }
    requires size { size ≡ record_window ahead.now }
    requires enough { size ≤ length ahead.now }
    ensures found { OnOk result (IsFound geometry.now number ahead.now size) }
    ensures first { OnOk result ((gate rest : ℕ) (image : List ℕ) → StandAt gate ahead.now image → length ahead.now ≤ rest → gate + rest ≤ length image
        → IsFirst geometry.now gate rest number image) }
    ensures opens { IfErr result (λ fault. (gate rest : ℕ) (image : List ℕ) → StandAt gate ahead.now image → length ahead.now ≤ rest → gate + rest ≤ length image
        → IsOpen gate image × (fault_of geometry.now number (take rest (drop gate image)) ≡ Some fault)) }
    ensures inside { IfErr result (λ fault. offset_of fault < size) }
{
    let (record, _) = ahead.as_slice().split_at(size as usize);
    match read_record(record, geometry, number) {
        Ok(_) => Ok(()),
        Err(fault) => Err(fault),
    }
}

/// Finds the record at a gate, where `rest` bytes of the log are left. It answers how many bytes it has, the gate after
/// it among them, and none where the gate is closed. It writes nothing.
///
/// # Errors
///
/// - `Damaged`: where in the image the record is wrong, and the first test that it fails.
/// - `Disk`: a call of the disk failed.
/// - `Memory`: want of memory for what is read ahead.
#[inline(always)]
pub fn find_record<D: Disk>(
    disk: &mut D,
    gate: u64,
    rest: u32,
    geometry: &Geometry,
    number: u64,
    ahead: &mut ReadAhead,
) -> Result<Option<u32>, LogError>
    requires fits { gate + rest ≤ (D.state disk.old).size }
    requires some { 1 ≤ rest }
    requires valid { IsTrue (is_valid geometry.now) }
    requires within { length ahead.old ≤ rest }
    requires ahead { ForSome (D.state disk.old).contents (StandAt gate ahead.old) }
    ensures closed { IfOk result (λ found. found ≡ None → ForSome (D.state disk.old).contents (IsClosed gate)) }
    ensures found { IfOk result (λ found. IfSome found (IsFound geometry.now number ahead.new)) }
    ensures first { IfOk result (λ found. IfSome found (λ n. ForSome (D.state disk.old).contents (IsFirst geometry.now gate rest number))) }
    ensures damaged { (at cause : ℕ) → IsErrOf result (LogError.Damaged at cause) → ForSome (D.state disk.old).contents (IsDamaged geometry.now gate rest number at cause) }
    ensures test { (at cause : ℕ) → IsErrOf result (LogError.Damaged at cause) → IsTestBefore (gate + rest) at cause }
    ensures within { length ahead.new ≤ rest }
    ensures ahead { ForSome (D.state disk.old).contents (StandAt gate ahead.new) }
    ensures reads { OnlyReads (D.state disk.old) (D.state disk.new) result }
{
    ahead.ask(disk, gate, rest.min(HEAD), rest)?;
    let bytes = ahead.as_slice();
    if bytes[0] != 1 {
        return Ok(None);
    }
    if rest < HEAD {
        return Err(damaged(gate, FormatError::Short(0)));
    }
    let window = record_window(bytes);
    if u64::from(rest) < window {
        return Err(damaged(gate, FormatError::Short(8)));
    }
    let window = window as u32;
    ahead.ask(disk, gate, window, rest)?;
    match test_front(ahead, window, geometry, number) {
        Ok(()) => Ok(Some(window)),
        Err(fault) => Err(damaged(gate, fault)),
    }
}
