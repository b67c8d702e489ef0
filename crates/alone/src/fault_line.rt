//! The line that the program prints for a fault.

ghost use Rattle.std.specs.Prelude.{◌≡◌, ◌+◌, ◌≤◌, ◌++◌, length};
ghost use Rattle.arrayvec.specs.ArrayVec.{array_vec_len};
ghost use Rattle.alone.specs.FaultLines.{IsSaid, fault_line, scenario_line};

use crate::ends::{Outlet, write_all};
use crate::fault::RunFault;
use arrayvec::ArrayVec;
use control::Fault;
use itoa::Buffer as Digits;
use session::cause_word;

/// The number of bytes that suffices for the line of any fault.
const LONGEST: usize = 64;

type Line = ArrayVec<u8, LONGEST>;

// Appends bytes, for which there must be space.
fn append(line: &mut Line, bytes: &[u8])
    requires { array_vec_len line.old + length bytes.now ≤ 64 }
    ensures items { line.new.items ≡ line.old.items ++ bytes.now }
    ensures len { array_vec_len line.new ≡ array_vec_len line.old + length bytes.now }
{
    let Ok(()) = line.try_extend_from_slice(bytes) else {
        unreachable!()
    };
}

// Appends the line for a fault of the scenario.
fn append_fault(line: &mut Line, fault: &Fault)
    requires { array_vec_len line.old ≡ 0 }
    ensures { line.new.items ≡ line.old.items ++ scenario_line fault.now }
{
    let mut digits = Digits::new();
    append(line, b"line ");
    append(line, digits.format(fault.line).as_bytes());
    append(line, b": ");
    append(line, cause_word(fault.cause));
    append(line, b"\n");
}

// Returns the line for a fault.
fn line_of(fault: &RunFault) -> Line
    ensures { result.items ≡ fault_line fault.now }
{
    let mut line = Line::new();
    match fault {
        RunFault::Scenario(fault) => append_fault(&mut line, fault),
        RunFault::Read => append(&mut line, b"read\n"),
        RunFault::Write => append(&mut line, b"write\n"),
        RunFault::Memory => append(&mut line, b"memory\n"),
        RunFault::Strange => append(&mut line, b"strange\n"),
        RunFault::Gate => append(&mut line, b"gate\n"),
    }
    line
}

/// Writes the line for a fault. If the writer fails, a prefix of the line has been written.
#[tactic(auto, using(crate::proofs::Answering::said))]
pub fn write_fault<W: Outlet>(writer: &mut W, fault: &RunFault)
    ensures { IsSaid (fault_line fault.now) (W.contents writer.old) (W.contents writer.new)
        (W.failed writer.new) }
{
    let line = line_of(fault);
    // There is nowhere else to report that this can't be written.
    let _ = write_all(writer, line.as_slice());
}
