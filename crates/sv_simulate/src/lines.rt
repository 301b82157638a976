// The lines that a call closes with.
ghost use Rattle.std.specs.Prelude.{◌≡◌, ◌++◌, codes, string_bytes, IfOk};
ghost use Rattle.std.specs.Fmt.{decimal};
ghost use Rattle.sv_simulate.specs.Said.{line, place_text, fault_text, refused_at};

use std::alloc::{AllocError, Global};
use sv_value::{FaultKind, Place, RunFault};

pub fn usage_line(alloc: Global) -> Result<String, AllocError>
    ensures { IfOk result (λ s. string_bytes s ≡ line (codes "bad command line")) }
{
    String::from_str(alloc, "svsim: bad command line\n")
}

pub fn done_line(alloc: Global, time: u64) -> Result<String, AllocError>
    ensures { IfOk result (λ s. string_bytes s ≡ line (codes "done at " ++ decimal time)) }
{
    format!(in alloc; "svsim: done at {time}\n")
}

pub fn spent_line(alloc: Global, steps: u64, time: u64) -> Result<String, AllocError>
    ensures { IfOk result (λ s. string_bytes s ≡ line (codes "stopped after " ++ decimal steps ++ codes " steps at " ++ decimal time)) }
{
    format!(in alloc; "svsim: stopped after {steps} steps at {time}\n")
}

/// What a fault of a run is called.
fn fault_text(kind: FaultKind) -> &'static str
    ensures { result.now ≡ fault_text kind }
{
    match kind {
        FaultKind::Null => "null reference",
        FaultKind::Cast => "failed cast",
        FaultKind::MessageType => "message of another type",
        FaultKind::Count => "bad count",
        FaultKind::Depth => "call depth",
        FaultKind::Objects => "too many objects",
        FaultKind::Activations => "too many activations",
        FaultKind::Processes => "too many processes",
        FaultKind::Items => "too many items",
        FaultKind::Length => "text too long",
        FaultKind::Time => "time too large",
    }
}

/// The line of a fault that is called so.
fn called_line(
    alloc: Global,
    file: &str,
    fault: &RunFault,
    what: &str,
) -> Result<String, AllocError>
    ensures { IfOk result (λ s. string_bytes s
        ≡ line (place_text file.now fault.now.at ++ codes ": " ++ what.now ++ codes " at " ++ decimal fault.now.time)) }
{
    let line = fault.at.line;
    let col = fault.at.col;
    let time = fault.time;
    format!(in alloc; "svsim: {file}:{line}:{col}: {what} at {time}\n")
}

pub fn fault_line(alloc: Global, file: &str, fault: &RunFault) -> Result<String, AllocError>
    ensures { IfOk result (λ s. string_bytes s
        ≡ line (place_text file.now fault.now.at ++ codes ": " ++ fault_text fault.now.kind ++ codes " at " ++ decimal fault.now.time)) }
{
    called_line(alloc, file, fault, fault_text(fault.kind))
}

/// The line of a text that is refused at a place.
pub fn refused_line(alloc: Global, file: &str, at: Place, what: &str) -> Result<String, AllocError>
    ensures { IfOk result (λ s. string_bytes s ≡ refused_at file.now at what.now) }
{
    let line = at.line;
    let col = at.col;
    format!(in alloc; "svsim: {file}:{line}:{col}: refused: {what}\n")
}

/// The line of a text that breaks a rule at a place.
pub fn broken_line(alloc: Global, file: &str, at: Place, rule: u8) -> Result<String, AllocError>
    ensures { IfOk result (λ s. string_bytes s ≡ refused_at file.now at (codes "E" ++ decimal rule)) }
{
    let line = at.line;
    let col = at.col;
    format!(in alloc; "svsim: {file}:{line}:{col}: refused: E{rule}\n")
}

pub fn too_long_line(alloc: Global, file: &str) -> Result<String, AllocError>
    ensures { IfOk result (λ s. string_bytes s ≡ line (file.now ++ codes ": too long")) }
{
    format!(in alloc; "svsim: {file}: too long\n")
}

pub fn not_read_line(alloc: Global, file: &str) -> Result<String, AllocError>
    ensures { IfOk result (λ s. string_bytes s ≡ line (file.now ++ codes ": not read")) }
{
    format!(in alloc; "svsim: {file}: not read\n")
}
