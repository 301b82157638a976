// Runs of small designs: their logs, their ends, and what a kernel tells after them.
use crate::small::{design_of, listed};
use std::alloc::Global;
use std::process::Abort;
use std::test::Fail;
use sv_io::{GoodSink, MemSink, Sink, SinkError};
use sv_kernel::{Kernel, Outcome, Stepped};
use sv_value::Side;

/// A kernel of a small design, with these two lists.
fn kernel_of(
    alloc: Global,
    sides: &[Side],
    bodies: &[&[&str]],
    active: &[u32],
    reactive: &[u32],
) -> Result<Kernel, Fail> {
    let design = design_of(alloc, sides, bodies)?.ok_or("not built")?;
    Ok(Kernel::new(
        alloc,
        design,
        listed(alloc, active)?,
        listed(alloc, reactive)?,
    )?)
}

/// How a run ends. What the contract of `run` says is not looked at here.
fn outcome_of<O: Sink>(kernel: &mut Kernel, limit: u64, out: &mut O) -> Outcome {
    kernel.run(limit, out).outcome
}

fn same_number<R: Abort>(rt: &R, got: u64, wanted: u64) {
    assert_eq!(rt; got, wanted);
}

fn same_log<R: Abort>(rt: &R, got: &[u8], wanted: &str) {
    assert_eq!(rt; got, wanted.as_bytes());
}

/// Runs a kernel until it has made at most so many steps.
fn expect<R: Abort, O: Sink>(
    rt: &R,
    kernel: &mut Kernel,
    limit: u64,
    out: &mut O,
    outcome: Outcome,
    steps: u64,
) {
    assert_eq!(rt; outcome_of(kernel, limit, out), outcome);
    same_number(rt, kernel.steps(), steps);
}

/// More steps than a small design makes.
const MANY: u64 = 1000;

/// A run of two processes on the Reactive side and one on the Active side, into memory.
fn expect_sides<R: Abort>(rt: &R, alloc: Global, kernel: &mut Kernel) {
    let mut out = GoodSink::new(alloc);
    expect(rt, kernel, MANY, &mut out, Outcome::Done, 8);
    same_log(rt, out.bytes(), "C\nB\nA\n");
    same_number(rt, kernel.time(), 0);
}

#[test]
fn each_side_has_choices_of_its_own(rt: HostRuntime) -> Result<(), Fail> {
    let bodies: [&[&str]; 3] = [&["A\n"], &["B\n"], &["C\n"]];
    let sides = [Side::Reactive, Side::Reactive, Side::Active];
    let mut kernel = kernel_of(rt.alloc(), &sides, &bodies, &[], &[1])?;
    expect_sides(&rt, rt.alloc(), &mut kernel);
    Ok(())
}

/// A sink that has memory for nothing.
#[derive(Drop)]
struct FullSink;

impl Sink for FullSink {
    ghost use Rattle.std.specs.Prelude.{None};

    ghost bytes = { λ _. None };

    ghost faults = { λ _. 0 };

    fn put(&mut self, _piece: &[u8]) -> Result<(), SinkError> {
        Err(SinkError::Memory)
    }
}

/// A kernel of one process that prints twice.
fn two_prints(alloc: Global) -> Result<Kernel, Fail> {
    kernel_of(alloc, &[Side::Active], &[&["a\n", "b\n"]], &[], &[])
}

/// A run of two prints, of which the second is cut.
fn expect_cut<R: Abort>(rt: &R, kernel: &mut Kernel, out: &mut MemSink) {
    expect(rt, kernel, MANY, out, Outcome::LogFailed, 4);
    same_log(rt, out.bytes(), "a\nb");
}

#[test]
fn a_run_is_cut_by_a_sink_that_fails(rt: HostRuntime) -> Result<(), Fail> {
    let mut out = MemSink::new(rt.alloc());
    out.fail_at(2, 1)?;
    let mut kernel = two_prints(rt.alloc())?;
    expect_cut(&rt, &mut kernel, &mut out);
    Ok(())
}

/// A run that finds no memory for its first print, and is asked to go on.
fn expect_no_more<R: Abort>(rt: &R, alloc: Global, kernel: &mut Kernel) {
    expect(rt, kernel, MANY, &mut FullSink, Outcome::Memory, 3);
    let mut out = GoodSink::new(alloc);
    expect(rt, kernel, MANY, &mut out, Outcome::Memory, 3);
    same_log(rt, out.bytes(), "");
}

#[test]
fn a_run_without_memory_goes_no_further(rt: HostRuntime) -> Result<(), Fail> {
    let mut kernel = two_prints(rt.alloc())?;
    expect_no_more(&rt, rt.alloc(), &mut kernel);
    Ok(())
}

/// One step of a kernel that has not made its last step yet.
fn expect_step<R: Abort>(rt: &R, kernel: &mut Kernel, steps: u64, expected: Stepped) {
    assert!(rt; kernel.steps() < u64::MAX);
    let stepped = kernel.step();
    assert_eq!(rt; stepped, Ok(expected));
    same_number(rt, kernel.steps(), steps);
}

#[test]
fn steps_one_at_a_time(rt: HostRuntime) -> Result<(), Fail> {
    let mut kernel = two_prints(rt.alloc())?;
    for (steps, stepped) in [
        (1, Stepped::More),
        (2, Stepped::More),
        (3, Stepped::More),
        (4, Stepped::More),
        (5, Stepped::Done),
        (5, Stepped::Done),
    ] {
        expect_step(&rt, &mut kernel, steps, stepped);
    }
    Ok(())
}
