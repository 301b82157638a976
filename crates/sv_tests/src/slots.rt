// Lists of a slot and of later slots.
use std::test::Fail;
use sv_sched::{Picked, Regions, Wheel};
use sv_value::{ClockId, Due, Job, ProcessId, Region, Side};

fn resumed(item: Option<(u64, Region, Due)>) -> Option<(u64, u32)> {
    match item {
        Some((time, _, Due::Resume(process))) => Some((time, process.0)),
        _ => None,
    }
}

#[test]
fn gives_out_by_time_and_then_by_adding(rt: HostRuntime) -> Result<(), Fail> {
    let mut wheel = Wheel::new(rt.alloc())?;
    wheel.add(5, Region::Active, Due::Resume(ProcessId(1)))?;
    wheel.add(3, Region::Active, Due::Resume(ProcessId(2)))?;
    wheel.add(3, Region::Reactive, Due::Resume(ProcessId(3)))?;
    wheel.add(3, Region::Active, Due::Resume(ProcessId(4)))?;
    wheel.remove(ProcessId(3));
    assert_eq!(rt; wheel.first_time(), Some(3));
    assert_eq!(rt; resumed(wheel.pop_first()), Some((3, 2)));
    assert_eq!(rt; resumed(wheel.pop_first()), Some((3, 4)));
    assert_eq!(rt; resumed(wheel.pop_first()), Some((5, 1)));
    assert_eq!(rt; resumed(wheel.pop_first()), None);
    Ok(())
}

fn taken(regions: &mut Regions, place: u32) -> Option<Picked> {
    if place >= regions.pickable(Side::Active) {
        return None;
    }
    Some(regions.take(Side::Active, place))
}

fn is_process(picked: Option<Picked>, number: u32) -> bool {
    match picked {
        Some(Picked::Process(process)) => process.0 == number,
        _ => false,
    }
}

fn is_clock(picked: Option<Picked>, number: u64) -> bool {
    match picked {
        Some(Picked::Job(Job::Clock(block))) => block.0 == number,
        _ => false,
    }
}

#[test]
fn ready_processes_are_picked_by_place(rt: HostRuntime) -> Result<(), Fail> {
    let mut regions = Regions::new(rt.alloc())?;
    regions.ready(Region::Active, ProcessId(1))?;
    regions.ready(Region::Active, ProcessId(2))?;
    regions.ready(Region::Active, ProcessId(3))?;
    regions.remove(ProcessId(1));
    assert_eq!(rt; regions.pickable(Side::Active), 2);
    assert!(rt; is_process(taken(&mut regions, 1), 3));
    assert!(rt; is_process(taken(&mut regions, 0), 2));
    assert!(rt; regions.is_bare(Side::Active));
    Ok(())
}

#[test]
fn clocking_updates_stand_once_and_by_number(rt: HostRuntime) -> Result<(), Fail> {
    let mut regions = Regions::new(rt.alloc())?;
    regions.job(Region::Observed, Job::Clock(ClockId(2)))?;
    regions.job(Region::Observed, Job::Clock(ClockId(1)))?;
    regions.job(Region::Observed, Job::Clock(ClockId(2)))?;
    assert!(rt; !regions.is_bare(Side::Active));
    assert!(rt; regions.is_bare(Side::Reactive));
    assert_eq!(rt; regions.pickable(Side::Active), 0);
    assert!(rt; !regions.move_first(Side::Reactive));
    assert!(rt; regions.move_first(Side::Active));
    assert_eq!(rt; regions.pickable(Side::Active), 1);
    assert!(rt; is_clock(taken(&mut regions, 0), 1));
    assert!(rt; is_clock(taken(&mut regions, 0), 2));
    assert!(rt; taken(&mut regions, 0).is_none());
    Ok(())
}

#[test]
fn a_moment_is_reached_in_the_order_of_adding(rt: HostRuntime) -> Result<(), Fail> {
    let mut wheel = Wheel::new(rt.alloc())?;
    wheel.add(256, Region::Active, Due::Resume(ProcessId(1)))?;
    wheel.add(255, Region::Active, Due::Resume(ProcessId(2)))?;
    wheel.add(1, Region::Active, Due::Resume(ProcessId(3)))?;
    assert_eq!(rt; resumed(wheel.pop_first()), Some((1, 3)));
    wheel.add(256, Region::Active, Due::Resume(ProcessId(3)))?;
    assert_eq!(rt; resumed(wheel.pop_first()), Some((255, 2)));
    assert_eq!(rt; resumed(wheel.pop_first()), Some((256, 1)));
    assert_eq!(rt; resumed(wheel.pop_first()), Some((256, 3)));
    Ok(())
}

#[test]
fn moments_256_apart_stay_apart(rt: HostRuntime) -> Result<(), Fail> {
    let mut wheel = Wheel::new(rt.alloc())?;
    wheel.add(519, Region::Active, Due::Resume(ProcessId(1)))?;
    wheel.add(263, Region::Active, Due::Resume(ProcessId(2)))?;
    wheel.add(7, Region::Active, Due::Resume(ProcessId(3)))?;
    wheel.add(u64::MAX, Region::Active, Due::Resume(ProcessId(4)))?;
    wheel.remove(ProcessId(2));
    assert_eq!(rt; resumed(wheel.pop_first()), Some((7, 3)));
    assert_eq!(rt; resumed(wheel.pop_first()), Some((519, 1)));
    assert_eq!(rt; resumed(wheel.pop_first()), Some((u64::MAX, 4)));
    assert!(rt; wheel.first_time().is_none());
    Ok(())
}

#[test]
fn a_pick_closes_up(rt: HostRuntime) -> Result<(), Fail> {
    let mut regions = Regions::new(rt.alloc())?;
    regions.ready(Region::Active, ProcessId(1))?;
    regions.ready(Region::Active, ProcessId(2))?;
    regions.ready(Region::Active, ProcessId(3))?;
    regions.ready(Region::Active, ProcessId(4))?;
    assert!(rt; is_process(taken(&mut regions, 1), 2));
    assert!(rt; is_process(taken(&mut regions, 2), 4));
    assert!(rt; is_process(taken(&mut regions, 0), 1));
    assert!(rt; is_process(taken(&mut regions, 0), 3));
    Ok(())
}
