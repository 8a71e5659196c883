use crate::plan::Plan;
use limits::{Layer, ReadError, Refusal};
use std::test::Fail;

// Server 1 with an action, and server 2 without.
const TWO_SERVERS: [u8; 64] = [
    0, 0, 0, 0, 4, 0, 0, 0, 0, 0, 0, 0, 0, 0, 0, 0, //
    1, 1, 0, 0, 0x20, 0xa1, 7, 0, 0, 0, 0, 0, 0, 0, 0, 0, //
    2, 7, 0, 0, 3, 0, 0, 0, 2, 0, 0, 0, 4, 0, 0, 0, //
    1, 2, 0, 0, 1, 0, 0, 0, 0, 0, 0, 0, 0, 0, 0, 0,
];

// Its second server has the number of the first.
const SERVER_TWICE: [u8; 48] = [
    0, 0, 0, 0, 3, 0, 0, 0, 0, 0, 0, 0, 0, 0, 0, 0, //
    1, 9, 0, 0, 1, 0, 0, 0, 0, 0, 0, 0, 0, 0, 0, 0, //
    1, 9, 0, 0, 1, 0, 0, 0, 0, 0, 0, 0, 0, 0, 0, 0,
];

fn plan_of(rt: &HostRuntime, bytes: &[u8]) -> Result<Plan, Fail> {
    Plan::read(rt.alloc(), bytes).map_err(|_| Fail::new("not read"))
}

#[test]
fn looks_up(rt: HostRuntime) -> Result<(), Fail> {
    let plan = plan_of(&rt, &TWO_SERVERS)?;
    assert_eq!(rt; plan.servers().len(), 2);
    assert_eq!(rt; plan.server(1).ok_or("no server 1")?.cap, 500_000);
    assert_eq!(rt; plan.action(1, 7).ok_or("no action 7")?.task.period, 4);
    assert!(rt; plan.action(2, 7).is_none());
    assert!(rt; plan.server(3).is_none());
    Ok(())
}

#[test]
fn fault_leaves_plan(rt: HostRuntime) -> Result<(), Fail> {
    let mut plan = plan_of(&rt, &TWO_SERVERS)?;
    match plan.replace(rt.alloc(), &SERVER_TWICE) {
        Err(ReadError::Fault(fault)) => {
            assert_eq!(rt; fault.layer, Layer::PlanValues);
            assert_eq!(rt; fault.refusal, Refusal::NumberTwice);
            assert_eq!(rt; fault.place, 2);
        }
        _ => return Err(Fail::new("a number twice was read")),
    }
    assert_eq!(rt; plan.servers().len(), 2);
    match plan.replace(rt.alloc(), &TWO_SERVERS[0..16]) {
        Err(ReadError::Fault(fault)) => assert_eq!(rt; fault.refusal, Refusal::PlanSize),
        _ => return Err(Fail::new("too few bytes were read")),
    }
    assert_eq!(rt; plan.records(), 4);
    Ok(())
}

#[test]
fn lists(rt: HostRuntime) -> Result<(), Fail> {
    let plan = plan_of(&rt, &TWO_SERVERS)?;
    let text = plan.listing(rt.alloc())?;
    let head = "plan of 4 records\n";
    let first = "server 1 cap 500000\naction 7 load 3 limit 2 period 4\n";
    let second = "server 2 cap 1\n";
    let wanted = format!(in rt.alloc(); "{head}{first}{second}")?;
    assert_eq!(rt; text.as_str(), wanted.as_str());
    Ok(())
}
