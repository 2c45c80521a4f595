//! A filter's refusals.
use filter::{Filter, FilterFault, Plan};
use std::test::Fail;

#[test]
fn a_newcomer_is_refused_and_nothing_changes(rt: HostRuntime) -> Result<(), Fail> {
    let mut words = [0u64; 12];
    let mut filter = Filter::begin(Plan::new(6, 8)?, &mut words);
    filter.add(63 * 256)?;
    assert_eq!(rt; filter.add(63 * 256), Err(FilterFault::NoSlot));
    assert_eq!(rt; words, [1 << 63, 1 << 63, 0, 0, 0, 0, 0, 0, 0, 0, 0, 0]);
    Ok(())
}

#[test]
fn a_fault_shows_its_number(rt: HostRuntime) -> Result<(), Fail> {
    let shown = format!(in rt.alloc(); "{}", FilterFault::NoSlot)?;
    assert_eq!(rt; shown.as_str(), "20");
    Ok(())
}
