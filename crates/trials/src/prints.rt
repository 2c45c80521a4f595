//! What programs read and print.
use console::fault::Fault;
use console::program::Refused;
use console::request::Request;
use console::storage::{Blocks, blank};
use filter::{FilterFault, Plan};
use std::test::Fail;

#[test]
fn blank_words_are_there(rt: HostRuntime) -> Result<(), Fail> {
    let words = blank(rt.alloc(), Plan::new(6, 1)?, 2)?;
    assert_eq!(rt; words.as_slice(), [0u64; 8].as_slice());
    Ok(())
}

#[test]
fn blocks_stand_on_lines(rt: HostRuntime) -> Result<(), Fail> {
    let words = [1, 2, 3, 4, 5, 6, 7, u64::MAX, 9];
    let text = format!(in rt.alloc(); "{}", Blocks::of(Plan::new(6, 1)?, &words))?;
    let first = "block 0 0000000000000001 0000000000000002 0000000000000003 0000000000000004\n";
    let second = "block 1 0000000000000005 0000000000000006 0000000000000007 ffffffffffffffff\n";
    let whole = format!(in rt.alloc(); "{first}{second}")?;
    assert_eq!(rt; text.as_str(), whole.as_str());
    Ok(())
}

#[test]
fn a_refusal_shows_its_number(rt: HostRuntime) -> Result<(), Fail> {
    let text = format!(in rt.alloc(); "{}", Refused(FilterFault::NoSlot))?;
    assert_eq!(rt; text.as_str(), "refused 20");
    Ok(())
}

#[test]
fn three_words_are_a_request_and_none_are_none(rt: HostRuntime) -> Result<(), Fail> {
    let heap = rt.alloc();
    let words = vec![in heap;
        String::from_str(heap, "8")?,
        String::from_str(heap, "24")?,
        String::from_str(heap, "70000")?,
    ]?;
    let wanted = Request {
        q: 8,
        r: 24,
        blocks: 65536,
    };
    assert!(rt; matches!(Request::of(words.as_slice()), Ok(Some(asked)) if asked == wanted));
    assert!(rt; matches!(Request::of(&words.as_slice()[1..]), Err(Fault::Arguments)));
    assert!(rt; matches!(Request::of(&[]), Ok(None)));
    Ok(())
}
