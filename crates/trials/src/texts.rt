//! Figures and lines, and a text sorted with its refused lines.
use answers::Refusal;
use batch::{BookKind, RefusedLine, batch_of, refused_among, refused_lines};
use figures::lines::next_line;
use figures::{FigureFault, natural, pair_fields};
use forms::LineFault;
use history::{BookFault, Call, Operation, Stored, Told};
use kinds::Pair;
use std::alloc::AllocError;
use std::test::Fail;

#[test]
fn tells_the_refused_lines(rt: HostRuntime) -> Result<(), AllocError> {
    let text = b"pair 1 2 -3\nhello\nlig 1 2 as 3\ndrop 4 5";
    let mut batch = batch_of(rt.alloc(), text)?;
    assert_eq!(rt; batch.kerns.len(), 2);
    assert_eq!(rt; batch.ligatures.len(), 1);
    let lines = [
        Ok(BookKind::Kern),
        Err(LineFault::Unreadable),
        Ok(BookKind::Ligature),
        Ok(BookKind::Kern),
    ];
    assert_eq!(rt; batch.lines.as_slice(), lines.as_slice());
    batch.kerns[0].answer = Some(Ok(Told::Stored(Stored::Kept)));
    batch.kerns[1].answer = Some(Err(BookFault::StrangeFilter));
    batch.ligatures[0].answer = Some(Ok(Told::Stored(Stored::Kept)));
    let refused = refused_lines(rt.alloc(), &batch)?;
    let expected = [
        RefusedLine {
            line: 2,
            fault: Refusal::Line(LineFault::Unreadable),
        },
        RefusedLine {
            line: 4,
            fault: Refusal::Book(BookFault::StrangeFilter),
        },
    ];
    assert_eq!(rt; refused.as_slice(), expected.as_slice());
    Ok(())
}

#[test]
fn tells_the_refused_among_slices(rt: HostRuntime) -> Result<(), AllocError> {
    let lines = [Ok(BookKind::Kern), Ok(BookKind::Kern), Ok(BookKind::Kern)];
    let pair = Pair { left: 1, right: 2 };
    let kerns = [
        Call {
            operation: Operation::Put(pair, -3),
            answer: Some(Ok(Told::Stored(Stored::Kept))),
        },
        Call {
            operation: Operation::Drop(pair),
            answer: Some(Err(BookFault::StrangeFilter)),
        },
        Call {
            operation: Operation::Find(pair),
            answer: None,
        },
    ];
    let refused = refused_among(rt.alloc(), &lines, &kerns, &[])?;
    let expected = [RefusedLine {
        line: 2,
        fault: Refusal::Book(BookFault::StrangeFilter),
    }];
    assert_eq!(rt; refused.as_slice(), expected.as_slice());
    Ok(())
}

#[test]
fn reads_numbers(rt: HostRuntime) {
    assert_eq!(rt; pair_fields(b"36 57 -40"), Ok((36, 57, -40)));
    assert_eq!(rt; pair_fields(b"0 65535 -32768"), Ok((0, 65535, -32768)));
    assert_eq!(rt; pair_fields(b"1 65536 0"), Err(FigureFault::TooLarge));
    assert_eq!(rt; pair_fields(b"65536 1 -0"), Err(FigureFault::Unreadable));
    assert_eq!(rt;
        natural(b"18446744073709551615"),
        Some(18446744073709551615)
    );
    assert_eq!(rt; natural(b"18446744073709551616"), None);
    assert_eq!(rt; natural(b"07"), None);
}

#[test]
fn cuts_lines(rt: HostRuntime) -> Result<(), Fail> {
    let Some((line, rest)) = next_line(b"a\n\nb") else {
        return Err(Fail::new("no line"));
    };
    assert_eq!(rt; line, b"a".as_slice());
    assert_eq!(rt; rest, b"\nb".as_slice());
    assert!(rt; next_line(b"").is_none());
    Ok(())
}
