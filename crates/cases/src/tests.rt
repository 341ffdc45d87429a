// Texts that the table of lines cannot hold: odd bytes, missing line ends, and lengths at their limits.
use policy::refusal::Refusal;
use roster::grid::Grid;
use std::alloc::Global;
use std::process::Abort;
use std::test::Fail;
use text::answer::answer;

// The text gets exactly that output, and the bytes behind it stay.
fn expect(rt: &impl Abort, heap: Global, text: &[u8], printed: &[u8]) -> Result<(), Fail> {
    let mut out = vec![in heap; 7u8; 256]?;
    let written = answer(Grid::new(), text, &mut out)?;
    assert_eq!(rt; &out[..written], printed);
    assert!(rt; out[written..].iter().all(|byte| *byte == 7));
    Ok(())
}

// The text is refused with that number, and no byte of the buffer changes.
fn expect_refused(rt: &impl Abort, text: &[u8], out: &mut [u8], number: u32) {
    let refusal = answer(Grid::new(), text, out).err();
    assert_eq!(rt; refusal.map(Refusal::number), Some(number));
    assert!(rt; out.iter().all(|byte| *byte == 7));
}

#[test]
fn ends_of_lines(rt: HostRuntime) -> Result<(), Fail> {
    let heap = rt.alloc();
    expect(&rt, heap, b"", b"")?;
    expect(&rt, heap, b"tick", b"refused 51\n")?;
    expect(&rt, heap, b"force\ntick", b"ok\nok\n")?;
    expect(&rt, heap, b"force\ntick\n", b"ok\nok\n")?;
    expect(&rt, heap, b"\n", b"refused 50\n")?;
    expect(&rt, heap, b"\n\nforce", b"refused 50\nrefused 50\nok\n")?;
    expect(&rt, heap, b"force\r\n", b"refused 50\n")
}

#[test]
fn odd_bytes(rt: HostRuntime) -> Result<(), Fail> {
    let heap = rt.alloc();
    expect(&rt, heap, b"\0", b"refused 50\n")?;
    expect(&rt, heap, b"force\0\n", b"refused 50\n")?;
    expect(&rt, heap, b"\xff\xfe\n\x80", b"refused 50\nrefused 50\n")?;
    expect(&rt, heap, b"size 1 1 1\0", b"refused 50\n")?;
    expect(&rt, heap, b"rule \xff 0 1 0 0 1 0 0", b"refused 10\n")?;
    expect(&rt, heap, b"rule \0 0 1 0 0 1 0 0", b"refused 10\n")
}

#[test]
fn lengths(rt: HostRuntime) -> Result<(), Fail> {
    let heap = rt.alloc();
    let text = vec![in heap; 10u8; 5001]?;
    let mut out = vec![in heap; 7u8; 55011]?;
    assert!(rt; text.len() == 5001);
    assert!(rt; out.len() == 55011);
    expect_refused(&rt, &text, &mut out, 52);
    // behind `[..n]` the proof would lose the length of what is lent next
    expect_refused(&rt, &text, &mut out[0..10], 52);
    expect_refused(&rt, &text[..5000], &mut out[0..54999], 53);
    let written = answer(Grid::new(), &text[..5000], &mut out[0..55000])?;
    assert_eq!(rt; written, 55000);
    Ok(())
}
