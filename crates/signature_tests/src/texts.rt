use line_text::read;
use std::process::Abort;
use std::test::Fail;

fn reads(
    rt: &(impl Abort + AllocGlobal),
    text: &[u8],
    lines: &[u16],
    malformed: Option<usize>,
) -> Result<(), Fail> {
    let reading = read(rt.alloc(), text)?;
    assert_eq!(rt; reading.lines.as_slice(), lines);
    assert_eq!(rt; reading.malformed, malformed);
    Ok(())
}

#[test]
fn lines_are_read_up_to_the_first_that_is_no_number(rt: HostRuntime) -> Result<(), Fail> {
    reads(&rt, b"", &[], None)?;
    reads(&rt, b"0\n65535\n007", &[0, 65535, 7], None)?;
    reads(&rt, b"1\n65536\n2\n", &[1], Some(2))?;
    reads(&rt, b"99999999999999999999\n", &[], Some(1))?;
    reads(&rt, b"1\n2\n\n3\n", &[1, 2], Some(3))?;
    reads(&rt, b"12\r\n", &[], Some(1))?;
    reads(&rt, b"\n", &[], Some(1))
}
