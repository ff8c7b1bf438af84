// Texts that a parser refuses, and what is said of them.
use std::process::Abort;
use std::test::Fail;
use text::BadLine;

pub(super) fn is_refused<T: Drop>(
    rt: &(impl Abort + AllocGlobal),
    parsed: Result<T, BadLine>,
    message: &str,
) -> Result<(), Fail> {
    let bad = parsed.err().ok_or("accepted")?;
    let said = format!(in rt.alloc(); "{bad}")?;
    assert_eq!(rt; said.as_str(), message);
    Ok(())
}

// Lines that are parsed in the midst of others, the last of which are not reached.
#[derive(Clone, Copy)]
pub(super) struct Cases {
    pub before: &'static str,
    pub after: &'static str,
    // Where the line stands.
    pub number: u32,
    // Each line, and what is said of it.
    pub lines: &'static str,
}

pub(super) fn are_refused<T: Drop, P: Fn(&[u8]) -> Result<T, BadLine>>(
    rt: &(impl Abort + AllocGlobal),
    parse: P,
    cases: Cases,
) -> Result<(), Fail>
    requires { P.IsAlwaysCallable parse }
{
    let Cases {
        before,
        after,
        number,
        lines,
    } = cases;
    for case in lines.lines() {
        let (line, why) = case.split_once(" => ").ok_or("no message")?;
        let text = format!(in rt.alloc(); "{before}{line}{after}")?;
        let message = format!(in rt.alloc(); "line {number}: {why}")?;
        is_refused(rt, parse(text.as_bytes()), message.as_str())?;
    }
    Ok(())
}
