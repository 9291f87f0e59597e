// Texts that are answers, and their neighbours that are none.
use answer_words::parse_answer;
use status_report::answer_text;
use std::alloc::Global;
use std::process::Abort;
use std::test::Fail;

/// The text of what the text is read as, or a dash where it is no answer.
fn told(alloc: Global, text: &[u8]) -> Result<Vec<u8>, Fail> {
    match parse_answer(alloc, text)? {
        Some(answer) => Ok(answer_text(alloc, &answer)?),
        None => Ok(b"-".to_vec(alloc)?),
    }
}

/// Each of these lines is an answer, and is printed as it was read.
fn same(rt: &impl Abort, alloc: Global, lines: &str) -> Result<(), Fail> {
    for line in lines.as_bytes().split(|b| *b == b'\n') {
        let found = told(alloc, line)?;
        assert_eq!(rt; found.as_slice(), line);
    }
    Ok(())
}

/// None of these lines is an answer.
fn none(rt: &impl Abort, alloc: Global, lines: &str) -> Result<(), Fail> {
    for line in lines.as_bytes().split(|b| *b == b'\n') {
        let found = told(alloc, line)?;
        assert_eq!(rt; found.as_slice(), b"-".as_slice());
    }
    Ok(())
}

const OF_COMMANDS: &str = "ok
unknown
refused unknown-command
refused missing-operand
refused bad-value
refused not-member
refused ask 1
refused ask 32
refused queue-full";

const OF_THE_CONFIGURATION: &str = "refused unknown web
refused unknown 0
refused unknown 18446744073709551615
refused exists
refused in-use web
refused managed
refused unmanaged
refused same-value
refused not-listed 32
refused too-many
refused bad-property
refused bad-setting
refused still-up
refused cycle a
refused cycle a,b,a
refused single
refused no-mark
refused node-is-member
refused device-not-held
refused node-has-vote
refused lose-quorum 1 2
refused record-full 18446744073709551615";

#[test]
fn answers_are_read(rt: HostRuntime) -> Result<(), Fail> {
    same(&rt, rt.alloc(), OF_COMMANDS)?;
    same(&rt, rt.alloc(), OF_THE_CONFIGURATION)
}

/// The first is empty.
const NO_WORDS: &str =
    "\nokay\nok \n ok\nOk\nrefused\nrefused \nrefused ok\nrefused  exists\nexists";

const NO_OPERANDS: &str = "refused ask
refused ask 0
refused ask 33
refused ask 07
refused ask 1 2
refused ask +1
refused unknown Web
refused unknown 18446744073709551616
refused in-use 1
refused not-listed 0
refused exists web
refused cycle
refused cycle a,,b
refused cycle a,
refused lose-quorum 1
refused lose-quorum 1 2 3
refused record-full 18446744073709551616";

#[test]
fn neighbours_are_none(rt: HostRuntime) -> Result<(), Fail> {
    none(&rt, rt.alloc(), NO_WORDS)?;
    none(&rt, rt.alloc(), NO_OPERANDS)
}
