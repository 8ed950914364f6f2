//! The errors: their texts and kinds.
use parallel_map::WorkError;
use std::io;
use std::io::ErrorKind;
use std::test::Fail;

const TEXTS: &[(WorkError, &str)] = &[
    (WorkError::NoMemory, "out of memory"),
    (WorkError::NoThread, "no thread could be started"),
    (WorkError::Missing(1), "the answer to a job is missing"),
    (WorkError::Doubled(2), "a job was answered twice"),
    (WorkError::Unknown(3), "an answer is to no job of the list"),
];

#[test]
fn each_error_has_its_text_and_kind(rt: HostRuntime) -> Result<(), Fail> {
    for &(error, text) in TEXTS {
        let kind = match error {
            WorkError::NoMemory => ErrorKind::OutOfMemory,
            WorkError::NoThread => ErrorKind::WouldBlock,
            _ => ErrorKind::InvalidData,
        };
        assert_eq!(rt; format!(in rt.alloc(); "{error}")?.as_str(), text);
        let io_error = io::Error::from(error);
        assert_eq!(rt; io_error.kind(), kind, "{error}");
        let io_text = format!(in rt.alloc(); "{io_error}")?;
        assert!(rt; io_text.contains(text), "{error}");
    }
    let cut = format!(in rt.alloc(); "{:5.3}.", WorkError::NoMemory)?;
    assert_eq!(rt; cut.as_str(), "out  .");
    Ok(())
}
