use crate::bytes::{Hex, Text};
use crate::ending::exit_code;
use crate::failure::Failure;
use crate::files::{read_file, replace_file};
use crate::words::read_words;
use std::alloc::AllocError;
use std::io;
use std::process::ExitCode;

#[test]
fn prints_bytes(rt: HostRuntime) -> Result<(), AllocError> {
    let bytes = [0x41, 0x0a, 0xff, 0, 0x42];
    let hex = Hex(&bytes);
    let text = Text(&bytes);
    let printed = format!(in rt.alloc(); "{hex} {text}")?;
    assert_eq!(rt; printed.as_str(), "410aff0042 A\n\u{ff}");
    Ok(())
}

#[test]
fn tells_failures(rt: HostRuntime) -> Result<(), AllocError> {
    for (failure, want) in [
        (Failure::Memory(AllocError), "no memory is left"),
        (
            Failure::from(io::Error::from(io::ErrorKind::BrokenPipe)),
            "cannot read an argument or print: broken pipe",
        ),
        (
            Failure::Read("a.img", io::ErrorKind::NotFound),
            "cannot read a.img: entity not found",
        ),
        (
            Failure::Write("a.img", io::ErrorKind::PermissionDenied),
            "cannot write a.img: permission denied",
        ),
    ] {
        let told = failure.to_string(rt.alloc())?;
        assert_eq!(rt; told.as_str(), want);
    }
    Ok(())
}

#[test]
fn ends_with_a_status(rt: HostRuntime) {
    assert!(rt; exit_code(&rt, "a program", Ok::<(), &str>(())) == ExitCode::SUCCESS);
    assert!(rt; exit_code(&rt, "a program", Err("it stopped")) == ExitCode::FAILURE);
}

#[test]
fn replaces_a_file(rt: HostRuntime) -> Result<(), Failure<'static>> {
    let path = "console-tests-replaced";
    replace_file(&rt, path, b"old")?;
    replace_file(&rt, path, b"newer")?;
    let found = read_file(&rt, path)?;
    assert_eq!(rt; found.as_slice(), b"newer".as_slice());
    std::fs::remove_file(&rt, path)?;
    assert_eq!(rt;
        read_file(&rt, path).err(),
        Some(Failure::Read(path, io::ErrorKind::NotFound))
    );
    Ok(())
}

#[test]
fn reads_the_words(rt: HostRuntime) {
    assert!(rt; read_words(&rt).is_ok());
}
