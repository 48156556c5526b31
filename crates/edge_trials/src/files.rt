//! The adapters over real files, and the standard output.

use crate::texts::long_text;
use crate::told::is_told;
use edge_io::{DirFiles, Failed, Files, StdSink, WholeError, WriteSink, read_whole, send_all};
use std::alloc::Global;
use std::fs;
use std::fs::File;
use std::test::Fail;

/// Whether the file of this name holds a text; where it can't be read, whether the text says why.
fn holds<F: Files>(alloc: Global, files: &mut F, name: &str, text: &[u8]) -> bool {
    match files.open(name) {
        Ok(true) => is_told(&read_whole(alloc, files, 20_000), text),
        Ok(false) => text == b"(missing)".as_slice(),
        Err(Failed) => is_told(&Err(WholeError::Fault), text),
    }
}

/// Whether a text is written whole into the file of this name.
fn is_written(rt: &HostRuntime, name: &str, text: &[u8]) -> Result<bool, Fail> {
    let mut out = WriteSink::over(File::create(rt, name)?);
    Ok(send_all(&mut out, text).is_ok())
}

/// Whether the file of this name holds a text; where it can't be read, whether the text says why.
fn is_read(rt: &HostRuntime, name: &str, text: &[u8]) -> bool {
    let mut files = DirFiles::new(rt);
    holds(rt.alloc(), &mut files, name, text)
}

/// Whether a long text is written whole into the file of this name, and read back.
fn is_kept(rt: &HostRuntime, name: &str) -> Result<bool, Fail> {
    let text = long_text(rt.alloc(), 10_000)?;
    let written = is_written(rt, name, text.as_slice())?;
    Ok(written && is_read(rt, name, text.as_slice()))
}

#[test]
fn a_file_of_several_pieces_is_written_and_read_back(rt: HostRuntime) -> Result<(), Fail> {
    let name = "/tmp/bemokahi_edge_trials_pieces";
    let kept = is_kept(&rt, name)?;
    fs::remove_file(&rt, name)?;
    assert!(rt; kept);
    Ok(())
}

#[test]
fn files_of_the_system_are_missing_empty_or_no_files(rt: HostRuntime) {
    assert!(rt; is_read(&rt, "/no/such/file", b"(missing)"));
    assert!(rt; is_read(&rt, "/dev/null", b""));
    assert!(rt; is_read(&rt, "/dev/zero", b"(too long)"));
    assert!(rt; is_read(&rt, "/dev", b"(fault)"));
    assert!(rt; is_read(&rt, "/dev/null/x", b"(fault)"));
}

#[test]
fn the_standard_output_takes_all(rt: HostRuntime) -> Result<(), Fail> {
    let mut out = StdSink::new(&rt);
    assert!(rt; send_all(&mut out, b"a walk\n").is_ok());
    Ok(())
}
