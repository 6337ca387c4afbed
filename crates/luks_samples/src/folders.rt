//! Folders of the tests.
use std::fs;
use std::rt::{Clock, Files};
use std::test::Fail;

/// The name of a new folder under /tmp.
pub fn new_folder<R: AllocGlobal + Clock + Files>(rt: &R, test: &str) -> Result<String, Fail> {
    let since = rt.since_1970()?;
    let seconds = since.as_secs();
    let nanoseconds = since.subsec_nanos();
    let name = format!(in rt.alloc(); "/tmp/luks-{test}-{seconds}-{nanoseconds}")?;
    fs::create_dir(rt, name.as_str())?;
    Ok(name)
}
