//! What lies beneath a block device, as sysfs tells it.
use crate::extent::{Extent, Holder};
use crate::node::Node;
use crate::system::System;
use std::alloc::{AllocError, Global};

/// The bytes of a sector, in which sysfs counts.
const SECTOR: u64 = 512;

/// The room for what a file or a folder of sysfs tells, in bytes.
const TEXT: usize = 4096;

/// The folder in which sysfs has a folder for each block device, and how the memory for names is taken.
#[derive(Clone, Copy)]
pub(crate) struct Sysfs<'a> {
    pub(crate) alloc: Global,
    /// The folder of the folders MAJOR:MINOR.
    pub(crate) folder: &'a str,
}

impl Sysfs<'_> {
    /// All bytes of the holder; where its length isn't told, all that it might have.
    pub(crate) fn whole<S: System>(
        &self,
        system: &mut S,
        holder: Holder,
        is_exact: bool,
    ) -> Result<Extent, AllocError> {
        let sectors = match holder {
            Holder::Device(node) => self.number(system, node, "size")?,
            Holder::File { .. } => None,
        };
        Ok(Extent {
            holder,
            start: 0,
            end: match sectors {
                Some(sectors) => sectors.saturating_mul(SECTOR),
                None => u64::MAX,
            },
            is_exact,
        })
    }

    /// Adds what these bytes of a block device are beneath it: of a partition, bytes of its disk; of a
    /// loop device, bytes of its file; of a device over others, any bytes of each. If nothing is told,
    /// or it can't be read, the device is taken for a disk of its own.
    pub(crate) fn beneath<S: System>(
        &self,
        system: &mut S,
        node: Node,
        extent: &Extent,
        found: &mut Vec<Extent>,
    ) -> Result<(), AllocError> {
        if let Some(start) = self.number(system, node, "start")? {
            if let Some(disk) = self.numbers(system, node, "../dev")? {
                found.push(extent.moved(Holder::Device(disk), start.saturating_mul(SECTOR)))?;
            }
            return Ok(());
        }
        if let Some(file) = self.backing_file(system, node)? {
            let offset = self.number(system, node, "loop/offset")?.unwrap_or(0);
            found.push(extent.moved(file, offset))?;
        }
        self.over(system, node, found)
    }

    /// What the file of a loop device is; nothing of another device, or where it is there no more.
    fn backing_file<S: System>(
        &self,
        system: &mut S,
        node: Node,
    ) -> Result<Option<Holder>, AllocError> {
        let mut text = [0; TEXT];
        let name = self.text(system, node, "loop/backing_file", &mut text)?;
        let Some(name) = name else {
            return Ok(None);
        };
        match system.stat(name) {
            Ok(found) => Ok(Some(Holder::from(&found))),
            Err(_) => Ok(None),
        }
    }

    /// Adds the devices that this one is made of, each whole.
    fn over<S: System>(
        &self,
        system: &mut S,
        node: Node,
        found: &mut Vec<Extent>,
    ) -> Result<(), AllocError> {
        let path = self.path(node, "slaves")?;
        let mut names = [0; TEXT];
        let Some(len) = system.names(path.as_str(), &mut names) else {
            return Ok(());
        };
        for name in names[..len].split(|byte| *byte == 0) {
            self.add_named(system, node, name, found)?;
        }
        Ok(())
    }

    /// Adds one of them, by its name there.
    fn add_named<S: System>(
        &self,
        system: &mut S,
        node: Node,
        name: &[u8],
        found: &mut Vec<Extent>,
    ) -> Result<(), AllocError> {
        let Ok(name) = str::from_utf8(name) else {
            return Ok(());
        };
        if name == "" || name == "." || name == ".." {
            return Ok(());
        }
        let file = format!(in self.alloc; "slaves/{name}/dev")?;
        if let Some(part) = self.numbers(system, node, file.as_str())? {
            let whole = self.whole(system, Holder::Device(part), false)?;
            found.push(whole)?;
        }
        Ok(())
    }

    /// The number that a file of the device's folder tells.
    fn number<S: System>(
        &self,
        system: &mut S,
        node: Node,
        file: &str,
    ) -> Result<Option<u64>, AllocError> {
        let mut text = [0; TEXT];
        match self.text(system, node, file, &mut text)? {
            Some(text) => Ok(text.parse().ok()),
            None => Ok(None),
        }
    }

    /// The numbers of a block device that a file of the device's folder tells.
    fn numbers<S: System>(
        &self,
        system: &mut S,
        node: Node,
        file: &str,
    ) -> Result<Option<Node>, AllocError> {
        let mut text = [0; TEXT];
        match self.text(system, node, file, &mut text)? {
            Some(text) => Ok(node_of(text)),
            None => Ok(None),
        }
    }

    /// The text of a file of the device's folder, without the newline behind it.
    fn text<'b, S: System>(
        &self,
        system: &mut S,
        node: Node,
        file: &str,
        into: &'b mut [u8; TEXT],
    ) -> Result<Option<&'b str>, AllocError> {
        let path = self.path(node, file)?;
        let Some(len) = system.text(path.as_str(), into) else {
            return Ok(None);
        };
        match str::from_utf8(&into[..len]) {
            Ok(text) => Ok(Some(text.strip_suffix('\n').unwrap_or(text))),
            Err(_) => Ok(None),
        }
    }

    /// The name of a file of the device's folder.
    fn path(&self, node: Node, file: &str) -> Result<String, AllocError> {
        let (folder, major, minor) = (self.folder, node.major, node.minor);
        format!(in self.alloc; "{folder}/{major}:{minor}/{file}")
    }
}

/// The numbers of a block device, of the text MAJOR:MINOR.
fn node_of(text: &str) -> Option<Node> {
    let (major, minor) = text.split_once(':')?;
    Some(Node {
        major: major.parse().ok()?,
        minor: minor.parse().ok()?,
    })
}
