//! A small volume that lines damage, and the header that is made of it.
use crate::near::{Sought, given_segment};
use luks_area::MemDevice;
use luks_notes::{Hashing, note_taken};
use luks_reading::{Data, check};
use luks_rebuilding::{Copies, Effort, RebuildFault, Untold, Which, rebuild};
use luks_test_devices::{counted, old_bytes, two_hashes};
use luks_vector_lines::{Functions, Malformed, Words, demand};
use sha2::{Digest, Sha256};
use std::alloc::Global;

/// The volume that lines make.
#[derive(Drop)]
pub struct DamagedLuks2 {
    volume: Vec<u8>,
}

/// Which metadata is asked for, and the uuid that is given.
#[derive(Drop)]
struct Asked {
    second: bool,
    size: Option<u64>,
    thorough: bool,
    uuid: Option<String>,
}

impl Asked {
    /// `[second] [size LEN] [thorough] [uuid TEXT]`.
    fn read(alloc: Global, words: &mut Words<'_>) -> Result<Asked, Malformed> {
        let mut asked = Asked {
            second: false,
            size: None,
            thorough: false,
            uuid: None,
        };
        for _ in 0..4 {
            match words.next_word() {
                None => break,
                Some("second") => asked.second = true,
                Some("size") => asked.size = Some(words.number()?),
                Some("thorough") => asked.thorough = true,
                Some("uuid") => asked.uuid = Some(words.text(alloc)?),
                Some(_) => return Err(Malformed::Name),
            }
        }
        Ok(asked)
    }

    /// The copies that are asked for, and how much may be hashed for them.
    fn which(&self) -> Which {
        let copies = match (self.second, self.size) {
            (false, None) => Copies::Any,
            (true, None) => Copies::Second,
            (false, Some(size)) => Copies::OfSize(size),
            (true, Some(size)) => Copies::SecondOfSize(size),
        };
        let effort = if self.thorough {
            Effort::Thorough
        } else {
            Effort::Usual
        };
        Which { copies, effort }
    }

    /// What rebuilding answers.
    fn rebuild(
        &self,
        alloc: Global,
        source: &mut MemDevice,
        target: &mut MemDevice,
        random: &[u8],
    ) -> Result<(), RebuildFault> {
        let which = self.which();
        let uuid = match &self.uuid {
            Some(uuid) => Some(uuid.as_str()),
            None => None,
        };
        rebuild(alloc, source, target, which, uuid, random, &mut Untold)
    }
}

impl DamagedLuks2 {
    /// A volume of no bytes.
    pub fn new(alloc: Global) -> DamagedLuks2 {
        DamagedLuks2 {
            volume: Vec::new(alloc),
        }
    }

    /// `put AT BYTES`: these bytes stand there.
    fn put(&mut self, alloc: Global, words: &mut Words<'_>) -> Result<(), Malformed> {
        let at = words.len()?;
        let bytes = words.bytes(alloc)?;
        demand(at <= self.volume.len() && bytes.len() <= self.volume.len() - at)?;
        luks_test_devices::put(&mut self.volume, at, &bytes);
        Ok(())
    }

    /// The first bytes of the volume, as many as the next word says.
    fn front(&self, words: &mut Words<'_>) -> Result<&[u8], Malformed> {
        self.volume.get(..words.len()?).ok_or(Malformed::Outside)
    }

    /// `rebuild SOURCE TARGET RANDOM [second] [size LEN] [thorough] [uuid TEXT]`: of so many bytes of the volume, to
    /// a target of so many, by so many random bytes: the answer, and the SHA-256 of the target that is
    /// left. That the source has changed, or that a header isn't accepted, is told in its place.
    fn rebuild(&self, alloc: Global, words: &mut Words<'_>) -> Result<String, Malformed> {
        let image = self.front(words)?;
        let mut source = MemDevice::new(image.to_vec(alloc)?);
        let mut target = MemDevice::new(old_bytes(alloc, words.len()?)?);
        let random = counted(alloc, 0, words.len()?)?;
        let asked = Asked::read(alloc, words)?;
        let answer = asked.rebuild(alloc, &mut source, &mut target, &random);
        let sum = hex::encode(alloc, Sha256::digest(target.contents()))?;
        if source.contents() != image {
            return Ok(String::from_str(alloc, "the source has changed")?);
        }
        match answer {
            Err(fault) => Ok(format!(in alloc; "{fault} {sum}")?),
            Ok(()) if check(alloc, &mut target, Data::Elsewhere).is_err() => {
                Ok(String::from_str(alloc, "the header isn't accepted")?)
            }
            Ok(()) => Ok(format!(in alloc; "done {sum}")?),
        }
    }

    /// `note SOURCE [second] [size LEN] [thorough]`: what is said of so many bytes of the volume once a header was
    /// made of them on a target of as many bytes.
    fn note(&self, alloc: Global, words: &mut Words<'_>) -> Result<String, Malformed> {
        let image = self.front(words)?;
        let mut source = MemDevice::new(image.to_vec(alloc)?);
        let mut target = MemDevice::new(old_bytes(alloc, image.len())?);
        let asked = Asked::read(alloc, words)?;
        let _ = asked.rebuild(alloc, &mut source, &mut target, &counted(alloc, 0, 144)?);
        let which = asked.which();
        let mut hashing = Hashing::after(which.effort);
        let mut said = Vec::new(alloc);
        note_taken(
            alloc,
            &mut source,
            &mut target,
            which,
            &mut hashing,
            &mut said,
        );
        let said = str::from_utf8(said.as_slice()).unwrap_or("no text");
        Ok(String::from_str(alloc, said.trim_end())?)
    }

    /// `thorough SOURCE PASSPHRASE MOST`, and then `OFFSET CIPHER SECTOR_SIZE` where a segment is given: what is found
    /// near to what stands in so many bytes of the volume, or in fragments, by so many derivations at most.
    fn thorough(&self, alloc: Global, words: &mut Words<'_>) -> Result<String, Malformed> {
        let mut source = MemDevice::new(self.front(words)?.to_vec(alloc)?);
        let sought = Sought::read(alloc, words)?;
        let given = given_segment(words)?;
        sought.luks2(alloc, &mut source, &given)
    }
}

impl Functions for DamagedLuks2 {
    fn answer(
        &mut self,
        alloc: Global,
        function: &str,
        words: &mut Words<'_>,
    ) -> Result<Option<String>, Malformed> {
        match function {
            // `volume`: a volume of 66048 bytes with two keyslots, whose digests are of two hashes
            "volume" => self.volume = two_hashes(alloc)?,
            "put" => self.put(alloc, words)?,
            "rebuild" => return Ok(Some(self.rebuild(alloc, words)?)),
            "note" => return Ok(Some(self.note(alloc, words)?)),
            "thorough" => return Ok(Some(self.thorough(alloc, words)?)),
            _ => return Err(Malformed::Function),
        }
        Ok(None)
    }
}
