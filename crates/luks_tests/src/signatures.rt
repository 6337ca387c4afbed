//! What else a disk is used for, by the signatures at its start. Their places and bytes are those of the
//! formats' own documents; libblkid takes disks that have them for the same (testdata/oracle/signatures).
use luks_area::{Device, FaultyDevice, Leave, MemDevice};
use luks_signatures::OtherUse::{
    self, Aix, Apfs, Bcache, BeFs, Bfs, BitLocker, BlueStore, Bsd, Btrfs, Cramfs, Drbd, Erofs,
    ExFat, ExFs, Ext, F2fs, Fat, Gfs2, Gpt, Hfs, HfsPlus, HighPoint, Hpfs, Integrity, Iso9660, Jfs,
    Lvm1, Lvm2, Mac, Mbr, Md, Minix, Mpool, Nilfs2, Nss, Ntfs, Ocfs, Ocfs2, OracleAsm, ReFs,
    Reiser4, ReiserFs, Romfs, Sgi, Snapshot, SquashFs, Stratis, Sun, Swap, SysV, Ubi, Ubifs, Udf,
    Ufs, Ultrix, Vdo, Verity, Vmfs, VxFs, Xenix, Xfs, Zfs, Zonefs,
};
use luks_signatures::first_use;
use std::alloc::{AllocError, Global};
use std::test::Fail;

/// Bytes, and the place from which on they stand.
type Mark = (usize, &'static [u8]);

const MD: &[u8] = &[0xFC, 0x4E, 0x2B, 0xA9];

const BCACHE: &[u8] = &[
    0xC6, 0x85, 0x73, 0xF6, 0x4E, 0x1A, 0x45, 0xCA, 0x82, 0x65, 0xF5, 0x7F, 0x48, 0xBA, 0x6D, 0x81,
];

const UBERBLOCK: &[u8] = &[0x0C, 0xB1, 0xBA, 0, 0, 0, 0, 0];

const BIG_UBERBLOCK: &[u8] = &[0, 0, 0, 0, 0, 0xBA, 0xB1, 0x0C];

const STRATIS: &[u8] = b"!Stra0tis\x86\xff\x02^\x41rh";

const ULTRIX: &[u8] = &[0x57, 0x29, 0x03, 0, 0x01, 0, 0, 0];

/// Each signature of bytes at a place.
static SIGNATURES: [(OtherUse, Mark); 168] = [
    (Gpt, (512, b"EFI PART")),
    (Gpt, (4096, b"EFI PART")),
    (Md, (0, MD)),
    (Md, (4096, MD)),
    (HighPoint, (4640, &[0xF0, 0x16, 0x78, 0x5A])),
    (HighPoint, (4640, &[0xFD, 0x16, 0x78, 0x5A])),
    (Bcache, (4120, BCACHE)),
    (BlueStore, (0, b"bluestore block device")),
    (Drbd, (0, b"$DRBDmgr=q")),
    (Drbd, (0, b"DRBDdlh*")),
    (Lvm2, (0, b"LABELONE")),
    (Lvm2, (512, b"LABELONE")),
    (Lvm2, (1024, b"LABELONE")),
    (Lvm2, (1536, b"LABELONE")),
    (Lvm1, (0, &[0x48, 0x4D, 0x01, 0])),
    (Lvm1, (0, &[0x48, 0x4D, 0x02, 0])),
    (Snapshot, (0, b"SnAp")),
    (Verity, (0, &[0x76, 0x65, 0x72, 0x69, 0x74, 0x79, 0, 0])),
    (
        Integrity,
        (0, &[0x69, 0x6E, 0x74, 0x65, 0x67, 0x72, 0x74, 0]),
    ),
    (Vmfs, (1048576, &[0x0D, 0xD0, 0x01, 0xC0])),
    (Ubi, (0, b"UBI#")),
    (Vdo, (0, b"dmvdo001")),
    (Stratis, (516, STRATIS)),
    (Stratis, (4612, STRATIS)),
    (BitLocker, (3, b"-FVE-FS-")),
    (Fat, (82, b"MSWIN")),
    (Fat, (82, b"FAT32   ")),
    (Fat, (54, b"MSDOS")),
    (Fat, (54, b"FAT16   ")),
    (Fat, (54, b"FAT12   ")),
    (Fat, (54, b"FAT     ")),
    (Swap, (0, &[0xED, 0xC3, 0x02, 0xE9, 0x98, 0x56, 0xE5, 0x0C])),
    (Swap, (4086, b"S1SUSPEND")),
    (Swap, (4086, b"S2SUSPEND")),
    (Swap, (4086, b"ULSUSPEND")),
    (Swap, (4086, b"LINHIB0001")),
    (Swap, (8182, b"S1SUSPEND")),
    (Swap, (8182, b"S2SUSPEND")),
    (Swap, (8182, b"ULSUSPEND")),
    (Swap, (8182, b"LINHIB0001")),
    (Swap, (16374, b"S1SUSPEND")),
    (Swap, (16374, b"S2SUSPEND")),
    (Swap, (16374, b"ULSUSPEND")),
    (Swap, (16374, b"LINHIB0001")),
    (Swap, (32758, b"S1SUSPEND")),
    (Swap, (32758, b"S2SUSPEND")),
    (Swap, (32758, b"ULSUSPEND")),
    (Swap, (32758, b"LINHIB0001")),
    (Swap, (65526, b"S1SUSPEND")),
    (Swap, (65526, b"S2SUSPEND")),
    (Swap, (65526, b"ULSUSPEND")),
    (Swap, (65526, b"LINHIB0001")),
    (Swap, (4086, b"SWAP-SPACE")),
    (Swap, (4086, b"SWAPSPACE2")),
    (Swap, (8182, b"SWAP-SPACE")),
    (Swap, (8182, b"SWAPSPACE2")),
    (Swap, (16374, b"SWAP-SPACE")),
    (Swap, (16374, b"SWAPSPACE2")),
    (Swap, (32758, b"SWAP-SPACE")),
    (Swap, (32758, b"SWAPSPACE2")),
    (Swap, (65526, b"SWAP-SPACE")),
    (Swap, (65526, b"SWAPSPACE2")),
    (Xfs, (0, b"XFSB")),
    (ExFs, (0, b"EXFS")),
    (Ext, (1080, &[0x53, 0xEF])),
    (ReiserFs, (8244, b"ReIsErFs")),
    (ReiserFs, (65588, b"ReIsEr2Fs")),
    (ReiserFs, (65588, b"ReIsEr3Fs")),
    (ReiserFs, (65588, b"ReIsErFs")),
    (ReiserFs, (8212, b"ReIsErFs")),
    (Reiser4, (65536, b"ReIsEr4")),
    (Jfs, (32768, b"JFS1")),
    (Udf, (32769, b"BEA01")),
    (Udf, (32769, b"BOOT2")),
    (Udf, (32769, b"CDW02")),
    (Udf, (32769, b"NSR02")),
    (Udf, (32769, b"NSR03")),
    (Udf, (32769, b"TEA01")),
    (Iso9660, (32769, b"CD001")),
    (Iso9660, (32777, b"CDROM")),
    (HfsPlus, (1024, b"H+")),
    (HfsPlus, (1024, b"HX")),
    (Hfs, (1024, b"BD")),
    (Ufs, (1372, &[0x19, 0x01, 0x54, 0x19])),
    (Ufs, (1372, &[0x19, 0x54, 0x01, 0x19])),
    (Ufs, (1372, &[0x54, 0x19, 0x01, 0])),
    (Ufs, (1372, &[0, 0x01, 0x19, 0x54])),
    (Ufs, (9564, &[0x19, 0x01, 0x54, 0x19])),
    (Ufs, (9564, &[0x19, 0x54, 0x01, 0x19])),
    (Ufs, (9564, &[0x54, 0x19, 0x01, 0])),
    (Ufs, (9564, &[0, 0x01, 0x19, 0x54])),
    (Ufs, (66908, &[0x19, 0x01, 0x54, 0x19])),
    (Ufs, (66908, &[0x19, 0x54, 0x01, 0x19])),
    (Ufs, (66908, &[0x54, 0x19, 0x01, 0])),
    (Ufs, (66908, &[0, 0x01, 0x19, 0x54])),
    (Ufs, (263516, &[0x19, 0x01, 0x54, 0x19])),
    (Ufs, (263516, &[0x19, 0x54, 0x01, 0x19])),
    (Ufs, (263516, &[0x54, 0x19, 0x01, 0])),
    (Ufs, (263516, &[0, 0x01, 0x19, 0x54])),
    (Hpfs, (8192, &[0x49, 0xE8, 0x95, 0xF9])),
    (SysV, (1016, &[0x20, 0x7E, 0x18, 0xFD])),
    (SysV, (1016, &[0xFD, 0x18, 0x7E, 0x20])),
    (SysV, (10232, &[0x20, 0x7E, 0x18, 0xFD])),
    (SysV, (10232, &[0xFD, 0x18, 0x7E, 0x20])),
    (SysV, (16376, &[0x20, 0x7E, 0x18, 0xFD])),
    (SysV, (16376, &[0xFD, 0x18, 0x7E, 0x20])),
    (SysV, (19448, &[0x20, 0x7E, 0x18, 0xFD])),
    (SysV, (19448, &[0xFD, 0x18, 0x7E, 0x20])),
    (Xenix, (2048, b"+UD")),
    (Xenix, (2048, b"DU+")),
    (Ntfs, (3, b"NTFS    ")),
    (ReFs, (0, &[0, 0, 0, 0x52, 0x65, 0x46, 0x53, 0])),
    (Cramfs, (0, &[0x45, 0x3D, 0xCD, 0x28])),
    (Cramfs, (0, &[0x28, 0xCD, 0x3D, 0x45])),
    (Romfs, (0, b"-rom1fs-")),
    (Minix, (1040, &[0x7F, 0x13])),
    (Minix, (1040, &[0x8F, 0x13])),
    (Minix, (1040, &[0x13, 0x7F])),
    (Minix, (1040, &[0x13, 0x8F])),
    (Minix, (1040, b"h$")),
    (Minix, (1040, b"x$")),
    (Minix, (1040, b"$h")),
    (Minix, (1040, b"$x")),
    (Minix, (1048, b"ZM")),
    (Minix, (1048, b"MZ")),
    (Gfs2, (65536, &[0x01, 0x16, 0x19, 0x70])),
    (Ocfs, (8192, b"OracleCFS")),
    (Ocfs2, (1024, b"OCFSV2")),
    (Ocfs2, (2048, b"OCFSV2")),
    (Ocfs2, (4096, b"OCFSV2")),
    (Ocfs2, (8192, b"OCFSV2")),
    (OracleAsm, (32, b"ORCLDISK")),
    (VxFs, (1024, &[0xF5, 0xFC, 0x01, 0xA5])),
    (VxFs, (8192, &[0xA5, 0x01, 0xFC, 0xF5])),
    (SquashFs, (0, b"hsqs")),
    (SquashFs, (0, b"sqsh")),
    (Nss, (4096, b"SPB5")),
    (Btrfs, (65600, b"_BHRfS_M")),
    (Ubifs, (0, &[0x31, 0x18, 0x10, 0x06])),
    (Bfs, (0, &[0xCE, 0xFA, 0xAD, 0x1B])),
    (Vmfs, (2097152, &[0x5E, 0xF1, 0xAB, 0x2F])),
    (BeFs, (32, b"BFS1")),
    (BeFs, (32, b"1SFB")),
    (BeFs, (544, b"BFS1")),
    (BeFs, (544, b"1SFB")),
    (Nilfs2, (1030, b"44")),
    (ExFat, (3, b"EXFAT   ")),
    (F2fs, (1024, &[0x10, 0x20, 0xF5, 0xF2])),
    (Mpool, (0, b"mpoolDev")),
    (Apfs, (32, b"NXSB")),
    (Zonefs, (0, b"SFOZ")),
    (Erofs, (1024, &[0xE2, 0xE1, 0xF5, 0xE0])),
    (Aix, (0, &[0xC9, 0xC2, 0xD4, 0xC1])),
    (Sgi, (0, &[0x0B, 0xE5, 0xA9, 0x41])),
    (Sun, (508, &[0xDA, 0xBE])),
    (Mac, (0, b"ER")),
    (Ultrix, (16312, ULTRIX)),
    (Bsd, (512, &[0x57, 0x45, 0x56, 0x82])),
    (Bsd, (64, &[0x57, 0x45, 0x56, 0x82])),
    (Bsd, (128, &[0x57, 0x45, 0x56, 0x82])),
    (Zfs, (131072, UBERBLOCK)),
    (Zfs, (131072, BIG_UBERBLOCK)),
    (Zfs, (132096, UBERBLOCK)),
    (Zfs, (135168, BIG_UBERBLOCK)),
    (Zfs, (261120, UBERBLOCK)),
    (Zfs, (393216, BIG_UBERBLOCK)),
    (Zfs, (393216, UBERBLOCK)),
    (Zfs, (523264, BIG_UBERBLOCK)),
];

/// Disks of 4608 bytes, zeros but for these, and what they show: of several signatures the first one, a
/// partition where an entry has a type and sectors, and a table without one where it names the disk.
static DISKS: [(&[Mark], Option<OtherUse>); 33] = [
    (&[], None),
    (&[(440, &[1, 2, 3, 4]), (510, &[0x55, 0xAA])], Some(Mbr)),
    (&[(443, &[1]), (510, &[0x55, 0xAA])], Some(Mbr)),
    (
        &[
            (440, &[1]),
            (446, &[0x80]),
            (494, &[0x80]),
            (510, &[0x55, 0xAA]),
        ],
        Some(Mbr),
    ),
    (&[(440, &[1]), (446, &[1]), (510, &[0x55, 0xAA])], None),
    (&[(440, &[1]), (494, &[0x81]), (510, &[0x55, 0xAA])], None),
    (&[(439, &[1]), (444, &[1]), (510, &[0x55, 0xAA])], None),
    (&[(440, &[1]), (510, &[0x55, 0xAB])], None),
    (
        &[(82, b"FAT32   "), (440, &[1]), (510, &[0x55, 0xAA])],
        Some(Fat),
    ),
    (
        &[(440, &[1]), (510, &[0x55, 0xAA]), (512, b"LABELONE")],
        Some(Lvm2),
    ),
    (
        &[(450, &[0x83]), (458, &[1]), (510, &[0x55, 0xAA])],
        Some(Mbr),
    ),
    (&[(466, &[1]), (475, &[1]), (510, &[0x55, 0xAA])], Some(Mbr)),
    (
        &[(482, &[0xFF]), (492, &[1]), (510, &[0x55, 0xAA])],
        Some(Mbr),
    ),
    (&[(498, &[7]), (509, &[1]), (510, &[0x55, 0xAA])], Some(Mbr)),
    (&[(510, &[0x55, 0xAA])], None),
    (&[(450, &[0x83]), (510, &[0x55, 0xAA])], None),
    (&[(458, &[1, 2, 3, 4]), (510, &[0x55, 0xAA])], None),
    (
        &[(450, &[0x83]), (454, &[0, 8]), (510, &[0x55, 0xAA])],
        None,
    ),
    (&[(450, &[0x83]), (474, &[1]), (510, &[0x55, 0xAA])], None),
    (&[(449, &[0x83]), (458, &[1]), (510, &[0x55, 0xAA])], None),
    (&[(450, &[0x83]), (462, &[1]), (510, &[0x55, 0xAA])], None),
    (&[(450, &[0x83]), (458, &[1]), (510, &[0x55, 0xAB])], None),
    (&[(450, &[0x83]), (458, &[1]), (510, &[0x54, 0xAA])], None),
    (
        &[
            (450, &[0xEE]),
            (458, &[1]),
            (510, &[0x55, 0xAA]),
            (512, b"EFI PART"),
        ],
        Some(Gpt),
    ),
    (
        &[
            (450, &[0xEE]),
            (458, &[1]),
            (510, &[0x55, 0xAA]),
            (4096, b"EFI PART"),
        ],
        Some(Gpt),
    ),
    (
        &[(3, b"-FVE-FS-"), (82, b"FAT32   "), (510, &[0x55, 0xAA])],
        Some(BitLocker),
    ),
    (
        &[
            (54, b"FAT16   "),
            (450, &[6]),
            (458, &[1]),
            (510, &[0x55, 0xAA]),
        ],
        Some(Fat),
    ),
    (
        &[
            (3, b"NTFS    "),
            (450, &[7]),
            (458, &[1]),
            (510, &[0x55, 0xAA]),
        ],
        Some(Ntfs),
    ),
    (
        &[
            (3, b"EXFAT   "),
            (450, &[7]),
            (458, &[1]),
            (510, &[0x55, 0xAA]),
        ],
        Some(ExFat),
    ),
    (
        &[
            (450, &[0x83]),
            (458, &[1]),
            (510, &[0x55, 0xAA]),
            (1080, &[0x53, 0xEF]),
        ],
        Some(Ext),
    ),
    (&[(0, b"XFSB"), (4096, MD)], Some(Md)),
    (
        &[
            (512, b"LABELONE"),
            (1080, &[0x53, 0xEF]),
            (4086, b"SWAPSPACE2"),
        ],
        Some(Lvm2),
    ),
    (&[(1080, &[0x53, 0xEF]), (4086, b"SWAPSPACE2")], Some(Swap)),
];

/// What the first `len` bytes of a disk of these bytes show.
fn shown(bytes: Vec<u8>, len: usize) -> Option<OtherUse> {
    match first_use(&mut MemDevice::new(bytes), len as u64) {
        Ok(found) => found,
        Err(_) => None,
    }
}

/// A disk of zeros that ends with these bytes.
fn ending(alloc: Global, place: usize, bytes: &[u8]) -> Result<Vec<u8>, AllocError> {
    let mut disk = vec![in alloc; 0u8; place]?;
    disk.extend_from_slice(bytes)?;
    Ok(disk)
}

/// Whether the use is found where its bytes are wholly among those that are asked of and on the disk,
/// and nothing where the last one isn't, or where they stand a byte further on.
fn is_shown(alloc: Global, wanted: OtherUse, (place, bytes): Mark) -> Result<bool, AllocError> {
    let disk = ending(alloc, place, bytes)?;
    let end = disk.len();
    let mut cut = disk.clone()?;
    let _ = cut.pop();
    let mut later = disk.clone()?;
    later.insert(0, 0)?;
    Ok(
        shown(disk.clone()?, end) == Some(wanted)
            && shown(disk.clone()?, usize::MAX) == Some(wanted)
            && shown(disk, cut.len()).is_none()
            && shown(cut, end).is_none()
            && shown(later, usize::MAX).is_none(),
    )
}

/// Whether nothing is found where any one of the bytes is another.
fn is_shown_by_each(alloc: Global, (place, bytes): Mark) -> Result<bool, AllocError> {
    for i in 0..bytes.len() {
        let mut others = bytes.to_vec(alloc)?;
        others[i] ^= 0x20;
        if shown(ending(alloc, place, &others)?, usize::MAX).is_some() {
            return Ok(false);
        }
    }
    Ok(true)
}

/// Puts bytes over those of a disk.
fn put(disk: &mut [u8], (place, bytes): Mark) {
    for (byte, new) in disk.iter_mut().skip(place).zip(bytes) {
        *byte = *new;
    }
}

/// What a disk shows that has these marks.
fn shown_by(alloc: Global, marks: &[Mark]) -> Result<Option<OtherUse>, AllocError> {
    let mut disk = vec![in alloc; 0u8; 4608]?;
    for mark in marks {
        put(&mut disk, *mark);
    }
    Ok(shown(disk, usize::MAX))
}

#[test]
fn signatures_at_their_places(rt: HostRuntime) -> Result<(), Fail> {
    for row in SIGNATURES.iter() {
        let (wanted, mark) = *row;
        assert!(rt;
            is_shown(rt.alloc(), wanted, mark)?,
            "{wanted} at {}",
            mark.0
        );
    }
    Ok(())
}

#[test]
fn signatures_by_each_byte(rt: HostRuntime) -> Result<(), Fail> {
    for row in SIGNATURES.iter() {
        let (wanted, mark) = *row;
        assert!(rt;
            is_shown_by_each(rt.alloc(), mark)?,
            "{wanted} at {}",
            mark.0
        );
    }
    Ok(())
}

#[test]
fn partitions_and_several_signatures(rt: HostRuntime) -> Result<(), Fail> {
    for (i, row) in DISKS.iter().enumerate() {
        let (marks, wanted) = *row;
        assert!(rt; shown_by(rt.alloc(), marks)? == wanted, "row {i}");
    }
    Ok(())
}

// Whichever read fails, the answer is the device's fault; where none does, nothing is found.
#[test]
fn tells_each_failed_read(rt: HostRuntime) -> Result<(), Fail> {
    for call in 0..64 {
        let disk = MemDevice::new(vec![in rt.alloc(); 0u8; 512]?);
        let mut device = FaultyDevice::new(disk, call, Leave::Old);
        let answer = first_use(&mut device, 512);
        if device.failures() == 0 {
            assert!(rt; answer.is_ok() && call >= 2, "{call} reads");
            return Ok(());
        }
        assert!(rt; answer.is_err() && device.failures() == 1, "read {call}");
    }
    assert!(rt; false, "more than 64 reads");
    Ok(())
}
