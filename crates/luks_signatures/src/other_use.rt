ghost use Rattle.std.specs.Prelude.{◌≡◌, Some};
ghost use Rattle.luks_signatures.specs.UseTexts.{use_text};

use std::fmt;

/// What a disk is used for that isn't a LUKS volume.
#[derive(Clone, Copy, PartialEq, Eq)]
pub enum OtherUse {
    /// A GUID partition table.
    Gpt,
    /// A member of an array of Linux's md, of the metadata 1.1 or 1.2.
    Md,
    /// A device of bcache, or of bcachefs.
    Bcache,
    /// A physical volume of LVM2.
    Lvm2,
    /// A volume that BitLocker encrypts.
    BitLocker,
    /// A file system FAT12, FAT16 or FAT32.
    Fat,
    /// Swap space of Linux, also where a suspended system lies in it.
    Swap,
    /// A file system XFS.
    Xfs,
    /// A file system ext2, ext3 or ext4.
    Ext,
    /// A device of a pool of ZFS.
    Zfs,
    /// A file system NTFS.
    Ntfs,
    /// A file system btrfs.
    Btrfs,
    /// A file system exFAT.
    ExFat,
    /// A partition table in the master boot record.
    Mbr,
    /// A file system ISO 9660, or that of High Sierra.
    Iso9660,
    /// A file system UDF.
    Udf,
    /// A file system ReiserFS.
    ReiserFs,
    /// A file system Reiser4.
    Reiser4,
    /// A file system JFS.
    Jfs,
    /// A file system HFS+ or HFSX.
    HfsPlus,
    /// A file system HFS.
    Hfs,
    /// A file system UFS1 or UFS2.
    Ufs,
    /// A file system HPFS.
    Hpfs,
    /// A file system of System V.
    SysV,
    /// A file system of Xenix.
    Xenix,
    /// A file system ReFS.
    ReFs,
    /// A file system cramfs.
    Cramfs,
    /// A file system romfs.
    Romfs,
    /// A file system of Minix.
    Minix,
    /// A file system GFS or GFS2.
    Gfs2,
    /// A file system OCFS.
    Ocfs,
    /// A file system OCFS2.
    Ocfs2,
    /// A disk of Oracle's ASM.
    OracleAsm,
    /// A file system VxFS.
    VxFs,
    /// A file system SquashFS.
    SquashFs,
    /// A volume of NetWare's NSS.
    Nss,
    /// A device of UBI.
    Ubi,
    /// A file system UBIFS.
    Ubifs,
    /// A file system BFS, of the SCO systems.
    Bfs,
    /// A file system of BeOS or Haiku.
    BeFs,
    /// A file system NILFS2.
    Nilfs2,
    /// A file system F2FS.
    F2fs,
    /// A device of mpool.
    Mpool,
    /// A container of APFS.
    Apfs,
    /// A file system zonefs.
    Zonefs,
    /// A file system EROFS.
    Erofs,
    /// A file system EXFS.
    ExFs,
    /// A volume of VMFS.
    Vmfs,
    /// A physical volume of LVM1.
    Lvm1,
    /// What the device mapper's snapshots copy to.
    Snapshot,
    /// The hashes of dm-verity.
    Verity,
    /// A device of dm-integrity.
    Integrity,
    /// A device of VDO.
    Vdo,
    /// A device of a pool of Stratis.
    Stratis,
    /// A device of Ceph's BlueStore.
    BlueStore,
    /// The control volume of DRBD Manage, or a log of DRBD Proxy.
    Drbd,
    /// A member of an array of a HighPoint 37x.
    HighPoint,
    /// A disk of AIX.
    Aix,
    /// A partition table of SGI.
    Sgi,
    /// A partition table of Sun.
    Sun,
    /// A partition table of Apple.
    Mac,
    /// A partition table of Ultrix.
    Ultrix,
    /// A disklabel of BSD.
    Bsd,
}

impl OtherUse {
    fn name(self) -> &'static str
        ensures { result.now ≡ use_text self }
    {
        match self {
            OtherUse::Gpt => "GPT",
            OtherUse::Md => "md",
            OtherUse::Bcache => "bcache",
            OtherUse::Lvm2 => "LVM2",
            OtherUse::BitLocker => "BitLocker",
            OtherUse::Fat => "FAT",
            OtherUse::Swap => "swap",
            OtherUse::Xfs => "XFS",
            OtherUse::Ext => "ext",
            OtherUse::Zfs => "ZFS",
            OtherUse::Ntfs => "NTFS",
            OtherUse::Btrfs => "btrfs",
            OtherUse::ExFat => "exFAT",
            OtherUse::Mbr => "MBR",
            OtherUse::Iso9660 => "ISO9660",
            OtherUse::Udf => "UDF",
            OtherUse::ReiserFs => "ReiserFS",
            OtherUse::Reiser4 => "Reiser4",
            OtherUse::Jfs => "JFS",
            OtherUse::HfsPlus => "HFS+",
            OtherUse::Hfs => "HFS",
            OtherUse::Ufs => "UFS",
            OtherUse::Hpfs => "HPFS",
            OtherUse::SysV => "SysV",
            OtherUse::Xenix => "Xenix",
            OtherUse::ReFs => "ReFS",
            OtherUse::Cramfs => "cramfs",
            OtherUse::Romfs => "romfs",
            OtherUse::Minix => "Minix",
            OtherUse::Gfs2 => "GFS2",
            OtherUse::Ocfs => "OCFS",
            OtherUse::Ocfs2 => "OCFS2",
            OtherUse::OracleAsm => "OracleASM",
            OtherUse::VxFs => "VxFS",
            OtherUse::SquashFs => "SquashFS",
            OtherUse::Nss => "NSS",
            OtherUse::Ubi => "UBI",
            OtherUse::Ubifs => "UBIFS",
            OtherUse::Bfs => "BFS",
            OtherUse::BeFs => "BeFS",
            OtherUse::Nilfs2 => "NILFS2",
            OtherUse::F2fs => "F2FS",
            OtherUse::Mpool => "mpool",
            OtherUse::Apfs => "APFS",
            OtherUse::Zonefs => "zonefs",
            OtherUse::Erofs => "EROFS",
            OtherUse::ExFs => "EXFS",
            OtherUse::Vmfs => "VMFS",
            OtherUse::Lvm1 => "LVM1",
            OtherUse::Snapshot => "dm-snapshot",
            OtherUse::Verity => "dm-verity",
            OtherUse::Integrity => "dm-integrity",
            OtherUse::Vdo => "VDO",
            OtherUse::Stratis => "Stratis",
            OtherUse::BlueStore => "BlueStore",
            OtherUse::Drbd => "DRBD",
            OtherUse::HighPoint => "HighPoint",
            OtherUse::Aix => "AIX",
            OtherUse::Sgi => "SGI",
            OtherUse::Sun => "Sun",
            OtherUse::Mac => "Mac",
            OtherUse::Ultrix => "Ultrix",
            OtherUse::Bsd => "BSD",
        }
    }
}

impl fmt::Display for OtherUse {
    ghost output = { λ shown. Some (use_text shown) };

    fn fmt<W: fmt::Write>(&self, f: &mut fmt::Formatter<W>) -> fmt::Result {
        f.write_str(self.name())
    }
}
