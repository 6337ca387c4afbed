//! The numbers of what else a disk is used for. `luks_signature_name` has their names; a number stays its
//! own in each later version.
ghost use Rattle.std.specs.Prelude.{◌≡◌, ◌<◌, []};
ghost use Rattle.luks_signatures.specs.UseTexts.{use_text};
ghost use Rattle.luks_signatures.specs.declared.other_use.OtherUse.{OtherUse as TheUse};
ghost use Rattle.luks_c_answers.specs.Uses.{shown_number, use_number};

use luks_signatures::OtherUse;

/// The name of the use of this number; none has no byte.
pub fn use_name(number: u32) -> &'static str
    ensures named { (shown : TheUse) → use_number shown ≡ number → result.now ≡ use_text shown }
    ensures none { 63 < number → result.now ≡ [] }
{
    match number {
        1 => "GPT",
        2 => "md",
        3 => "bcache",
        4 => "LVM2",
        5 => "BitLocker",
        6 => "FAT",
        7 => "swap",
        8 => "XFS",
        9 => "ext",
        10 => "ZFS",
        11 => "NTFS",
        12 => "btrfs",
        13 => "exFAT",
        14 => "MBR",
        15 => "ISO9660",
        16 => "UDF",
        17 => "ReiserFS",
        18 => "Reiser4",
        19 => "JFS",
        20 => "HFS+",
        21 => "HFS",
        22 => "UFS",
        23 => "HPFS",
        24 => "SysV",
        25 => "Xenix",
        26 => "ReFS",
        27 => "cramfs",
        28 => "romfs",
        29 => "Minix",
        30 => "GFS2",
        31 => "OCFS",
        32 => "OCFS2",
        33 => "OracleASM",
        34 => "VxFS",
        35 => "SquashFS",
        36 => "NSS",
        37 => "UBI",
        38 => "UBIFS",
        39 => "BFS",
        40 => "BeFS",
        41 => "NILFS2",
        42 => "F2FS",
        43 => "mpool",
        44 => "APFS",
        45 => "zonefs",
        46 => "EROFS",
        47 => "EXFS",
        48 => "VMFS",
        49 => "LVM1",
        50 => "dm-snapshot",
        51 => "dm-verity",
        52 => "dm-integrity",
        53 => "VDO",
        54 => "Stratis",
        55 => "BlueStore",
        56 => "DRBD",
        57 => "HighPoint",
        58 => "AIX",
        59 => "SGI",
        60 => "Sun",
        61 => "Mac",
        62 => "Ultrix",
        63 => "BSD",
        _ => "",
    }
}

/// The number of a use, or of none.
pub fn number_shown(found: Option<OtherUse>) -> u32
    ensures { result ≡ shown_number found }
{
    match found {
        Some(shown) => number_of_use(shown),
        None => 0,
    }
}

fn number_of_use(shown: OtherUse) -> u32
    ensures { result ≡ use_number shown }
{
    match shown {
        OtherUse::Gpt => 1,
        OtherUse::Md => 2,
        OtherUse::Bcache => 3,
        OtherUse::Lvm2 => 4,
        OtherUse::BitLocker => 5,
        OtherUse::Fat => 6,
        OtherUse::Swap => 7,
        OtherUse::Xfs => 8,
        OtherUse::Ext => 9,
        OtherUse::Zfs => 10,
        OtherUse::Ntfs => 11,
        OtherUse::Btrfs => 12,
        OtherUse::ExFat => 13,
        OtherUse::Mbr => 14,
        OtherUse::Iso9660 => 15,
        OtherUse::Udf => 16,
        OtherUse::ReiserFs => 17,
        OtherUse::Reiser4 => 18,
        OtherUse::Jfs => 19,
        OtherUse::HfsPlus => 20,
        OtherUse::Hfs => 21,
        OtherUse::Ufs => 22,
        OtherUse::Hpfs => 23,
        OtherUse::SysV => 24,
        OtherUse::Xenix => 25,
        OtherUse::ReFs => 26,
        OtherUse::Cramfs => 27,
        OtherUse::Romfs => 28,
        OtherUse::Minix => 29,
        OtherUse::Gfs2 => 30,
        OtherUse::Ocfs => 31,
        OtherUse::Ocfs2 => 32,
        OtherUse::OracleAsm => 33,
        OtherUse::VxFs => 34,
        OtherUse::SquashFs => 35,
        OtherUse::Nss => 36,
        OtherUse::Ubi => 37,
        OtherUse::Ubifs => 38,
        OtherUse::Bfs => 39,
        OtherUse::BeFs => 40,
        OtherUse::Nilfs2 => 41,
        OtherUse::F2fs => 42,
        OtherUse::Mpool => 43,
        OtherUse::Apfs => 44,
        OtherUse::Zonefs => 45,
        OtherUse::Erofs => 46,
        OtherUse::ExFs => 47,
        OtherUse::Vmfs => 48,
        OtherUse::Lvm1 => 49,
        OtherUse::Snapshot => 50,
        OtherUse::Verity => 51,
        OtherUse::Integrity => 52,
        OtherUse::Vdo => 53,
        OtherUse::Stratis => 54,
        OtherUse::BlueStore => 55,
        OtherUse::Drbd => 56,
        OtherUse::HighPoint => 57,
        OtherUse::Aix => 58,
        OtherUse::Sgi => 59,
        OtherUse::Sun => 60,
        OtherUse::Mac => 61,
        OtherUse::Ultrix => 62,
        OtherUse::Bsd => 63,
    }
}
