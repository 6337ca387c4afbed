//! A list of edits of the small LUKS2 volume by SHA-256, and what it leaves: printed by `testdata/oracle/edit_values edits2`.

use crate::rows::Row;
use luks_edit::{Edit, NewUuid};
use luks_test_devices::{add, change, label, remove};

/// A passphrase of 80 bytes.
const LONG: &[u8] = &[
    0x00, 0xff, 0x00, 0xff, 0x00, 0xff, 0x00, 0xff, 0x00, 0xff, 0x00, 0xff, 0x00, 0xff, 0x00, 0xff,
    0x00, 0xff, 0x00, 0xff, 0x00, 0xff, 0x00, 0xff, 0x00, 0xff, 0x00, 0xff, 0x00, 0xff, 0x00, 0xff,
    0x00, 0xff, 0x00, 0xff, 0x00, 0xff, 0x00, 0xff, 0x00, 0xff, 0x00, 0xff, 0x00, 0xff, 0x00, 0xff,
    0x00, 0xff, 0x00, 0xff, 0x00, 0xff, 0x00, 0xff, 0x00, 0xff, 0x00, 0xff, 0x00, 0xff, 0x00, 0xff,
    0x00, 0xff, 0x00, 0xff, 0x00, 0xff, 0x00, 0xff, 0x00, 0xff, 0x00, 0xff, 0x00, 0xff, 0x00, 0xff,
];

/// The list.
pub(crate) const LIST: [Row; 35] = [
    (remove!(0, b"one"), Some(128), "refused LastSlot"),
    (add!(0, b"one", b"two", None), Some(2656), "done slot 1"),
    (
        add!(0, b"one", b"three", Some(7)),
        Some(2656),
        "done slot 7",
    ),
    (add!(0, b"one", b"four", Some(7)), None, "refused SlotTaken"),
    (add!(1, b"one", b"four", None), Some(2656), "refused Locked"),
    (change!(1, b"two", b"four", 1001), Some(2656), "done slot 1"),
    (add!(0, b"one", b"", Some(4)), Some(2656), "done slot 4"),
    (remove!(0, b"one"), Some(128), "done"),
    (remove!(0, b"one"), None, "refused NoSuchSlot"),
    (remove!(7, b"two"), Some(128), "refused Locked"),
    (remove!(7, b"three"), Some(128), "done"),
    (Edit::Repair, Some(128), "done"),
    (add!(4, b"", LONG, None, 1500), Some(2656), "done slot 0"),
    (
        add!(4, b"", b"one", None, 999),
        Some(2656),
        "refused Iterations",
    ),
    (label!(b"disk"), Some(128), "done"),
    (
        label!(b"dddddddddddddddddddddddddddddddddddddddddddddddd"),
        Some(128),
        "refused BadLabel",
    ),
    (add!(4, b"", b"one", Some(32)), None, "refused NoFreeSlot"),
    (change!(4, b"", b""), Some(2656), "done slot 4"),
    (add!(4, b"", b"one", Some(31)), Some(2656), "done slot 31"),
    (add!(4, b"", b"one", None), Some(2656), "done slot 2"),
    (add!(4, b"", b"one", None), Some(2656), "done slot 3"),
    (add!(4, b"", b"one", None), Some(2656), "done slot 5"),
    (add!(4, b"", b"one", None), Some(2656), "done slot 6"),
    (add!(4, b"", b"one", None), Some(2656), "refused NoRoom"),
    (change!(4, b"", b"two"), Some(2656), "refused NoRoom"),
    (label!(b""), Some(128), "done"),
    (remove!(31, b"one"), Some(128), "done"),
    (change!(4, b"", b"two"), Some(2656), "done slot 4"),
    (Edit::Repair, Some(128), "done"),
    (
        Edit::Uuid(NewUuid::Text("0A1b2c3D-4e5F-1071-8293-a4B5c6D7e8F9")),
        Some(128),
        "done",
    ),
    (
        Edit::Uuid(NewUuid::Text("0A1b2c3D-4e5F-1071-8293-a4B5c6D7e8F")),
        Some(128),
        "refused BadUuid",
    ),
    (Edit::Uuid(NewUuid::Random), Some(144), "done"),
    (Edit::Erase, Some(128), "done"),
    (add!(5, b"one", b"two", None), None, "refused NoSuchSlot"),
    (Edit::Erase, Some(128), "done"),
];

/// SHA-256 of the volume before the list, and of the whole volume after each edit, by sha256.
pub(crate) const SHA256: [&str; 36] = [
    "af156ffb590a89e9ff381ebbdd10221ff67a34f693270d682256e37f9b25a274",
    "af156ffb590a89e9ff381ebbdd10221ff67a34f693270d682256e37f9b25a274",
    "ea8c2c2cf6f5a5719f1a2f14825458693778615ea196135cf1f47e8a0f5ae135",
    "1a1464537cb490c39fd69847ba8c6bcedf0fba22b2149c9d690d58a5165cf805",
    "1a1464537cb490c39fd69847ba8c6bcedf0fba22b2149c9d690d58a5165cf805",
    "1a1464537cb490c39fd69847ba8c6bcedf0fba22b2149c9d690d58a5165cf805",
    "d56fdaf05c123d503addfb23d5dcefdac108d50a3dd8b6465942880dec697d54",
    "67ce7bfba7a21cd91436f6eaa4d28929d96207fc81ba947145eff74d5e98326a",
    "33f3355623f4bee7bc0c964709983769b8776a13ead6e525223a7affcef3b72e",
    "33f3355623f4bee7bc0c964709983769b8776a13ead6e525223a7affcef3b72e",
    "33f3355623f4bee7bc0c964709983769b8776a13ead6e525223a7affcef3b72e",
    "7a7dd0ddd77a2bf74703cf065fe4afd07c0cc93bccee6a3736793b82299003eb",
    "f6abfbb9a4515149e0c36cca2c1e08b16586e9e4b74d34454188f0a924c63390",
    "f51dd33cf24cec7f259a642ae063aa98c62b13df145c49548c42fdf6a97f4523",
    "f51dd33cf24cec7f259a642ae063aa98c62b13df145c49548c42fdf6a97f4523",
    "aec40cb500a9a7ad060e4391e84caf6de815bfd2c2eed8d4c1ae7f027b44f34f",
    "aec40cb500a9a7ad060e4391e84caf6de815bfd2c2eed8d4c1ae7f027b44f34f",
    "aec40cb500a9a7ad060e4391e84caf6de815bfd2c2eed8d4c1ae7f027b44f34f",
    "7f8ea38662375859e85b670f42c297988e9fa2be9f9c79850ae91d0cdf0b218f",
    "452441c995f35094407fb992742be7635ac9b207f0e4e615a8e3245ffbb7579a",
    "ebda23573a901d4fe94fc618656539adb99aa424d1f7bc6b2dcf5980d5a8b350",
    "6deea79517a6d5a29437ae6fcacde88d2ce993d4eb7aefbd526f9621f149fc52",
    "159a629be98d39cafb58659eff40866cbbe7ee51ba731fff8b089e5407fcc5d1",
    "f40abc3282fc2083bc273ddae1af91e3a4c32aab150896779ed2f24ec6479e5a",
    "f40abc3282fc2083bc273ddae1af91e3a4c32aab150896779ed2f24ec6479e5a",
    "f40abc3282fc2083bc273ddae1af91e3a4c32aab150896779ed2f24ec6479e5a",
    "e75b134d54f8b5b0e5b51899230cda2572f51a9ae409cdddfdaca18bf5bb0324",
    "034a330d19be69171bbbf5efe0bf15a1d5e32db7083fa71480dba13ffc8b6762",
    "ceb362b0781c89c77b092ee288d4b07abc3bc89145ff4f7d942fcefbf1cb3969",
    "2b5e195d8fb1856b9ed8616c068caa630da21b555b02dfd7718be9454744fc28",
    "7bd7dca026895417dd7f44a9bb79541d77bfedd13af5689ec00428ad744d4d11",
    "7bd7dca026895417dd7f44a9bb79541d77bfedd13af5689ec00428ad744d4d11",
    "b633b7fcebfb92fcf134a75fff9edc57b642cc86d54a9d13f65cea1b9442d9c7",
    "c16a545277655f4924dde6099f0c9b607ffc0c4ed8961b1b947838f6177b526a",
    "c16a545277655f4924dde6099f0c9b607ffc0c4ed8961b1b947838f6177b526a",
    "2e874a034df97513d18c02d21e414990f06e37f451b8a192aad91affa5e9a515",
];
