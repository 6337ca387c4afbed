//! A list of edits of the small LUKS1 volume by SHA-256, and what it leaves: printed by `testdata/oracle/edit_values edits1`.

use crate::rows::Row;
use luks_edit::{Edit, NewUuid};
use luks_test_devices::{add, change, label, remove};

/// A passphrase of 80 bytes.
const LONG: &[u8] = &[
    0x00, 0xff, 0x00, 0xff, 0x00, 0xff, 0x00, 0xff, 0x00, 0xff, 0x00, 0xff, 0x00, 0xff, 0x00, 0xff,
    0x00, 0xff, 0x00, 0xff, 0x00, 0xff, 0x00, 0xff, 0x00, 0xff, 0x00, 0xff, 0x00, 0xff, 0x00, 0xff,
    0x00, 0xff, 0x00, 0xff, 0x00, 0xff, 0x00, 0xff, 0x00, 0xff, 0x00, 0xff, 0x00, 0xff, 0x00, 0xff,
    0x00, 0xff, 0x00, 0xff, 0x00, 0xff, 0x00, 0xff, 0x00, 0xff, 0x00, 0xff, 0x00, 0xff, 0x00, 0xff,
    0x00, 0xff, 0x00, 0xff, 0x00, 0xff, 0x00, 0xff, 0x00, 0xff, 0x00, 0xff, 0x00, 0xff, 0x00, 0xff,
];

/// The list.
pub(crate) const LIST: [Row; 32] = [
    (remove!(0, b"one"), Some(0), "refused LastSlot"),
    (add!(0, b"one", b"two", None), Some(2528), "done slot 1"),
    (
        add!(0, b"one", b"three", Some(7)),
        Some(2528),
        "done slot 7",
    ),
    (add!(0, b"one", b"four", Some(7)), None, "refused SlotTaken"),
    (add!(1, b"one", b"four", None), Some(2528), "refused Locked"),
    (change!(1, b"two", b"four", 1001), Some(2528), "done slot 2"),
    (add!(0, b"one", b"", Some(4)), Some(2528), "done slot 4"),
    (remove!(0, b"one"), Some(0), "done"),
    (remove!(0, b"one"), None, "refused NoSuchSlot"),
    (remove!(7, b"two"), Some(0), "refused Locked"),
    (remove!(7, b"three"), Some(0), "done"),
    (Edit::Repair, Some(0), "done"),
    (add!(4, b"", LONG, None, 1500), Some(2528), "done slot 0"),
    (
        add!(4, b"", b"one", None, 999),
        Some(2528),
        "refused Iterations",
    ),
    (label!(b"disk"), Some(0), "refused BadLabel"),
    (add!(4, b"", b"one", Some(8)), None, "refused NoFreeSlot"),
    (add!(4, b"", b"one", None), Some(2528), "done slot 1"),
    (add!(4, b"", b"one", None), Some(2528), "done slot 3"),
    (add!(4, b"", b"one", None), Some(2528), "done slot 5"),
    (add!(4, b"", b"one", None), Some(2528), "done slot 6"),
    (add!(4, b"", b"one", None), Some(2528), "done slot 7"),
    (add!(4, b"", b"one", None), None, "refused NoFreeSlot"),
    (change!(4, b"", b"two"), None, "refused NoFreeSlot"),
    (remove!(4, b""), Some(0), "done"),
    (change!(5, b"one", b"three"), Some(2528), "done slot 4"),
    (remove!(5, b"one"), None, "refused NoSuchSlot"),
    (
        Edit::Uuid(NewUuid::Text("0A1b2c3D-4e5F-1071-8293-a4B5c6D7e8F9")),
        Some(0),
        "done",
    ),
    (
        Edit::Uuid(NewUuid::Text("0A1b2c3D-4e5F-1071-8293-a4B5c6D7e8F")),
        Some(0),
        "refused BadUuid",
    ),
    (Edit::Uuid(NewUuid::Random), Some(16), "done"),
    (Edit::Erase, Some(0), "done"),
    (add!(5, b"one", b"two", None), None, "refused NoSuchSlot"),
    (Edit::Erase, Some(0), "done"),
];

/// SHA-256 of the volume before the list, and of the whole volume after each edit, by sha256.
pub(crate) const SHA256: [&str; 33] = [
    "49c146b90a6cc8d0a840a2e39f93b73d79540be7401a1278b50ecc5c931b70ce",
    "49c146b90a6cc8d0a840a2e39f93b73d79540be7401a1278b50ecc5c931b70ce",
    "659d971cfcf59ae3dba03f3bb35285b2d3108464eb67efdfd7dc91578768301c",
    "82f2b037004b1a8b0e7f5beb4bf3d138642a32fed100cfea18077a9df372e035",
    "82f2b037004b1a8b0e7f5beb4bf3d138642a32fed100cfea18077a9df372e035",
    "82f2b037004b1a8b0e7f5beb4bf3d138642a32fed100cfea18077a9df372e035",
    "c1e1a427f497da8c70a6908ee6c0a86c6355098768bffc6e37e66f4ab2a9b6d6",
    "a5bc4a5a82e9a2f8a7bc83e4e006eae1fa4f8b11b770277eb0fb66f31639abf6",
    "bcc04d432fd45b5623ec6068cee4f21515e992b974b6dd612b94a2cae14514d5",
    "bcc04d432fd45b5623ec6068cee4f21515e992b974b6dd612b94a2cae14514d5",
    "bcc04d432fd45b5623ec6068cee4f21515e992b974b6dd612b94a2cae14514d5",
    "fc6b099dd7fe87b6077dbc5c172369f4638304aec5f8b188c92c7dab0e0a469c",
    "fc6b099dd7fe87b6077dbc5c172369f4638304aec5f8b188c92c7dab0e0a469c",
    "7a387c325d2849db0e6087fe7a814de2db8374932e36d0cfd78be1e31f7cba25",
    "7a387c325d2849db0e6087fe7a814de2db8374932e36d0cfd78be1e31f7cba25",
    "7a387c325d2849db0e6087fe7a814de2db8374932e36d0cfd78be1e31f7cba25",
    "7a387c325d2849db0e6087fe7a814de2db8374932e36d0cfd78be1e31f7cba25",
    "6b1b161865bb29eeb020db7bd7b8bace852b7bccdf27392b8734aa090016d898",
    "2234cc742c6caff454bef89b12b4d983b1a3213071dee906e305747a3c7383e3",
    "d504d9aa0c5ec11ef4ee486fcae31fc5a7bf653b181e8daf31607453df90f766",
    "eec40825165d28c645f2d85527bf34b246901f0c840051ca3db0f0646da4e6e2",
    "995d0203c48623148cfef58492f99c73a49906e32ce0011c629e071c3dd760a6",
    "995d0203c48623148cfef58492f99c73a49906e32ce0011c629e071c3dd760a6",
    "995d0203c48623148cfef58492f99c73a49906e32ce0011c629e071c3dd760a6",
    "72ec349f14c534720dec81391672b4398a10a52cb97c8b99079348d8b5ce5f0c",
    "1a09cc11ab1352ad0ec5efc960a80f61a5be8b070b43f09b794007206ada3ffc",
    "1a09cc11ab1352ad0ec5efc960a80f61a5be8b070b43f09b794007206ada3ffc",
    "6c48f3de37db15d650678bd2ac056415b47429636f8c54353835e3f867cf7061",
    "6c48f3de37db15d650678bd2ac056415b47429636f8c54353835e3f867cf7061",
    "ea8e7430e3fbf00b3d48832520d90fc32dc9e2592a5cce27f2b6c003956c6013",
    "a330956095bfebae573c074f95625b1f2349b63276fd2a687ad571b22bd9b314",
    "a330956095bfebae573c074f95625b1f2349b63276fd2a687ad571b22bd9b314",
    "a330956095bfebae573c074f95625b1f2349b63276fd2a687ad571b22bd9b314",
];
