//! The words that are known by their places.

/// A word that is known by its place, by its row in `OPERANDS`.
#[derive(Clone, Copy)]
pub(crate) enum Operand {
    Volume,
    Source,
    Target,
    DamagedSource,
    RebuiltTarget,
    Text,
    UuidText,
    Priority,
    Action,
    TokenWord,
    TokenFile,
    Fault,
    Device,
    NewBackup,
    Backup,
}

impl Operand {
    pub(crate) fn row(self) -> &'static OperandRow {
        &OPERANDS[self as usize]
    }
}

#[derive(Clone, Copy)]
pub(crate) struct OperandRow {
    pub(crate) name: &'static str,
    pub(crate) needed: bool,
    pub(crate) help: &'static str,
}

/// In the order of `Operand`.
static OPERANDS: [OperandRow; 15] = [
    OperandRow {
        name: "VOLUME",
        needed: true,
        help: "The volume, or its detached header",
    },
    OperandRow {
        name: "SOURCE",
        needed: true,
        help: "The LUKS1 volume, or its detached header",
    },
    OperandRow {
        name: "TARGET",
        needed: true,
        help: "The file of the new header, of at least 16 MiB",
    },
    OperandRow {
        name: "SOURCE",
        needed: true,
        help: "The damaged volume, or its detached header",
    },
    OperandRow {
        name: "TARGET",
        needed: true,
        help: "The file of the new header, mostly of 16 MiB",
    },
    OperandRow {
        name: "TEXT",
        needed: true,
        help: "The label, at most 47 plain characters",
    },
    OperandRow {
        name: "TEXT",
        needed: false,
        help: "The uuid; else a new one of random bytes",
    },
    OperandRow {
        name: "PRIORITY",
        needed: true,
        help: "ignore, normal or prefer",
    },
    OperandRow {
        name: "ACTION",
        needed: true,
        help: "list, export, import or remove",
    },
    OperandRow {
        name: "N|FILE",
        needed: false,
        help: "The token to export or remove; the file to import",
    },
    OperandRow {
        name: "FILE",
        needed: false,
        help: "The file to export to: - is standard output",
    },
    OperandRow {
        name: "FAULT",
        needed: false,
        help: "The fault, or its name alone; else all are listed",
    },
    OperandRow {
        name: "DEVICE",
        needed: true,
        help: "The disk, the partition or the image",
    },
    OperandRow {
        name: "FILE",
        needed: true,
        help: "The file of the backup, which is made",
    },
    OperandRow {
        name: "FILE",
        needed: true,
        help: "The file of the header backup",
    },
];
