//! Words of cryptsetup and other programs, and what stands for each here.

/// A word of another program.
#[derive(Clone, Copy)]
pub struct OtherWord {
    /// The word: a command's name, or an option with its hyphens.
    pub word: &'static str,
    /// What stands for it here.
    pub here: &'static str,
}

/// All that are known.
pub fn other_words() -> &'static [OtherWord] {
    &OTHER_WORDS
}

static OTHER_WORDS: [OtherWord; 58] = [
    OtherWord {
        word: "luksDump",
        here: "luks show",
    },
    OtherWord {
        word: "dump",
        here: "luks show",
    },
    OtherWord {
        word: "info",
        here: "luks show",
    },
    OtherWord {
        word: "list",
        here: "luks show",
    },
    OtherWord {
        word: "luksUUID",
        here: "luks show, and luks uuid",
    },
    OtherWord {
        word: "isLuks",
        here: "luks check",
    },
    OtherWord {
        word: "verify",
        here: "luks check",
    },
    OtherWord {
        word: "test",
        here: "luks check",
    },
    OtherWord {
        word: "luksOpen",
        here: "luks open, which tells and maps nothing",
    },
    OtherWord {
        word: "unlock",
        here: "luks open, which tells and maps nothing",
    },
    OtherWord {
        word: "luksAddKey",
        here: "luks add",
    },
    OtherWord {
        word: "addKey",
        here: "luks add",
    },
    OtherWord {
        word: "luksChangeKey",
        here: "luks change",
    },
    OtherWord {
        word: "changeKey",
        here: "luks change",
    },
    OtherWord {
        word: "luksConvertKey",
        here: "luks change --kdf KDF",
    },
    OtherWord {
        word: "passwd",
        here: "luks change",
    },
    OtherWord {
        word: "luksRemoveKey",
        here: "luks remove",
    },
    OtherWord {
        word: "removeKey",
        here: "luks remove",
    },
    OtherWord {
        word: "luksKillSlot",
        here: "luks remove",
    },
    OtherWord {
        word: "killSlot",
        here: "luks remove",
    },
    OtherWord {
        word: "luksErase",
        here: "luks erase VOLUME --all",
    },
    OtherWord {
        word: "delete",
        here: "luks remove",
    },
    OtherWord {
        word: "fsck",
        here: "luks check, and luks repair",
    },
    OtherWord {
        word: "config",
        here: "luks label, and luks priority",
    },
    OtherWord {
        word: "luksFormat",
        here: "luks format",
    },
    OtherWord {
        word: "luksHeaderBackup",
        here: "luks backup",
    },
    OtherWord {
        word: "luksHeaderRestore",
        here: "luks restore",
    },
    OtherWord {
        word: "scan",
        here: "luks find",
    },
    OtherWord {
        word: "search",
        here: "luks find",
    },
    OtherWord {
        word: "recover",
        here: "luks find, and luks rebuild",
    },
    OtherWord {
        word: "diff",
        here: "luks compare",
    },
    OtherWord {
        word: "--key-file",
        here: "--passphrase FILE",
    },
    OtherWord {
        word: "--keyfile",
        here: "--passphrase FILE",
    },
    OtherWord {
        word: "-d",
        here: "--passphrase FILE",
    },
    OtherWord {
        word: "--password-file",
        here: "--passphrase FILE",
    },
    OtherWord {
        word: "--new-keyfile",
        here: "--new FILE",
    },
    OtherWord {
        word: "--new-key-file",
        here: "--new FILE",
    },
    OtherWord {
        word: "--dump-volume-key",
        here: "luks key VOLUME --to FILE, with the passphrase",
    },
    OtherWord {
        word: "--dump-master-key",
        here: "luks key VOLUME --to FILE, with the passphrase",
    },
    OtherWord {
        word: "--volume-key-file",
        here: "--key FILE",
    },
    OtherWord {
        word: "--master-key-file",
        here: "--key FILE",
    },
    OtherWord {
        word: "--key-slot",
        here: "--slot N, and --to N for a new keyslot of add",
    },
    OtherWord {
        word: "-S",
        here: "--slot N, and --to N for a new keyslot of add",
    },
    OtherWord {
        word: "--new-key-slot",
        here: "--to N",
    },
    OtherWord {
        word: "--keyfile-offset",
        here: "--passphrase - behind a pipe from dd",
    },
    OtherWord {
        word: "--keyfile-size",
        here: "--passphrase - behind a pipe from dd",
    },
    OtherWord {
        word: "--header",
        here: "its file as VOLUME, mostly with --detached",
    },
    OtherWord {
        word: "--header-backup-file",
        here: "FILE: luks backup VOLUME FILE, luks restore FILE VOLUME",
    },
    OtherWord {
        word: "--type",
        here: "--version 1 or 2, of format",
    },
    OtherWord {
        word: "--pbkdf",
        here: "--kdf KDF",
    },
    OtherWord {
        word: "--pbkdf-memory",
        here: "--kdf-memory MIB, in MiB and not in KiB",
    },
    OtherWord {
        word: "--pbkdf-parallel",
        here: "--lanes N",
    },
    OtherWord {
        word: "--pbkdf-force-iterations",
        here: "--iterations N, or --passes N of Argon2",
    },
    OtherWord {
        word: "--use-random",
        here: "--random /dev/random",
    },
    OtherWord {
        word: "--use-urandom",
        here: "--random /dev/urandom",
    },
    OtherWord {
        word: "--dump-json-metadata",
        here: "luks show --json",
    },
    OtherWord {
        word: "--test-passphrase",
        here: "luks open, which does nothing else",
    },
    OtherWord {
        word: "--batch-mode",
        here: "not needed: nothing is asked",
    },
];
