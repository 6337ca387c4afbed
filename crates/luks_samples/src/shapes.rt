//! Metadata that cryptsetup 2.6.1 wrote. Printed by testdata/cryptsetup/as-consts; each text is NAME.json beside it.

/// 730 bytes, of a volume of 2101248 bytes: hdr_size 16384, seqid 3.
/// Owed: `accepted luks2 in-step seqid 3 areas 4`; detached: `accepted luks2 in-step seqid 3 areas 3`.
pub const SECTOR_4096: &str =
    "{\"keyslots\":{\"0\":{\"type\":\"luks2\",\"key_size\":64,\"af\":{\"type\":\"luks1\",\"stripes\":4000,\
     \"hash\":\"sha256\"},\"area\":{\"type\":\"raw\",\"offset\":\"32768\",\"size\":\"258048\",\
     \"encryption\":\"aes-xts-plain64\",\"key_size\":64},\"kdf\":{\"type\":\"pbkdf2\",\"hash\":\"sha256\",\
     \"iterations\":1000,\"salt\":\"OWgeQDqWLUQFmMcihzYCSY27Q3w7XSoGK0OuYu1DtnQ=\"}}},\"tokens\":{},\
     \"segments\":{\"0\":{\"type\":\"crypt\",\"offset\":\"2097152\",\"size\":\"dynamic\",\"iv_tweak\":\"0\",\
     \"encryption\":\"aes-xts-plain64\",\"sector_size\":4096}},\"digests\":{\"0\":{\"type\":\"pbkdf2\",\
     \"keyslots\":[\"0\"],\"segments\":[\"0\"],\"hash\":\"sha256\",\"iterations\":1000,\
     \"salt\":\"e20/hP/hWbdDk+yCuu/Ji/GWsSM2IxDTLk5WLlaRpD8=\",\
     \"digest\":\"9ZJdmrDClhkQKTirhTiwGoH37J57dUKTIX+ALO6D+6k=\"}},\"config\":{\"json_size\":\"12288\",\
     \"keyslots_size\":\"1048576\"}}";

/// 1335 bytes, of a volume of 2101248 bytes: hdr_size 16384, seqid 5.
/// Owed: `accepted luks2 in-step seqid 5 areas 6`; detached: `accepted luks2 in-step seqid 5 areas 5`.
pub const ARGON2: &str =
    "{\"keyslots\":{\"0\":{\"type\":\"luks2\",\"key_size\":64,\"af\":{\"type\":\"luks1\",\"stripes\":4000,\
     \"hash\":\"sha256\"},\"area\":{\"type\":\"raw\",\"offset\":\"32768\",\"size\":\"258048\",\
     \"encryption\":\"aes-xts-plain64\",\"key_size\":64},\"kdf\":{\"type\":\"argon2id\",\"time\":4,\
     \"memory\":32,\"cpus\":1,\"salt\":\"b7dZXzztEhw1psw8xnynmdWPR3Gxxd7rffqGlA6Iqsg=\"}},\
     \"1\":{\"type\":\"luks2\",\"key_size\":64,\"af\":{\"type\":\"luks1\",\"stripes\":4000,\
     \"hash\":\"sha256\"},\"area\":{\"type\":\"raw\",\"offset\":\"290816\",\"size\":\"258048\",\
     \"encryption\":\"aes-xts-plain64\",\"key_size\":64},\"kdf\":{\"type\":\"pbkdf2\",\"hash\":\"sha256\",\
     \"iterations\":1000,\"salt\":\"IKeFVhkrJ176hkUyI1buO0SqkHKrDfD1mZp85sIryAM=\"}},\"2\":{\"type\":\"luks2\",\
     \"key_size\":64,\"af\":{\"type\":\"luks1\",\"stripes\":4000,\"hash\":\"sha256\"},\
     \"area\":{\"type\":\"raw\",\"offset\":\"548864\",\"size\":\"258048\",\"encryption\":\"aes-xts-plain64\",\
     \"key_size\":64},\"kdf\":{\"type\":\"argon2i\",\"time\":4,\"memory\":32,\"cpus\":1,\
     \"salt\":\"X5L2zwfjwO59NyMIe3rRDYNMrbSXsYFJBmTH0FGTRkY=\"}}},\"tokens\":{},\
     \"segments\":{\"0\":{\"type\":\"crypt\",\"offset\":\"2097152\",\"size\":\"dynamic\",\"iv_tweak\":\"0\",\
     \"encryption\":\"aes-xts-plain64\",\"sector_size\":4096}},\"digests\":{\"0\":{\"type\":\"pbkdf2\",\
     \"keyslots\":[\"0\",\"1\",\"2\"],\"segments\":[\"0\"],\"hash\":\"sha256\",\"iterations\":1000,\
     \"salt\":\"E2kQQSC5JaqsHlnnuDBtQGDqGiwzW/fi6IWli6PU3Vo=\",\
     \"digest\":\"aGODPp/UhgTTPprgnuaMuvXxM+t6YdUMe5/w/17Pk7M=\"}},\"config\":{\"json_size\":\"12288\",\
     \"keyslots_size\":\"1048576\"}}";

/// 1260 bytes, of a volume of 2101248 bytes: hdr_size 16384, seqid 7.
/// Owed: `accepted luks2 in-step seqid 7 areas 5`; detached: `accepted luks2 in-step seqid 7 areas 4`.
pub const TOKENS: &str =
    "{\"keyslots\":{\"0\":{\"type\":\"luks2\",\"key_size\":64,\"af\":{\"type\":\"luks1\",\"stripes\":4000,\
     \"hash\":\"sha256\"},\"area\":{\"type\":\"raw\",\"offset\":\"32768\",\"size\":\"258048\",\
     \"encryption\":\"aes-xts-plain64\",\"key_size\":64},\"kdf\":{\"type\":\"pbkdf2\",\"hash\":\"sha256\",\
     \"iterations\":1000,\"salt\":\"llUOa8sdDMExEv1oVLkbznH+DNd4TVpJmgjaMQXscIg=\"}},\"1\":{\"type\":\"luks2\",\
     \"key_size\":64,\"af\":{\"type\":\"luks1\",\"stripes\":4000,\"hash\":\"sha256\"},\
     \"area\":{\"type\":\"raw\",\"offset\":\"290816\",\"size\":\"258048\",\"encryption\":\"aes-xts-plain64\",\
     \"key_size\":64},\"kdf\":{\"type\":\"pbkdf2\",\"hash\":\"sha256\",\"iterations\":1000,\
     \"salt\":\"OalJngEEStDOEQRcrON4bPzXB1UamIWN1vZsWF+txvk=\"}}},\"tokens\":{\"0\":{\"type\":\"example\",\
     \"keyslots\":[\"1\",\"0\"],\"text\":\"a\\\\b \u{e9} \\\"q\\\" \\n\",\"number\":-9223372036854775808,\
     \"nested\":{\"list\":[1,{\"none\":null},[true,false]]}},\"31\":{\"type\":\"luks2-keyring\",\
     \"keyslots\":[\"1\"],\"key_description\":\"luks:disk\"}},\"segments\":{\"0\":{\"type\":\"crypt\",\
     \"offset\":\"2097152\",\"size\":\"dynamic\",\"iv_tweak\":\"0\",\"encryption\":\"aes-xts-plain64\",\
     \"sector_size\":4096}},\"digests\":{\"0\":{\"type\":\"pbkdf2\",\"keyslots\":[\"0\",\"1\"],\
     \"segments\":[\"0\"],\"hash\":\"sha256\",\"iterations\":1000,\
     \"salt\":\"Mvi1LRT8lFDsufdfh5xDdABr1uCodIFCcIqlR0d8t1A=\",\
     \"digest\":\"fTKN8Cw5uYDc/4BqCd4xfs4TlKNz2+5QGJe6jGktivE=\"}},\"config\":{\"json_size\":\"12288\",\
     \"keyslots_size\":\"1048576\"}}";

/// 730 bytes, of a volume of 2101248 bytes: hdr_size 16384, seqid 3, label `disk-1`, subsystem `a\b`.
/// Owed: `accepted luks2 in-step seqid 3 areas 4`; detached: `accepted luks2 in-step seqid 3 areas 3`.
pub const LABELS: &str =
    "{\"keyslots\":{\"0\":{\"type\":\"luks2\",\"key_size\":64,\"af\":{\"type\":\"luks1\",\"stripes\":4000,\
     \"hash\":\"sha256\"},\"area\":{\"type\":\"raw\",\"offset\":\"32768\",\"size\":\"258048\",\
     \"encryption\":\"aes-xts-plain64\",\"key_size\":64},\"kdf\":{\"type\":\"pbkdf2\",\"hash\":\"sha256\",\
     \"iterations\":1000,\"salt\":\"QvRUSXGR7RrdGXk6nlduVKngeR5B8UhyA3FIEcw+ETw=\"}}},\"tokens\":{},\
     \"segments\":{\"0\":{\"type\":\"crypt\",\"offset\":\"2097152\",\"size\":\"dynamic\",\"iv_tweak\":\"0\",\
     \"encryption\":\"aes-xts-plain64\",\"sector_size\":4096}},\"digests\":{\"0\":{\"type\":\"pbkdf2\",\
     \"keyslots\":[\"0\"],\"segments\":[\"0\"],\"hash\":\"sha256\",\"iterations\":1000,\
     \"salt\":\"kKDFghV9WbqnENqlKPeS/1+kczC8HK1wfhqrvoK7WUo=\",\
     \"digest\":\"7ilxL6LmcxybRl2pRPfTZcn1nYB2LA0mEHXSe1qsW5k=\"}},\"config\":{\"json_size\":\"12288\",\
     \"keyslots_size\":\"1048576\"}}";

/// 1675 bytes, of a volume of 4198400 bytes: hdr_size 16384, seqid 8.
/// Owed: `accepted luks2 in-step seqid 8 areas 7`; detached: `accepted luks2 in-step seqid 8 areas 6`.
pub const PRIORITIES: &str =
    "{\"keyslots\":{\"2\":{\"type\":\"luks2\",\"key_size\":64,\"af\":{\"type\":\"luks1\",\"stripes\":4000,\
     \"hash\":\"sha256\"},\"area\":{\"type\":\"raw\",\"offset\":\"32768\",\"size\":\"258048\",\
     \"encryption\":\"aes-xts-plain64\",\"key_size\":64},\"kdf\":{\"type\":\"pbkdf2\",\"hash\":\"sha256\",\
     \"iterations\":1000,\"salt\":\"dfMDOxnPB+M3TrOD/wV0XT2a7DBOOyCe7kO2bPzmzws=\"},\"priority\":0},\
     \"10\":{\"type\":\"luks2\",\"key_size\":64,\"af\":{\"type\":\"luks1\",\"stripes\":4000,\
     \"hash\":\"sha256\"},\"area\":{\"type\":\"raw\",\"offset\":\"290816\",\"size\":\"258048\",\
     \"encryption\":\"aes-xts-plain64\",\"key_size\":64},\"kdf\":{\"type\":\"pbkdf2\",\"hash\":\"sha256\",\
     \"iterations\":1000,\"salt\":\"uA+FKCYbNNC8Q4A3WUVNMx89Tkj+x4iDPsmrkjZE/ek=\"},\"priority\":2},\
     \"31\":{\"type\":\"luks2\",\"key_size\":64,\"af\":{\"type\":\"luks1\",\"stripes\":4000,\
     \"hash\":\"sha256\"},\"area\":{\"type\":\"raw\",\"offset\":\"548864\",\"size\":\"258048\",\
     \"encryption\":\"aes-xts-plain64\",\"key_size\":64},\"kdf\":{\"type\":\"pbkdf2\",\"hash\":\"sha256\",\
     \"iterations\":1000,\"salt\":\"HH4/SD40rPzjviwckzGl+G3tuYZRpXoy1LVLn9rXBow=\"}},\"0\":{\"type\":\"luks2\",\
     \"key_size\":64,\"af\":{\"type\":\"luks1\",\"stripes\":4000,\"hash\":\"sha256\"},\
     \"area\":{\"type\":\"raw\",\"offset\":\"806912\",\"size\":\"258048\",\"encryption\":\"aes-xts-plain64\",\
     \"key_size\":64},\"kdf\":{\"type\":\"pbkdf2\",\"hash\":\"sha256\",\"iterations\":1000,\
     \"salt\":\"9m1N9+bUZ3/MKK4DDWHGlt4gad5Gr5KLa0MMzH2LFHs=\"}}},\"tokens\":{},\
     \"segments\":{\"0\":{\"type\":\"crypt\",\"offset\":\"4194304\",\"size\":\"dynamic\",\"iv_tweak\":\"0\",\
     \"encryption\":\"aes-xts-plain64\",\"sector_size\":4096}},\"digests\":{\"0\":{\"type\":\"pbkdf2\",\
     \"keyslots\":[\"2\",\"10\",\"31\",\"0\"],\"segments\":[\"0\"],\"hash\":\"sha256\",\"iterations\":1000,\
     \"salt\":\"L38S1PjXDshYjZs5lmLiE9HS3AMS8WAwXIov+Ty2h4w=\",\
     \"digest\":\"UvFTrVFw3KWvRcraIbARv4nh/Hg4hZ4fI12VYRGThm4=\"}},\"config\":{\"json_size\":\"12288\",\
     \"keyslots_size\":\"2097152\"}}";

/// 428 bytes, of a volume of 2101248 bytes: hdr_size 16384, seqid 4.
/// Owed: `accepted luks2 in-step seqid 4 areas 3`; detached: `accepted luks2 in-step seqid 4 areas 2`.
pub const ERASED: &str =
    "{\"keyslots\":{},\"tokens\":{},\"segments\":{\"0\":{\"type\":\"crypt\",\"offset\":\"2097152\",\
     \"size\":\"dynamic\",\"iv_tweak\":\"0\",\"encryption\":\"aes-xts-plain64\",\"sector_size\":4096}},\
     \"digests\":{\"0\":{\"type\":\"pbkdf2\",\"keyslots\":[],\"segments\":[\"0\"],\"hash\":\"sha256\",\
     \"iterations\":1000,\"salt\":\"0zGW/pcAToFUwaJ4yQxWb4gphqYo9nd5+2NrIxqbGZo=\",\
     \"digest\":\"5cji2ysg/K4LD0IpVrMIEwDB7VsSZljrsXZ5UkbXb0I=\"}},\"config\":{\"json_size\":\"12288\",\
     \"keyslots_size\":\"1048576\"}}";

/// 730 bytes, of a volume of 2101248 bytes: hdr_size 32768, seqid 3.
/// Owed: `accepted luks2 in-step seqid 3 areas 4`; detached: `accepted luks2 in-step seqid 3 areas 3`.
pub const HEADER_32K: &str =
    "{\"keyslots\":{\"0\":{\"type\":\"luks2\",\"key_size\":64,\"af\":{\"type\":\"luks1\",\"stripes\":4000,\
     \"hash\":\"sha256\"},\"area\":{\"type\":\"raw\",\"offset\":\"65536\",\"size\":\"258048\",\
     \"encryption\":\"aes-xts-plain64\",\"key_size\":64},\"kdf\":{\"type\":\"pbkdf2\",\"hash\":\"sha256\",\
     \"iterations\":1000,\"salt\":\"wOp4H93pbpzbsCeTGvTqL8PSMFtR2In1sftG037Kado=\"}}},\"tokens\":{},\
     \"segments\":{\"0\":{\"type\":\"crypt\",\"offset\":\"2097152\",\"size\":\"dynamic\",\"iv_tweak\":\"0\",\
     \"encryption\":\"aes-xts-plain64\",\"sector_size\":4096}},\"digests\":{\"0\":{\"type\":\"pbkdf2\",\
     \"keyslots\":[\"0\"],\"segments\":[\"0\"],\"hash\":\"sha256\",\"iterations\":1000,\
     \"salt\":\"cpr/kfBVBp2r5gh9lHt8bMGyGxJDnhuGWWHdkKTPIlI=\",\
     \"digest\":\"UxQ6752EOz3/vB/1D5g+nKIbQKySv7LcsK3/uItudB4=\"}},\"config\":{\"json_size\":\"28672\",\
     \"keyslots_size\":\"1048576\"}}";

/// 735 bytes, of a volume of 16781312 bytes: hdr_size 4194304, seqid 3.
/// Owed: `accepted luks2 in-step seqid 3 areas 4`; detached: `accepted luks2 in-step seqid 3 areas 3`.
pub const HEADER_4M: &str =
    "{\"keyslots\":{\"0\":{\"type\":\"luks2\",\"key_size\":64,\"af\":{\"type\":\"luks1\",\"stripes\":4000,\
     \"hash\":\"sha256\"},\"area\":{\"type\":\"raw\",\"offset\":\"8388608\",\"size\":\"258048\",\
     \"encryption\":\"aes-xts-plain64\",\"key_size\":64},\"kdf\":{\"type\":\"pbkdf2\",\"hash\":\"sha256\",\
     \"iterations\":1000,\"salt\":\"/4dO8IEAG+Cken8Dm5EZbEAvsy4u4e/U4SIcAgoWxJI=\"}}},\"tokens\":{},\
     \"segments\":{\"0\":{\"type\":\"crypt\",\"offset\":\"16777216\",\"size\":\"dynamic\",\"iv_tweak\":\"0\",\
     \"encryption\":\"aes-xts-plain64\",\"sector_size\":4096}},\"digests\":{\"0\":{\"type\":\"pbkdf2\",\
     \"keyslots\":[\"0\"],\"segments\":[\"0\"],\"hash\":\"sha256\",\"iterations\":1000,\
     \"salt\":\"v/HDqyq5IUhMrD/fplBK70TJnsQv/mm+h91WwoJ7qCc=\",\
     \"digest\":\"nn2nnKxZNnyvPoqz/F/toSRsnu5D36Z3pUKKrxnUxw4=\"}},\"config\":{\"json_size\":\"4190208\",\
     \"keyslots_size\":\"8388608\"}}";

/// 724 bytes, of a volume of 1081344 bytes: hdr_size 16384, seqid 3.
/// Owed: `refused Region(Segment(0))`; detached: `accepted luks2 in-step seqid 3 areas 3`.
pub const DETACHED_SMALL: &str =
    "{\"keyslots\":{\"0\":{\"type\":\"luks2\",\"key_size\":64,\"af\":{\"type\":\"luks1\",\"stripes\":4000,\
     \"hash\":\"sha256\"},\"area\":{\"type\":\"raw\",\"offset\":\"32768\",\"size\":\"258048\",\
     \"encryption\":\"aes-xts-plain64\",\"key_size\":64},\"kdf\":{\"type\":\"pbkdf2\",\"hash\":\"sha256\",\
     \"iterations\":1000,\"salt\":\"lmGDPsi6Ae0812IaXblkwPWR2fnh7lUo3jmrhKHVSvA=\"}}},\"tokens\":{},\
     \"segments\":{\"0\":{\"type\":\"crypt\",\"offset\":\"0\",\"size\":\"dynamic\",\"iv_tweak\":\"0\",\
     \"encryption\":\"aes-xts-plain64\",\"sector_size\":4096}},\"digests\":{\"0\":{\"type\":\"pbkdf2\",\
     \"keyslots\":[\"0\"],\"segments\":[\"0\"],\"hash\":\"sha256\",\"iterations\":1000,\
     \"salt\":\"oUHAOLddxvV5mP0W4yVsBw9M4BqUD4k7uzIbpCCk2xA=\",\
     \"digest\":\"huEXt+zQs04C7yR86Z5/d+GrqP2s+o7bzGZgXmGo/Ew=\"}},\"config\":{\"json_size\":\"12288\",\
     \"keyslots_size\":\"1048576\"}}";

/// 1009 bytes, of a volume of 2097664 bytes: hdr_size 16384, seqid 2.
/// Owed: `accepted luks2 in-step seqid 2 areas 5`; detached: `accepted luks2 in-step seqid 2 areas 4`.
pub const CONVERTED: &str =
    "{\"keyslots\":{\"0\":{\"type\":\"luks2\",\"key_size\":64,\"kdf\":{\"type\":\"pbkdf2\",\"hash\":\"sha1\",\
     \"iterations\":1000,\"salt\":\"O0gxyV4fknjYrB06ATPPs+BgTsCyU7BcpVd8YiJL6Eg=\"},\"af\":{\"type\":\"luks1\",\
     \"hash\":\"sha1\",\"stripes\":4000},\"area\":{\"type\":\"raw\",\"encryption\":\"aes-xts-plain64\",\
     \"key_size\":64,\"offset\":\"32768\",\"size\":\"258048\"}},\"5\":{\"type\":\"luks2\",\"key_size\":64,\
     \"kdf\":{\"type\":\"pbkdf2\",\"hash\":\"sha1\",\"iterations\":1000,\
     \"salt\":\"UqZsNFdtI16Fe4XyV95pvng0mB/Bo9nl+IJ73FcGX4A=\"},\"af\":{\"type\":\"luks1\",\"hash\":\"sha1\",\
     \"stripes\":4000},\"area\":{\"type\":\"raw\",\"encryption\":\"aes-xts-plain64\",\"key_size\":64,\
     \"offset\":\"1323008\",\"size\":\"258048\"}}},\"tokens\":{},\"segments\":{\"0\":{\"type\":\"crypt\",\
     \"offset\":\"2097152\",\"iv_tweak\":\"0\",\"size\":\"dynamic\",\"encryption\":\"aes-xts-plain64\",\
     \"sector_size\":512}},\"digests\":{\"0\":{\"type\":\"pbkdf2\",\"keyslots\":[\"0\",\"5\"],\
     \"segments\":[\"0\"],\"hash\":\"sha1\",\"salt\":\"Wm/mZgtrt6HddWdcMZ6N13anrvifTyFfAU9CDm7ePKM=\",\
     \"digest\":\"XecHo5htgtPnUFY0yMnEcarcP0o=\",\"iterations\":1000}},\"config\":{\"json_size\":\"12288\",\
     \"keyslots_size\":\"2064384\"}}";

/// 1475 bytes, of a volume of 67108864 bytes: hdr_size 16384, seqid 4.
/// Owed: `refused Kind(keyslots.1.type)`; detached: `refused Kind(keyslots.1.type)`.
pub const REENCRYPT: &str =
    "{\"keyslots\":{\"0\":{\"type\":\"luks2\",\"key_size\":64,\"af\":{\"type\":\"luks1\",\"stripes\":4000,\
     \"hash\":\"sha256\"},\"area\":{\"type\":\"raw\",\"offset\":\"32768\",\"size\":\"258048\",\
     \"encryption\":\"aes-xts-plain64\",\"key_size\":64},\"kdf\":{\"type\":\"pbkdf2\",\"hash\":\"sha256\",\
     \"iterations\":1000,\"salt\":\"zXWbkfejEDxIPvc7skf+8CIOwcXGv5ZzHvV5U8aWIAk=\"}},\
     \"1\":{\"area\":{\"offset\":\"290816\",\"size\":\"4096\",\"type\":\"datashift\",\
     \"shift_size\":\"16777216\"},\"type\":\"reencrypt\",\"key_size\":1,\"mode\":\"encrypt\",\
     \"direction\":\"backward\",\"priority\":0}},\"tokens\":{},\"segments\":{\"0\":{\"type\":\"linear\",\
     \"offset\":\"50331648\",\"size\":\"16777216\"},\"1\":{\"type\":\"linear\",\"offset\":\"16777216\",\
     \"size\":\"16777216\"},\"2\":{\"type\":\"linear\",\"offset\":\"50331648\",\"size\":\"16777216\",\
     \"flags\":[\"backup-moved-segment\"]},\"3\":{\"type\":\"linear\",\"offset\":\"0\",\"size\":\"33554432\",\
     \"flags\":[\"backup-previous\"]},\"4\":{\"type\":\"crypt\",\"offset\":\"16777216\",\"size\":\"dynamic\",\
     \"iv_tweak\":\"0\",\"encryption\":\"aes-xts-plain64\",\"sector_size\":512,\"flags\":[\"backup-final\"]}},\
     \"digests\":{\"0\":{\"type\":\"pbkdf2\",\"keyslots\":[\"0\"],\"segments\":[\"4\"],\"hash\":\"sha256\",\
     \"iterations\":1000,\"salt\":\"Sg+nPcQJIMa98u4KMbrmJ3r/AY0COh21qE8q5StLcqE=\",\
     \"digest\":\"wFhh8BnfIFy5AiseWlzhZdt+ovDpaDHtgeqt1TFcqgE=\"},\"1\":{\"type\":\"pbkdf2\",\
     \"keyslots\":[\"1\"],\"segments\":[],\"hash\":\"sha256\",\"iterations\":1000,\
     \"salt\":\"ufg2kDOH2sOTTQ02goaEefCs54lG1icGHIbN7OhAP/I=\",\
     \"digest\":\"6M3+kq5kRX5+FAqq3F6Lb30s2CHSO4pUrK5YPQGdYQs=\"}},\"config\":{\"json_size\":\"12288\",\
     \"keyslots_size\":\"16744448\",\"requirements\":{\"mandatory\":[\"online-reencrypt-v2\"]}}}";
