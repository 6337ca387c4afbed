ghost use Rattle.std.specs.Prelude.{◌≡◌, Some};
ghost use Rattle.std.specs.Str.{str_eq_ignore_ascii_case};
ghost use Rattle.luks_explain.specs.Names.{fault_called, fault_named, name_in, name_of};

use crate::explanation::Explanation;
use crate::texts::{means, next, place, safe};

/// A fault by its name alone, without what it prints in brackets. If several faults have one name,
/// as `Outside` of an area and of the keyslot to open, it stands for all of them.
#[derive(Clone, Copy, PartialEq)]
pub enum Fault {
    /// Fewer than 592 bytes, so that no header fits.
    TooShort,
    /// No header: the magic isn't there, and no second copy is sound.
    NotLuks,
    /// The magic is there, the version is neither 1 nor 2.
    Version,
    /// LUKS2: neither copy of the header agrees with its checksum.
    NoSoundCopy,
    /// A text of the header holds a byte that can't be printed.
    Text,
    /// The uuid isn't one.
    Uuid,
    /// LUKS1: keyslot N is neither enabled nor disabled.
    SlotState,
    /// LUKS1: a volume key of 0 bytes, or of more than 128.
    KeyBytes,
    /// LUKS1: keyslot N has 0 stripes.
    Stripes,
    /// LUKS1: 0 iterations; of add, change and format: fewer than 1000.
    Iterations,
    /// LUKS2: the metadata's area isn't an object and then zeros.
    JsonArea,
    /// LUKS2: the metadata isn't JSON, or nests more than 127 deep.
    BadJson,
    /// LUKS2: a number of the metadata isn't a whole one of 64 bits.
    NotWhole,
    /// LUKS2: a member is missing, or isn't what it has to be.
    Shape,
    /// LUKS2: a type that isn't known, as of an unfinished reencryption.
    Kind,
    /// LUKS2: a list names an object that isn't there.
    NoSuchName,
    /// LUKS2: a name twice in a list, or a keyslot not in just one digest.
    Assigned,
    /// LUKS2: json_size isn't that of the metadata's area.
    Sizes,
    /// LUKS2: the area of keyslot N can't hold its stripes.
    AreaTooSmall,
    /// LUKS2: a key area lies outside its region, or the data within it.
    Region,
    /// LUKS2: what is under way in the metadata contradicts itself.
    UnderWay,
    /// An area ends past the volume's end.
    Outside,
    /// Two areas share bytes, so that writing one destroys the other.
    Overlap,
    /// The keyslot isn't there; of an edit of LUKS1 also: it is disabled.
    NoSuchSlot,
    /// Of remove: the keyslot of --by is that of --slot.
    SameSlot,
    /// LUKS1: the keyslot is disabled.
    SlotFree,
    /// The keyslot is the reencryption's own, and holds no key.
    NoKey,
    /// The keyslot derives by Argon2, with more memory than is allowed.
    Argon2,
    /// The key area's cipher isn't aes-xts-plain64 or aes-xts-plain, nor one of older disks that is accepted; of
    /// format: --cipher is one of older disks, and these aren't accepted.
    Cipher,
    /// One of the keyslot's hashes isn't sha1, sha256 or sha512, nor one of older disks that is accepted.
    Hash,
    /// The key of the key area's cipher hasn't a length of that cipher.
    KeySize,
    /// The digest that is to be asked isn't there.
    NoSuchDigest,
    /// The key hasn't the length of the volume's; of format: it hasn't as many bytes as are asked for, or the cipher
    /// takes none of so many.
    KeyLength,
    /// The key isn't the volume's, or the keyslot's.
    WrongKey,
    /// The passphrase doesn't open the keyslot.
    Locked,
    /// A passphrase's file has more than 65536 bytes.
    Passphrase,
    /// The metadata names requirements, as of a reencryption.
    Requirements,
    /// The keyslot of --to is in use.
    SlotTaken,
    /// No keyslot is free, or LUKS1 has none of that number.
    NoFreeSlot,
    /// No gap of the key areas holds a new one; of convert: too large.
    NoRoom,
    /// No other keyslot would give the key.
    LastSlot,
    /// More than 47 bytes, or one that can't be printed, or LUKS1.
    BadLabel,
    /// The token isn't there.
    NoSuchToken,
    /// The token of --to is there.
    TokenTaken,
    /// All 32 numbers of tokens are taken.
    NoFreeToken,
    /// cryptsetup doesn't read metadata with the token.
    UnreadableToken,
    /// The uuid to set isn't one.
    BadUuid,
    /// There is no higher sequence number.
    SeqExhausted,
    /// The new metadata is longer than its area.
    MetadataFull,
    /// The random file is too short, or none is given.
    RandomLength,
    /// Of format: --payload lies in the header or the key areas, or past what the header can tell.
    Payload,
    /// The volume, or TARGET, is too short.
    TooSmall,
    /// Of format: --sector-size isn't 512, of LUKS2 neither 1024, 2048 or 4096.
    SectorSize,
    /// Of format: the data's part of the volume isn't a whole number of sectors of --sector-size.
    Uneven,
    /// Of convert: SOURCE is of LUKS2.
    NotLuks1,
    /// TARGET is SOURCE.
    SameFile,
    /// Of rebuild: a header of SOURCE counts.
    Counts,
    /// Of rebuild: no metadata of SOURCE is whole.
    NoMetadata,
    /// Of rebuild: SOURCE has no signs of a LUKS1 header.
    NoHeader,
    /// Of backup: FILE is there and isn't empty.
    Exists,
    /// Of restore: check --detached refuses FILE.
    NotAccepted,
    /// Of restore: check would refuse VOLUME with this header.
    DoesNotFit,
    /// Another volume's header is on what would be written over.
    OtherVolume,
    /// The disk has another use, which would be written over.
    OtherUse,
    /// cryptsetup is in the midst of reencrypting the volume.
    Reencrypting,
    /// Of restore: the reencryption has gone on since the backup.
    Progressed,
    /// Of show --tables: nothing is under way in the volume.
    NotUnderWay,
}

/// The name of the fault's variant.
macro_rules! variant_name {
    ($fault:expr; $($variant:ident)*) => {
        match $fault {
            $(Fault::$variant => stringify!($variant),)*
        }
    };
}

impl Fault {
    /// Every fault: of the header, the metadata of LUKS2, the areas, the keyslot that is to be opened,
    /// then of an edit, of formatting, of converting, of rebuilding and of header backups, and at last of
    /// another use of the disk and of a reencryption.
    pub const ALL: [Fault; 67] = [
        Fault::TooShort,
        Fault::NotLuks,
        Fault::Version,
        Fault::NoSoundCopy,
        Fault::Text,
        Fault::Uuid,
        Fault::SlotState,
        Fault::KeyBytes,
        Fault::Stripes,
        Fault::Iterations,
        Fault::JsonArea,
        Fault::BadJson,
        Fault::NotWhole,
        Fault::Shape,
        Fault::Kind,
        Fault::NoSuchName,
        Fault::Assigned,
        Fault::Sizes,
        Fault::AreaTooSmall,
        Fault::Region,
        Fault::UnderWay,
        Fault::Outside,
        Fault::Overlap,
        Fault::NoSuchSlot,
        Fault::SameSlot,
        Fault::SlotFree,
        Fault::NoKey,
        Fault::Argon2,
        Fault::Cipher,
        Fault::Hash,
        Fault::KeySize,
        Fault::NoSuchDigest,
        Fault::KeyLength,
        Fault::WrongKey,
        Fault::Locked,
        Fault::Passphrase,
        Fault::Requirements,
        Fault::SlotTaken,
        Fault::NoFreeSlot,
        Fault::NoRoom,
        Fault::LastSlot,
        Fault::BadLabel,
        Fault::NoSuchToken,
        Fault::TokenTaken,
        Fault::NoFreeToken,
        Fault::UnreadableToken,
        Fault::BadUuid,
        Fault::SeqExhausted,
        Fault::MetadataFull,
        Fault::RandomLength,
        Fault::Payload,
        Fault::TooSmall,
        Fault::SectorSize,
        Fault::Uneven,
        Fault::NotLuks1,
        Fault::SameFile,
        Fault::Counts,
        Fault::NoMetadata,
        Fault::NoHeader,
        Fault::Exists,
        Fault::NotAccepted,
        Fault::DoesNotFit,
        Fault::OtherVolume,
        Fault::OtherUse,
        Fault::Reencrypting,
        Fault::Progressed,
        Fault::NotUnderWay,
    ];

    /// The fault that is so printed, or that has this name, written with capital letters or small ones;
    /// None where none has.
    pub fn find(printed: &str) -> Option<Fault>
        ensures { result ≡ fault_called (name_in printed.now) }
    {
        fault_of(front(printed))
    }

    /// What it prints before a bracket, by which it is found.
    #[tactic(auto, using(crate::specs::Names::named, crate::specs::Names::called))]
    pub fn name(self) -> &'static str
        ensures value { result.now ≡ name_of self }
        ensures known { fault_named result.now ≡ Some self }
        ensures called { fault_called result.now ≡ Some self }
    {
        variant_name!(self;
            TooShort NotLuks Version NoSoundCopy Text Uuid SlotState KeyBytes Stripes Iterations
            JsonArea BadJson NotWhole Shape Kind NoSuchName Assigned Sizes AreaTooSmall Region
            UnderWay Outside Overlap NoSuchSlot SameSlot SlotFree NoKey Argon2 Cipher Hash KeySize NoSuchDigest KeyLength
            WrongKey Locked Passphrase Requirements SlotTaken NoFreeSlot NoRoom LastSlot BadLabel
            NoSuchToken TokenTaken NoFreeToken UnreadableToken BadUuid SeqExhausted MetadataFull
            RandomLength Payload TooSmall SectorSize Uneven NotLuks1 SameFile Counts NoMetadata NoHeader Exists
            NotAccepted DoesNotFit OtherVolume OtherUse Reencrypting Progressed NotUnderWay
        )
    }

    /// What is to be said of it.
    pub fn explanation(self) -> Explanation
        ensures { result.name.now ≡ name_of self }
    {
        Explanation {
            name: self.name(),
            means: means(self),
            place: place(self),
            safe: safe(self),
            next: next(self),
        }
    }
}

// What precedes the first bracket.
fn front(printed: &str) -> &str
    ensures { result.now ≡ name_in printed.now }
{
    match printed.split_once('(') {
        Some((name, _)) => name,
        None => printed,
    }
}

// The fault of this name.
fn fault_of(name: &str) -> Option<Fault>
    ensures { result ≡ fault_called name.now }
{
    Fault::ALL
        .iter()
        .copied()
        .find(|fault| is_same(name, fault.name()))
}

// Whether both are one name, in capital letters or small ones.
fn is_same(name: &str, other: &str) -> bool
    ensures { result ≡ str_eq_ignore_ascii_case name.now other.now }
{
    name.eq_ignore_ascii_case(other)
}
