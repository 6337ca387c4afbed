//! Laws on the definitions of this crate. Each function does nothing; its contract is the law.
ghost use Rattle.std.specs.Prelude.{◌≡◌, ◌≢◌, ◌↔◌, ◌+◌, ◌*◌, ◌≤◌, ◌<◌, ℕ, List, length, slice_set};
ghost use Rattle.luks_area.specs.Ranges.{part, IsAt, SameBut};
ghost use Rattle.luks1_header.specs.Faults.{IsCommonFault, IsEntryFault, IsLuks1Fault};
ghost use Rattle.luks1_header.specs.Header1.{common_size, entry, entry_size, header_text, luks1_size, HoldsEntry, IsCommon, IsEntry, IsLuks1};
ghost use Rattle.luks1_header.specs.Written.{AreBytes, WritesCommon, WritesEntry};
ghost use Rattle.luks1_header.specs.declared.fault.TextField.{TextField as TheField};

use crate::fault::HeadFault;
use crate::luks1::{Luks1, Luks1Common, Luks1Slot};

/// A volume has no fault of a LUKS1 header exactly where it begins with one.
pub fn luks1_without_faults()
    ensures header { (v : List ℕ)
        → ((f : HeadFault) → IsLuks1Fault v f → ⊥) ↔ ((d : Luks1) × IsLuks1 v d) }
    ensures common { (v : List ℕ)
        → ((f : HeadFault) → IsCommonFault v f → ⊥) ↔ ((c : Luks1Common) × IsCommon v c) }
    ensures entry { (n : ℕ) (e : List ℕ)
        → ((f : HeadFault) → IsEntryFault n e f → ⊥) ↔ ((s : Luks1Slot) × IsEntry e s) }
{}

/// A LUKS1 header is the volume's first 592 bytes, the fields before its keyslots the first 208.
pub fn luks1_is_first_bytes()
    ensures header { (v : List ℕ) (d : Luks1) → luks1_size ≤ length v
        → IsLuks1 (part v 0 luks1_size) d ↔ IsLuks1 v d }
    ensures faults { (v : List ℕ) (f : HeadFault) → luks1_size ≤ length v
        → IsLuks1Fault (part v 0 luks1_size) f ↔ IsLuks1Fault v f }
    ensures common { (v : List ℕ) (c : Luks1Common)
        → IsCommon (part v 0 common_size) c ↔ IsCommon v c }
    ensures common_faults { (v : List ℕ) (f : HeadFault)
        → IsCommonFault (part v 0 common_size) f ↔ IsCommonFault v f }
    ensures entry { (v : List ℕ) (n : ℕ) → n < 8 → entry (part v 0 luks1_size) n ≡ entry v n }
{}

/// A LUKS1 header in which the entry of one keyslot was replaced by another one that is fit for use
/// is a LUKS1 header, with the other entries and the bytes before them as they were.
pub fn replaced_entry_keeps_header()
    ensures header { (v w : List ℕ) (d : Luks1) (n : ℕ) (s : Luks1Slot) → n < 8
        → SameBut (IsAt (common_size + entry_size * n) entry_size) v w
        → IsLuks1 v d → IsEntry (entry w n) s
        → IsLuks1 w (record d { slots = slice_set d.slots n s }) }
    ensures before { (v w : List ℕ) (n : ℕ)
        → SameBut (IsAt (common_size + entry_size * n) entry_size) v w
        → part w 0 common_size ≡ part v 0 common_size }
    ensures others { (v w : List ℕ) (n k : ℕ) → k ≢ n
        → SameBut (IsAt (common_size + entry_size * n) entry_size) v w
        → entry w k ≡ entry v k }
{}

/// What was written of a LUKS1 header that was read has every byte that the table of its fields names.
pub fn luks1_written_again_is_the_same()
    ensures common { (v b : List ℕ) (c : Luks1Common) → common_size ≤ length v → common_size ≤ length b
        → AreBytes v 0 common_size → AreBytes b 0 common_size → IsCommon v c → WritesCommon b c
        → (part b 0 8 ≡ part v 0 8) × (part b 104 64 ≡ part v 104 64)
        × ((t : TheField) → header_text b t ≡ header_text v t) }
    ensures entry { (e f : List ℕ) (s : Luks1Slot) → length e ≡ entry_size → AreBytes e 0 entry_size
        → HoldsEntry e s → WritesEntry f s → f ≡ e }
{}
