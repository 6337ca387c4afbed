//! Laws on the definitions of this crate. Each function does nothing; its contract is the law.
ghost use Rattle.std.specs.Prelude.{◌≡◌, ◌↔◌, ◌++◌, ◌≤◌, ℕ, List, length};
ghost use Rattle.luks_area.specs.Ranges.{part};
ghost use Rattle.luks1_header.specs.Written.{AreBytes};
ghost use Rattle.luks2_header.specs.Header2.{binary_header_size, copy_at, csum_at, csum_size, hdr_size, header_at, with_zero_checksum, HoldsBin2, IsSound, IsUuidFault, IsUuidField};
ghost use Rattle.luks2_header.specs.Selection.{Choice, Chosen, IsSelectFault, luks2, nothing};
ghost use Rattle.luks2_header.specs.Written.{IsWrittenCopy, WritesBin2};

use crate::bin2::Bin2;
use crate::selection::Copies;
use luks1_header::HeadFault;

/// Exactly one thing is chosen of a volume.
pub fn one_choice()
    ensures some { (v : List ℕ) → (c : Choice) × Chosen v c }
    ensures only { (v : List ℕ) (b c : Choice) → Chosen v b → Chosen v c → b ≡ c }
{}

/// A selection has a fault exactly where nothing is chosen, and the uuid has one exactly where its
/// field isn't that of a uuid.
pub fn luks2_without_faults()
    ensures selected { (v : List ℕ)
        → ((f : HeadFault) → IsSelectFault v f → ⊥) ↔ (Chosen v nothing → ⊥) }
    ensures uuid { (field : List ℕ)
        → ((f : HeadFault) → IsUuidFault field f → ⊥) ↔ IsUuidField field }
{}

/// The chosen copy is sound, and stands where its header says.
pub fn chosen_copy_is_sound()
    ensures { (v : List ℕ) (o : ℕ) (copies : Copies) → Chosen v (luks2 o copies) → IsSound v o }
{}

/// That a copy is sound depends on the volume's length and the copy's own bytes alone.
pub fn soundness_is_local()
    ensures copy { (v w : List ℕ) (o : ℕ) → length v ≡ length w → copy_at v o ≡ copy_at w o
        → IsSound v o ↔ IsSound w o }
    ensures range { (v w : List ℕ) (o n : ℕ) → length v ≡ length w → binary_header_size ≤ n
        → hdr_size (header_at v o) ≤ n → part v o n ≡ part w o n → IsSound v o ↔ IsSound w o }
{}

/// A copy that was written with its checksum is sound. If the first copy was, and the second
/// where the first one ends, with one sequence number, the first is chosen and both are in step,
/// whatever is at the other places.
pub fn written_copies_are_chosen()
    ensures sound { (v : List ℕ) (o : ℕ) (h : Bin2) (json : List ℕ)
        → IsWrittenCopy v o h json → IsSound v o }
    ensures fed { (b json : List ℕ) → length b ≡ binary_header_size
        → with_zero_checksum (b ++ json) ≡ with_zero_checksum b ++ json }
    ensures in_step { (v : List ℕ) (first second : Bin2) (a b : List ℕ) → IsWrittenCopy v 0 first a
        → IsWrittenCopy v first.hdr_size second b → first.seqid ≡ second.seqid
        → Chosen v (luks2 0 Copies.InStep) }
{}

/// What was written of a binary LUKS2 header that was read has every byte that the table of its fields
/// names.
pub fn luks2_written_again_is_the_same()
    ensures bin2 { (v b : List ℕ) (h : Bin2) → binary_header_size ≤ length v
        → AreBytes v 0 binary_header_size → HoldsBin2 v h → WritesBin2 b h
        → (part b 0 264 ≡ part v 0 264) × (part b csum_at csum_size ≡ part v csum_at csum_size) }
    ensures once { (b c : List ℕ) (h : Bin2) → WritesBin2 b h → WritesBin2 c h → b ≡ c }
{}
