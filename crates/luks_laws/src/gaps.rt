//! Laws on the area of a new keyslot.
ghost use Rattle.std.specs.Prelude.{◌⊎◌, ℕ, List, length};
ghost use Rattle.serde_json.specs.Data.{Data as Metadata};
ghost use Rattle.luks_area.specs.declared.area.Area.{Area as TheArea};
ghost use Rattle.luks2_header.specs.Header2.{hdr_size, header_at};
ghost use Rattle.luks_reading.specs.declared.report.Data.{Data as Payload};
ghost use Rattle.luks_reading.specs.Checked.{WellFormed};
ghost use Rattle.luks2_edit_laws.specs.declared.like.Like.{Like as TheLike};
ghost use Rattle.luks2_edit_laws.specs.Metadata.{HasMetadata};
ghost use Rattle.luks2_edit_laws.specs.Places.{HasNoNewArea, IsNewArea};
ghost use Rattle.luks2_judging.specs.Keys.{IsThereLike};

/// A keyslot of a well formed LUKS2 volume that is made like one that is there, or like that of a new volume,
/// has its area, or there is no room for it.
pub fn area_or_no_room()
    ensures { (v : List ℕ) (payload : Payload) (place : ℕ) (j : Metadata) (like : TheLike)
        → WellFormed v payload → HasMetadata v place j → IsThereLike j like
        → ((a : TheArea) × IsNewArea (hdr_size (header_at v place)) (length v) payload j like a)
        ⊎ HasNoNewArea (hdr_size (header_at v place)) (length v) payload j like }
{}
