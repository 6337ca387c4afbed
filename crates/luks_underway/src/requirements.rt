//! What the metadata asks of who uses the volume.

ghost use Rattle.std.specs.Prelude.{◌≡◌, option_map};
ghost use Rattle.serde_json.specs.View.{view};
ghost use Rattle.luks_json.specs.Arrays.{names};
ghost use Rattle.luks_underway.specs.Requirements.{are_requirements, mandatory_in, requirements_in};

use crate::flags::are_flags;
use luks_json::names;
use luks_rules::{Section, section_at};
use serde_json::Value;

/// The text is in `config.requirements.mandatory` (LUKS2 On-Disk Format 1.1, 3.5).
pub fn has_requirement(value: &Value, text: &str) -> bool
    ensures { result ≡ names text.now (mandatory_in (view value.now)) }
{
    names(mandatory_in(value), text)
}

/// `config.requirements` isn't there, or is an object whose `mandatory` isn't there or is an array of texts.
pub fn are_requirements(value: &Value) -> bool
    ensures { result ≡ are_requirements (view value.now) }
{
    match requirements_in(value) {
        Some(requirements) => requirements.is_object() && are_flags(requirements.get("mandatory")),
        None => true,
    }
}

fn requirements_in(value: &Value) -> Option<&Value>
    ensures { option_map (λ v. view v.now) result ≡ requirements_in (view value.now) }
{
    section_at(value, Section::Config)?.get("requirements")
}

/// `config.requirements.mandatory`.
pub fn mandatory_in(value: &Value) -> Option<&Value>
    ensures { option_map (λ v. view v.now) result ≡ mandatory_in (view value.now) }
{
    requirements_in(value)?.get("mandatory")
}
